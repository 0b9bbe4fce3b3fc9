//! What a manifest holds that loads.
use super::*;
use build_manifest::command::{Args, Command, Input, InputForm, Tool};
use file_info::list::{Bytes, List};
use file_info::node::NodeName;
use file_info::path::PathName;

// A manifest with every section, and with what is special about nodes.
const WHOLE: &str = "client:
  name: basic
tools: {}
targets:
  \"main\": [\"<app>\"]
  other: [src, ./src/, lone]
default: \"main\"
nodes:
  \"src/\":
    is-directory-structure: true
    content-exclusion-patterns: [\"*.tmp\", \"?\"]
  a/../src/: {is-directory: true}
  src: {is-directory: true}
  lone: {is-virtual: true, is-directory: true}
commands:
  \"lib\":
    tool: shell
    inputs: [\"src/lib.txt\"]
    outputs: [\"out//lib.o\"]
    description: \"Compile lib\"
    args: [\"cp\", \"src/lib.txt\", \"out/lib.o\"]
  \"list\":
    tool: shell
    inputs: [\"src/\"]
    outputs: [\"out/list.txt\"]
    must-follow: [lone, app.x]
    args: \"ls src > out/list.txt\"
    env: {A: b}
    inherit-env: false
    deps: [./list.d]
    signature: s
    always-out-of-date: true
  \"<app>\":
    tool: phony
    inputs: [\"out/lib.o\"]
    outputs: [\"<app>\", app.x]
    allow-missing-inputs: true
  link: {tool: symlink, outputs: l, contents: to}
  clean: {tool: stale-file-removal, expectedOutputs: [out/a, ./b], roots: out/}
";

// The manifest of a small application.
const APPLICATION: &str = "client:
  name: basic
tools: {}
targets:
  \"main\": [\"<app>\"]
default: \"main\"
nodes:
  \"src/\":
    is-directory-structure: true
    content-exclusion-patterns: [\"*.tmp\"]
commands:
  \"lib\":
    tool: shell
    inputs: [\"src/lib.txt\"]
    outputs: [\"out/lib.o\"]
    description: \"Compile lib\"
    args: [\"cp\", \"src/lib.txt\", \"out/lib.o\"]
  \"list\":
    tool: shell
    inputs: [\"src/\"]
    outputs: [\"out/list.txt\"]
    description: \"List sources\"
    args: \"ls src > out/list.txt\"
  \"app\":
    tool: shell
    inputs: [\"out/lib.o\", \"out/list.txt\"]
    outputs: [\"out/app\"]
    args: \"cat out/lib.o out/list.txt > out/app\"
  \"<app>\":
    tool: phony
    inputs: [\"out/app\"]
    outputs: [\"<app>\"]
";

// How an input is read, in a few words, with the patterns.
fn form_said(alloc: Global, input: &Input) -> Result<Vec<u8>, Fail> {
    match &input.form {
        InputForm::File => joined(alloc, &[b"file ", input.node.text().as_bytes()]),
        InputForm::Virtual => joined(alloc, &[b"virtual ", input.node.text().as_bytes()]),
        InputForm::Tree(patterns) => patterned(alloc, b"tree ", input, patterns),
        InputForm::Structure(patterns) => patterned(alloc, b"structure ", input, patterns),
    }
}

// The same of a directory, with its patterns after it.
fn patterned(
    alloc: Global,
    kind: &[u8],
    input: &Input,
    patterns: &List<Bytes>,
) -> Result<Vec<u8>, Fail> {
    let mut out = joined(alloc, &[kind, input.node.text().as_bytes()])?;
    for pattern in patterns.as_slice() {
        out.extend_from_slice(b" ")?;
        out.extend_from_slice(pattern.as_slice())?;
    }
    Ok(out)
}

// How these inputs are read, one after the other.
fn inputs_said(alloc: Global, inputs: &List<Input>) -> Result<Vec<u8>, Fail> {
    let mut out = Vec::new(alloc);
    for input in inputs.as_slice() {
        let said = form_said(alloc, input)?;
        out.extend_from_slice(said.as_slice())?;
        out.extend_from_slice(b"; ")?;
    }
    Ok(out)
}

// What is asked of a manifest, in a few words.
fn asked(alloc: Global, manifest: &Manifest, question: &str) -> Result<Vec<u8>, Fail> {
    match question {
        "main" | "other" | "none" => match manifest.target(question) {
            Some(target) => inputs_said(alloc, &target.nodes),
            None => joined(alloc, &[b"none"]),
        },
        "default" => match manifest.default_target() {
            Some(target) => joined(alloc, &[target.name.text().as_bytes()]),
            None => joined(alloc, &[b"none"]),
        },
        _ => match manifest.command_named(question) {
            Some(place) => command_said(alloc, manifest, place),
            None => joined(alloc, &[b"none"]),
        },
    }
}

// The inputs and must-follow nodes of the command at this place.
fn command_said(alloc: Global, manifest: &Manifest, place: usize) -> Result<Vec<u8>, Fail> {
    match manifest.command(place) {
        Some(command) => {
            let inputs = inputs_said(alloc, &command.inputs)?;
            let follow = inputs_said(alloc, &command.follow)?;
            joined(alloc, &[inputs.as_slice(), b"| ", follow.as_slice()])
        }
        None => joined(alloc, &[b"none"]),
    }
}

// What is asked of the manifest of this text.
fn asked_of(alloc: Global, text: &str, question: &str) -> Result<Vec<u8>, Fail> {
    match load(alloc, text.as_bytes()) {
        Ok(manifest) => asked(alloc, &manifest, question),
        Err(error) => said(alloc, &error),
    }
}

#[test]
fn nodes_are_what_the_sections_say(rt: HostRuntime) -> Result<(), Fail> {
    for (question, expected) in [
        ("main", "virtual <app>; "),
        ("other", "tree src; structure src *.tmp ?; virtual lone; "),
        ("none", "none"),
        ("default", "main"),
        ("lib", "file src/lib.txt; | "),
        (
            "list",
            "structure src *.tmp ?; | virtual lone; virtual app.x; ",
        ),
        ("<app>", "file out/lib.o; | "),
        ("app", "none"),
    ] {
        let found = asked_of(rt.alloc(), WHOLE, question)?;
        assert_eq!(rt; found.as_slice(), expected.as_bytes());
    }
    Ok(())
}

#[test]
fn the_manifest_of_an_application_loads(rt: HostRuntime) -> Result<(), Fail> {
    for (question, expected) in [
        ("main", "virtual <app>; "),
        ("default", "main"),
        ("lib", "file src/lib.txt; | "),
        ("list", "structure src *.tmp; | "),
        ("app", "file out/lib.o; file out/list.txt; | "),
        ("<app>", "file out/app; | "),
    ] {
        let found = asked_of(rt.alloc(), APPLICATION, question)?;
        assert_eq!(rt; found.as_slice(), expected.as_bytes());
    }
    Ok(())
}

// Flags of a command, each by a letter where it is set.
fn flags_said(command: &Command) -> [u8; 3] {
    [
        if command.allow_missing { b'm' } else { b'-' },
        if command.always { b'a' } else { b'-' },
        if command.inherit_env { b'i' } else { b'-' },
    ]
}

// A text that may be absent.
fn text_or<'a>(text: &'a Option<Bytes>, absent: &'a [u8]) -> &'a [u8] {
    match text {
        Some(text) => text.as_slice(),
        None => absent,
    }
}

// The program in a few words.
fn args_said(alloc: Global, args: &Args) -> Result<Vec<u8>, Fail> {
    match args {
        Args::Absent => joined(alloc, &[b"absent"]),
        Args::Words(words) => Ok(format!(in alloc; "words {}", words.len() as u64)?.into_bytes()),
        Args::Line(line) => joined(alloc, &[b"line ", line.as_slice()]),
    }
}

// The rest of a command in a few words.
fn own_said(alloc: Global, command: &Command) -> Result<Vec<u8>, Fail> {
    let args = args_said(alloc, &command.args)?;
    let counts = format!(in alloc;
        " {} {} {} {} {}",
        command.outputs.len() as u64,
        command.env.len() as u64,
        command.deps.len() as u64,
        command.expected.len() as u64,
        command.roots.len() as u64
    )?;
    let (description, signature) = (
        text_or(&command.description, b"-"),
        text_or(&command.signature, b"-"),
    );
    let flags = flags_said(command);
    joined(
        alloc,
        &[
            args.as_slice(),
            counts.as_bytes(),
            b" ",
            &flags,
            b" ",
            description,
            b" ",
            signature,
            b" ",
            command.contents.as_slice(),
        ],
    )
}

// The rest of the command at this place of the whole manifest.
fn own_of_whole(alloc: Global, place: usize) -> Result<Vec<u8>, Fail> {
    match load(alloc, WHOLE.as_bytes()) {
        Ok(manifest) => match manifest.command(place) {
            Some(command) => own_said(alloc, command),
            None => joined(alloc, &[b"none"]),
        },
        Err(error) => said(alloc, &error),
    }
}

#[test]
fn commands_have_what_their_attributes_say(rt: HostRuntime) -> Result<(), Fail> {
    for (place, expected) in [
        (0, "words 3 1 0 0 0 0 --i Compile lib - "),
        (1, "line ls src > out/list.txt 1 1 1 0 0 -a- - s "),
        (2, "absent 2 0 0 0 0 m-i - - "),
        (3, "absent 1 0 0 0 0 --i - - to"),
        (4, "absent 0 0 0 2 1 --i - - "),
        (5, "none"),
    ] {
        let found = own_of_whole(rt.alloc(), place)?;
        assert_eq!(rt; found.as_slice(), expected.as_bytes());
    }
    Ok(())
}

// The places of the maker of a path, of the owner of a dependency file, and how many commands there are.
fn places_of_whole(
    alloc: Global,
    path: &str,
) -> Result<(Option<usize>, Option<usize>, usize), Fail> {
    let path = PathName::read(alloc, path)?;
    let copy = PathName::read(alloc, path.text())?;
    match load(alloc, WHOLE.as_bytes()) {
        Ok(manifest) => Ok((
            manifest.maker(&NodeName::Path(copy)),
            manifest.deps_owner(&path),
            manifest.commands(),
        )),
        Err(_) => Ok((None, None, 0)),
    }
}

#[test]
fn makers_and_owners_are_found(rt: HostRuntime) -> Result<(), Fail> {
    for (path, maker, owner) in [
        ("out/lib.o", Some(0), None),
        ("out/./list.txt", Some(1), None),
        ("list.d", None, Some(1)),
        ("l", Some(3), None),
        ("src/lib.txt", None, None),
    ] {
        let found = places_of_whole(rt.alloc(), path)?;
        assert_eq!(rt; found.0, maker);
        assert_eq!(rt; found.1, owner);
        assert_eq!(rt; found.2, 5);
    }
    Ok(())
}
