//! Keys and signatures of commands with each tool.
use crate::key::key_of;
use crate::signature::{push_node_signature, push_target_signature, signature};
use build_keys::key::Key;
use build_manifest::command::{Args, Command, EnvPair, Input, InputForm, TargetEntry, Tool};
use file_info::list::{Bytes, List};
use file_info::name::Name;
use file_info::node::NodeName;
use file_info::path::PathName;
use std::alloc::Global;
use std::test::Fail;

fn bytes(alloc: Global, text: &str) -> Result<Bytes, Fail> {
    Ok(List::from_vec(Vec::from_slice(alloc, text.as_bytes())?))
}

fn texts(alloc: Global, text: &str) -> Result<List<Bytes>, Fail> {
    let mut texts = List::new(alloc);
    texts.push(bytes(alloc, text)?)?;
    Ok(texts)
}

fn paths(alloc: Global, text: &str) -> Result<List<PathName>, Fail> {
    let mut paths = List::new(alloc);
    paths.push(PathName::read(alloc, text)?)?;
    Ok(paths)
}

fn node(alloc: Global, text: &str) -> Result<NodeName, Fail> {
    if text.starts_with('<') {
        return Ok(NodeName::Virtual(Name::read(alloc, text)?));
    }
    Ok(NodeName::Path(PathName::read(alloc, text)?))
}

fn nodes(alloc: Global, texts: &[&str]) -> Result<List<NodeName>, Fail> {
    let mut nodes = List::new(alloc);
    for text in texts {
        nodes.push(node(alloc, *text)?)?;
    }
    Ok(nodes)
}

fn input(alloc: Global, written: &str, text: &str, form: InputForm) -> Result<Input, Fail> {
    Ok(Input {
        written: Name::read(alloc, written)?,
        node: node(alloc, text)?,
        form,
    })
}

fn inputs(alloc: Global, written: &str, text: &str, form: InputForm) -> Result<List<Input>, Fail> {
    let mut inputs = List::new(alloc);
    inputs.push(input(alloc, written, text, form)?)?;
    Ok(inputs)
}

fn env(alloc: Global, text: &str) -> Result<List<EnvPair>, Fail> {
    let mut env = List::new(alloc);
    env.push(EnvPair {
        name: bytes(alloc, "N")?,
        text: bytes(alloc, text)?,
    })?;
    Ok(env)
}

// A command with this tool, and something in each field.
fn command(alloc: Global, tool: Tool) -> Result<Command, Fail> {
    let mut command = Command::bare(alloc, Name::read(alloc, "p")?, tool);
    command.inputs = inputs(alloc, "s", "s", InputForm::File)?;
    command.follow = inputs(alloc, "f", "f", InputForm::File)?;
    command.outputs = nodes(alloc, &["t"])?;
    command.description = Some(bytes(alloc, "d")?);
    command.args = Args::Words(texts(alloc, "w")?);
    command.env = env(alloc, "v")?;
    command.deps = paths(alloc, "t.d")?;
    command.contents = bytes(alloc, "c")?;
    command.expected = paths(alloc, "e")?;
    command.roots = paths(alloc, "r")?;
    Ok(command)
}

const TOOLS: [Tool; 6] = [
    Tool::Phony,
    Tool::Shell,
    Tool::Mkdir,
    Tool::Symlink,
    Tool::Archive,
    Tool::StaleFileRemoval,
];

// Changes what every command has: its name, its description, how a node is written, and then what it means.
fn change_common(alloc: Global, command: &mut Command, field: usize) -> Result<(), Fail> {
    match field {
        0 => command.name = Name::read(alloc, "q")?,
        1 => command.description = None,
        2 => command.inputs = inputs(alloc, "./s", "s", InputForm::File)?,
        3 => command.inputs = inputs(alloc, "s", "s2", InputForm::File)?,
        4 => command.inputs = inputs(alloc, "s", "s", InputForm::Tree(texts(alloc, "*")?))?,
        5 => command.follow = List::new(alloc),
        6 => command.outputs = nodes(alloc, &["<t>"])?,
        7 => command.allow_missing = true,
        _ => command.always = true,
    }
    Ok(())
}

// Changes what a command hands its tool.
fn change_own(alloc: Global, command: &mut Command, field: usize) -> Result<(), Fail> {
    match field {
        9 => command.args = Args::Line(bytes(alloc, "w")?),
        10 => command.args = Args::Absent,
        11 => command.env = env(alloc, "w")?,
        12 => command.inherit_env = false,
        13 => command.deps = List::new(alloc),
        14 => command.signature = Some(bytes(alloc, "w")?),
        15 => command.contents = bytes(alloc, "w")?,
        16 => command.expected = List::new(alloc),
        _ => command.roots = List::new(alloc),
    }
    Ok(())
}

// Whether the signature of a command with this tool is another one where this field is changed.
fn differs(alloc: Global, tool: Tool, field: usize) -> Result<bool, Fail> {
    let was = command(alloc, tool)?;
    let mut now = command(alloc, tool)?;
    if field < 9 {
        change_common(alloc, &mut now, field)?;
    } else {
        change_own(alloc, &mut now, field)?;
    }
    let text = signature(alloc, &was)?;
    let other = signature(alloc, &now)?;
    Ok(text.as_slice() != other.as_slice())
}

// Whether the field is a part of what a command with this tool means.
fn is_meant(tool: Tool, field: usize) -> bool {
    match field {
        0..=2 => false,
        3..=8 => true,
        9..=14 => tool == Tool::Shell,
        15 => tool == Tool::Symlink,
        _ => tool == Tool::StaleFileRemoval,
    }
}

#[test]
fn signatures_tell_meanings_apart(rt: HostRuntime) -> Result<(), Fail> {
    for tool in TOOLS {
        for field in 0..18 {
            assert_eq!(rt;
                differs(rt.alloc(), tool, field)?,
                is_meant(tool, field),
                "at {tool:?} {field}"
            );
        }
    }
    Ok(())
}

#[test]
fn each_tool_begins_its_signatures(rt: HostRuntime) -> Result<(), Fail> {
    for (place, tool) in TOOLS.iter().enumerate() {
        let command = command(rt.alloc(), *tool)?;
        let text = signature(rt.alloc(), &command)?;
        assert!(rt; text.as_slice().starts_with(&[place as u8]));
    }
    Ok(())
}

// The phony command `<app>` asks for `out/app`.
#[test]
fn a_signature_has_its_parts_in_order(rt: HostRuntime) -> Result<(), Fail> {
    let alloc = rt.alloc();
    let mut app = command(alloc, Tool::Phony)?;
    app.inputs = inputs(alloc, "out/app", "out/app", InputForm::File)?;
    app.follow = List::new(alloc);
    app.outputs = nodes(alloc, &["<app>"])?;
    let text = signature(alloc, &app)?;
    let expected = b"\0\0\0\0\x01\x03\0\0\0\0\x07out/app\0\0\0\0\0\0\0\x01\x01\0\0\0\x05<app>\0\0";
    assert_eq!(rt; text.as_slice(), expected.as_slice());
    Ok(())
}

// The key that an input asks for.
fn key_for(alloc: Global, text: &str, path: &str, form: InputForm) -> Result<Key, Fail> {
    Ok(key_of(alloc, &input(alloc, text, path, form)?)?)
}

#[test]
fn inputs_ask_for_nodes(rt: HostRuntime) -> Result<(), Fail> {
    let file = key_for(rt.alloc(), "s", "s", InputForm::File)?;
    assert!(rt; matches!(file, Key::Node(NodeName::Path(_))));
    let all = key_for(rt.alloc(), "<all>", "<all>", InputForm::Virtual)?;
    assert!(rt; matches!(all, Key::Node(NodeName::Virtual(_))));
    Ok(())
}

#[test]
fn inputs_ask_for_what_stands_below_a_directory(rt: HostRuntime) -> Result<(), Fail> {
    let form = InputForm::Structure(texts(rt.alloc(), "*.tmp")?);
    let structure = key_for(rt.alloc(), "src/", "src", form)?;
    assert!(rt;
        matches!(&structure, Key::Structure(path, patterns) if path.text() == "src" && patterns.len() == 1)
    );
    let form = InputForm::Tree(texts(rt.alloc(), "*.tmp")?);
    let tree = key_for(rt.alloc(), "src/", "src", form)?;
    assert!(rt; matches!(tree, Key::Tree(_, _)));
    Ok(())
}

#[test]
fn targets_and_nodes_have_signatures(rt: HostRuntime) -> Result<(), Fail> {
    let alloc = rt.alloc();
    let target = TargetEntry {
        name: Name::read(alloc, "all")?,
        nodes: inputs(alloc, "s", "s", InputForm::File)?,
    };
    let mut text = Vec::new(alloc);
    push_target_signature(&mut text, &target)?;
    assert_eq!(rt; text.as_slice(), b"\0\0\0\x01\x03\0\0\0\0\x01s".as_slice());
    let mut maker = command(alloc, Tool::Shell)?;
    maker.outputs = nodes(alloc, &["a", "<b>", "c"])?;
    for (name, place) in [("a", 0), ("<b>", 0), ("c", 1)] {
        let mut text = Vec::new(alloc);
        push_node_signature(&mut text, Some(&maker), &node(alloc, name)?)?;
        assert_eq!(rt;
            text.as_slice(),
            [1, 0, 0, 0, 1, b'p', 0, 0, 0, place].as_slice(),
            "at {name}"
        );
    }
    let mut text = Vec::new(alloc);
    push_node_signature(&mut text, None, &node(alloc, "a")?)?;
    assert_eq!(rt; text.as_slice(), [0].as_slice());
    Ok(())
}
