//! Each attribute of each tool: accepted where the tool has it, and unknown where it lacks it.
use super::{answers, joined};
use std::alloc::Global;
use std::process::Abort;
use std::test::Fail;

// The tools, each with what it requires.
const TOOLS: [(&str, &str); 6] = [
    ("phony", ""),
    ("shell", "args: x"),
    ("mkdir", "outputs: o"),
    ("symlink", "outputs: o, contents: x"),
    ("archive", "outputs: o"),
    ("stale-file-removal", ""),
];

// The attributes, each with a value, with one of another shape, and with the tools that have it, in the order above.
const ATTRIBUTES: [(&str, &str, &str, [bool; 6]); 13] = [
    (
        "description",
        "text",
        "[]",
        [true, true, true, true, true, true],
    ),
    (
        "must-follow",
        "[a, b/]",
        "{}",
        [true, true, true, true, true, false],
    ),
    (
        "allow-missing-inputs",
        "true",
        "yes",
        [true, true, true, true, true, false],
    ),
    (
        "always-out-of-date",
        "false",
        "1",
        [true, true, true, true, true, false],
    ),
    (
        "env",
        "{A: b, C: \"\"}",
        "[A]",
        [false, true, false, false, false, false],
    ),
    (
        "deps",
        "[a.d, b.d]",
        "{}",
        [false, true, false, false, false, false],
    ),
    (
        "deps-style",
        "makefile",
        "dependency-info",
        [false, true, false, false, false, false],
    ),
    (
        "inherit-env",
        "false",
        "\"\"",
        [false, true, false, false, false, false],
    ),
    (
        "signature",
        "s",
        "[s]",
        [false, true, false, false, false, false],
    ),
    (
        "expectedOutputs",
        "[a, b]",
        "[[a]]",
        [false, false, false, false, false, true],
    ),
    (
        "roots",
        "a",
        "{}",
        [false, false, false, false, false, true],
    ),
    (
        "colour",
        "red",
        "red",
        [false, false, false, false, false, false],
    ),
    (
        "working-directory",
        "a",
        "a",
        [false, false, false, false, false, false],
    ),
];

// A manifest with one command of this tool and this attribute.
fn manifest(alloc: Global, tool: (&str, &str), name: &str, value: &str) -> Result<Vec<u8>, Fail> {
    let (tool, required) = tool;
    joined(
        alloc,
        &[
            b"client: {name: basic}\ncommands: {p: {tool: ".as_slice(),
            tool.as_bytes(),
            b", ",
            required.as_bytes(),
            if required.is_empty() { b"" } else { b", " },
            name.as_bytes(),
            b": ",
            value.as_bytes(),
            b"}}\n",
        ],
    )
}

// The attribute is accepted or unknown; with a value of another shape it is refused for that or unknown.
fn attribute(
    rt: &impl Abort,
    alloc: Global,
    place: usize,
    row: (&str, &str, &str, [bool; 6]),
) -> Result<(), Fail> {
    let (name, value, other, tools) = row;
    let has = tools[place % 6];
    let unknown = joined(alloc, &[b"unknown p ", name.as_bytes()])?;
    let bad = joined(alloc, &[b"bad p ", name.as_bytes()])?;
    let text = manifest(alloc, TOOLS[place % 6], name, value)?;
    let found = super::answer(alloc, text.as_slice())?;
    let expected = if has {
        b"ok".as_slice()
    } else {
        unknown.as_slice()
    };
    assert_eq!(rt; found.as_slice(), expected);
    let text = manifest(alloc, TOOLS[place % 6], name, other)?;
    let found = super::answer(alloc, text.as_slice())?;
    let expected = if has {
        bad.as_slice()
    } else {
        unknown.as_slice()
    };
    assert_eq!(rt; found.as_slice(), expected);
    Ok(())
}

#[test]
fn tools_have_their_attributes(rt: HostRuntime) -> Result<(), Fail> {
    for row in ATTRIBUTES {
        for place in 0..6 {
            attribute(&rt, rt.alloc(), place, row)?;
        }
    }
    Ok(())
}

#[test]
fn required_and_own_attributes(rt: HostRuntime) -> Result<(), Fail> {
    for (command, expected) in [
        ("tool: phony, inputs: [a], outputs: <o>", "ok"),
        ("tool: shell, args: x, inputs: [a], outputs: o", "ok"),
        ("tool: mkdir, inputs: [a], outputs: o", "ok"),
        ("tool: symlink, inputs: [a], outputs: o, contents: x", "ok"),
        ("tool: archive, inputs: [a], outputs: o", "ok"),
        ("tool: stale-file-removal, inputs: [], outputs: o", "ok"),
        ("tool: phony, args: x", "unknown p args"),
        ("tool: mkdir, args: x, outputs: o", "unknown p args"),
        (
            "tool: symlink, args: x, contents: y, outputs: o",
            "unknown p args",
        ),
        ("tool: archive, args: x, outputs: o", "unknown p args"),
        ("tool: stale-file-removal, args: x", "unknown p args"),
        ("tool: phony, contents: x", "unknown p contents"),
        ("tool: shell, args: x, contents: x", "unknown p contents"),
        ("tool: mkdir, contents: x, outputs: o", "unknown p contents"),
        (
            "tool: archive, contents: x, outputs: o",
            "unknown p contents",
        ),
        (
            "tool: stale-file-removal, contents: x",
            "unknown p contents",
        ),
        ("tool: phony, inputs: {}", "bad p inputs"),
        ("tool: phony, outputs: [[a]]", "bad p outputs"),
    ] {
        let parts = [
            b"client: {name: basic}\ncommands: {p: {".as_slice(),
            command.as_bytes(),
            b"}}\n",
        ];
        let text = joined(rt.alloc(), &parts)?;
        answers(&rt, rt.alloc(), text.as_slice(), expected)?;
    }
    Ok(())
}

#[test]
fn texts_without_a_byte_0(rt: HostRuntime) -> Result<(), Fail> {
    for (command, expected) in [
        ("tool: shell, args: \"\"", "ok"),
        ("tool: shell, args: []", "bad p args"),
        ("tool: shell, args: {}", "bad p args"),
        ("tool: shell, args: [[]]", "bad p args"),
        ("tool: shell, args: \"a\\0\"", "bad p args"),
        ("tool: shell, args: [a, \"\\0\"]", "bad p args"),
        ("tool: shell, args: x, env: {\"\": a}", "bad p env"),
        ("tool: shell, args: x, env: {A=: a}", "bad p env"),
        ("tool: shell, args: x, env: {\"A\\0\": a}", "bad p env"),
        ("tool: shell, args: x, env: {A: \"\\0\"}", "bad p env"),
        ("tool: shell, args: x, env: {A: [b]}", "bad p env"),
        (
            "tool: symlink, outputs: o, contents: \"\"",
            "bad p contents",
        ),
        (
            "tool: symlink, outputs: o, contents: \"a\\0\"",
            "bad p contents",
        ),
        ("tool: symlink, outputs: o, contents: [a]", "bad p contents"),
    ] {
        let parts = [
            b"client: {name: basic}\ncommands: {p: {".as_slice(),
            command.as_bytes(),
            b"}}\n",
        ];
        let text = joined(rt.alloc(), &parts)?;
        answers(&rt, rt.alloc(), text.as_slice(), expected)?;
    }
    Ok(())
}
