//! Each limit at the greatest number that is accepted, and at one more.
use super::{answers, joined};
use std::alloc::Global;
use std::process::Abort;
use std::test::Fail;

// A text with this piece so many times between its two ends, each with its number where it is numbered.
fn repeated(
    alloc: Global,
    before: &str,
    piece: &str,
    times: u32,
    after: &str,
) -> Result<Vec<u8>, Fail> {
    let mut text = joined(alloc, &[b"client: {name: basic}\n", before.as_bytes()])?;
    for _ in 0..times {
        text.extend_from_slice(piece.as_bytes())?;
    }
    text.extend_from_slice(after.as_bytes())?;
    Ok(text)
}

// The same with a number in front of each piece.
fn numbered(
    alloc: Global,
    before: &str,
    piece: &str,
    times: u32,
    after: &str,
) -> Result<Vec<u8>, Fail> {
    let mut text = joined(alloc, &[b"client: {name: basic}\n", before.as_bytes()])?;
    for number in 0..times {
        text.extend_from_slice(format!(in alloc; "n{number}")?.as_bytes())?;
        text.extend_from_slice(piece.as_bytes())?;
    }
    text.extend_from_slice(after.as_bytes())?;
    Ok(text)
}

// The greatest number is accepted, and one more is refused as the limit.
fn limited(rt: &impl Abort, alloc: Global, row: (&str, &str, u32, &str, &str)) -> Result<(), Fail> {
    let (before, piece, most, after, limit) = row;
    let text = repeated(alloc, before, piece, most, after)?;
    answers(rt, alloc, text.as_slice(), "ok")?;
    let text = repeated(alloc, before, piece, most.saturating_add(1), after)?;
    answers(rt, alloc, text.as_slice(), limit)
}

#[test]
fn lists_are_limited(rt: HostRuntime) -> Result<(), Fail> {
    for row in [
        ("targets: {all: [", "a,", 65_536, "]}\n", "inputs 65536"),
        (
            "commands: {p: {tool: phony, inputs: [",
            "a,",
            65_536,
            "]}}\n",
            "inputs 65536",
        ),
        (
            "commands: {p: {tool: phony, must-follow: [",
            "a,",
            65_536,
            "]}}\n",
            "inputs 65536",
        ),
        (
            "commands: {p: {tool: phony, inputs: [b], must-follow: [",
            "a,",
            65_535,
            "]}}\n",
            "inputs 65536",
        ),
        (
            "commands: {p: {tool: phony, must-follow: [b], inputs: [",
            "a,",
            65_535,
            "]}}\n",
            "inputs 65536",
        ),
        (
            "nodes: {a/: {content-exclusion-patterns: [",
            "b,",
            64,
            "]}}\n",
            "patterns 64",
        ),
    ] {
        limited(&rt, rt.alloc(), row)?;
    }
    Ok(())
}

// The same for pieces with a number.
fn numbers_limited(
    rt: &impl Abort,
    alloc: Global,
    row: (&str, &str, u32, &str, &str),
) -> Result<(), Fail> {
    let (before, piece, most, after, limit) = row;
    let text = numbered(alloc, before, piece, most, after)?;
    answers(rt, alloc, text.as_slice(), "ok")?;
    let text = numbered(alloc, before, piece, most.saturating_add(1), after)?;
    answers(rt, alloc, text.as_slice(), limit)
}

#[test]
fn mappings_are_limited(rt: HostRuntime) -> Result<(), Fail> {
    for row in [
        ("targets: {", ": [],", 65_536, "}\n", "targets 65536"),
        (
            "commands: {p: {tool: shell, args: x, outputs: [",
            ",",
            65_536,
            "]}}\n",
            "outputs 65536",
        ),
        (
            "commands: {p: {tool: shell, args: x, deps: [",
            ",",
            16,
            "]}}\n",
            "deps 16",
        ),
    ] {
        numbers_limited(&rt, rt.alloc(), row)?;
    }
    Ok(())
}

#[test]
fn commands_are_limited(rt: HostRuntime) -> Result<(), Fail> {
    let row = (
        "commands: {",
        ": {tool: phony},",
        262_144,
        "}\n",
        "commands 262144",
    );
    numbers_limited(&rt, rt.alloc(), row)
}

#[test]
fn patterns_are_short(rt: HostRuntime) -> Result<(), Fail> {
    let before = "nodes: {a/: {content-exclusion-patterns: \"";
    let row = (
        before,
        "b",
        255,
        "\"}}\n",
        "bad a/ content-exclusion-patterns",
    );
    limited(&rt, rt.alloc(), row)
}

#[test]
fn an_item_past_the_limit_is_not_looked_at(rt: HostRuntime) -> Result<(), Fail> {
    for (before, after, expected) in [
        (
            "nodes: {a/: {content-exclusion-patterns: [",
            "b]}}\n",
            "patterns 64",
        ),
        (
            "nodes: {a/: {content-exclusion-patterns: [",
            "[b]]}}\n",
            "bad a/ content-exclusion-patterns",
        ),
    ] {
        let text = repeated(rt.alloc(), before, "b,", 64, after)?;
        answers(&rt, rt.alloc(), text.as_slice(), expected)?;
    }
    for (after, expected) in [("/..]}}\n", "deps 16"), ("{}]}}\n", "bad p deps")] {
        let text = numbered(
            rt.alloc(),
            "commands: {p: {tool: shell, args: x, deps: [",
            ",",
            16,
            after,
        )?;
        answers(&rt, rt.alloc(), text.as_slice(), expected)?;
    }
    Ok(())
}
