//! From tree to text.
ghost use Rattle.std.specs.Prelude.{◌≡◌, ◌+◌, ◌*◌, ◌<◌, ◌≤◌, ◌++◌, Ok, OnOk, OnErr, length, map, replicate};
ghost use Rattle.yaml_profile.specs.Print as spec;
ghost use Rattle.yaml_profile.specs.Read.{yaml_of};
ghost use Rattle.yaml_profile.specs.Tree.{IsTree};

use crate::yaml::{Pair, Yaml};
use file_info::list::{Bytes, List};
use file_info::memory::NoMemory;
use std::alloc::{AllocError, Global};
use std::mem;

/// How many levels of collections are written.
const DEPTH_MAX: usize = 64;

fn digit_char(digit: u8) -> u8
    requires { digit < 16 }
    ensures { result ≡ spec.digit_char digit }
{
    if digit < 10 {
        b'0' + digit
    } else {
        b'W' + digit
    }
}

fn push_escaped(out: &mut Vec<u8>, byte: u8) -> Result<(), AllocError>
    ensures { OnOk result (out.new.items ≡ out.old.items ++ spec.escaped byte) }
{
    if byte == b'\\' || byte == b'"' {
        out.extend_from_slice(&[b'\\', byte])
    } else if byte == b'\n' {
        out.extend_from_slice(b"\\n")
    } else if byte == b'\t' {
        out.extend_from_slice(b"\\t")
    } else if byte < 32 || byte == 127 {
        out.extend_from_slice(&[b'\\', b'x', digit_char(byte / 16), digit_char(byte % 16)])
    } else {
        out.push(byte)?;
        Ok(())
    }
}

#[tactic(auto, unfolding(crate::specs::Print::all_escaped))]
fn push_quoted(out: &mut Vec<u8>, text: &[u8]) -> Result<(), AllocError>
    ensures { OnOk result (out.new.items ≡ out.old.items ++ spec.quoted text.now) }
{
    out.push(b'"')?;
    for byte in text {
        push_escaped(out, *byte)?;
    }
    out.push(b'"')?;
    Ok(())
}

// The tree on one line, to so many levels of collections.
#[cycle(flow)]
#[tactic(auto, unfolding(crate::specs::Print::flow_text))]
fn push_flow(out: &mut Vec<u8>, depth: usize, tree: &Yaml) -> Result<(), AllocError>
    ensures { OnOk result (out.new.items ≡ out.old.items ++ spec.flow_text depth tree.now) }
{
    match tree {
        Yaml::Scalar(text) => push_quoted(out, text.as_slice()),
        Yaml::Seq(_) if depth == 0 => out.extend_from_slice(b"[]"),
        Yaml::Map(_) if depth == 0 => out.extend_from_slice(b"{}"),
        Yaml::Seq(items) => {
            out.push(b'[')?;
            push_items(out, depth - 1, items.as_slice())?;
            out.push(b']')?;
            Ok(())
        }
        Yaml::Map(pairs) => {
            out.push(b'{')?;
            push_pairs(out, depth - 1, pairs.as_slice())?;
            out.push(b'}')?;
            Ok(())
        }
    }
}

// The items with `, ` between them.
#[cycle(flow)]
#[tactic(auto, unfolding(crate::specs::Print::with_commas))]
fn push_items(out: &mut Vec<u8>, depth: usize, items: &[Yaml]) -> Result<(), AllocError>
    ensures { OnOk result
        (out.new.items ≡ out.old.items ++ spec.with_commas (map (spec.flow_text depth) items.now)) }
{
    let mut rest = items;
    'turns: while let [item, tail @ ..] = rest {
        push_flow(out, depth, item)?;
        if !tail.is_empty() {
            out.extend_from_slice(b", ")?;
        }
        rest = tail;
    }
    Ok(())
}

// The pairs with `, ` between them.
#[cycle(flow)]
#[tactic(auto, unfolding(crate::specs::Print::with_commas))]
fn push_pairs(out: &mut Vec<u8>, depth: usize, pairs: &[Pair]) -> Result<(), AllocError>
    ensures { OnOk result
        (out.new.items ≡ out.old.items ++ spec.with_commas (map (spec.pair_text (spec.flow_text depth)) pairs.now)) }
{
    let mut rest = pairs;
    'turns: while let [pair, tail @ ..] = rest {
        push_quoted(out, pair.name.as_slice())?;
        out.extend_from_slice(b": ")?;
        push_flow(out, depth, &pair.value)?;
        if !tail.is_empty() {
            out.extend_from_slice(b", ")?;
        }
        rest = tail;
    }
    Ok(())
}

fn push_spaces(out: &mut Vec<u8>, count: usize) -> Result<(), AllocError>
    ensures { OnOk result (out.new.items ≡ out.old.items ++ replicate count 32) }
{
    for _ in 0..count {
        out.push(b' ')?;
    }
    Ok(())
}

// The pair after so many spaces, and so many levels of collections in it.
#[cycle(lines)]
fn push_entry(out: &mut Vec<u8>, depth: usize, spaces: usize, pair: &Pair) -> Result<(), AllocError>
    requires { spaces + 2 * depth ≤ 126 }
    ensures { OnOk result
        (out.new.items ≡ out.old.items ++ spec.entry_text (spec.flow_text depth) (spec.map_lines depth (spaces + 2)) spaces pair.now) }
{
    push_spaces(out, spaces)?;
    push_quoted(out, pair.name.as_slice())?;
    out.push(b':')?;
    match &pair.value {
        Yaml::Map(pairs) if !pairs.is_empty() => {
            out.push(b'\n')?;
            push_lines(out, depth, spaces + 2, pairs.as_slice())
        }
        value => {
            out.push(b' ')?;
            push_flow(out, depth, value)?;
            out.push(b'\n')?;
            Ok(())
        }
    }
}

// The pairs after so many spaces, to so many levels of collections.
#[cycle(lines)]
#[tactic(auto, unfolding(crate::specs::Print::map_lines))]
fn push_lines(
    out: &mut Vec<u8>,
    depth: usize,
    spaces: usize,
    pairs: &[Pair],
) -> Result<(), AllocError>
    requires { spaces + 2 * depth ≤ 128 }
    ensures { OnOk result (out.new.items ≡ out.old.items ++ spec.map_lines depth spaces pairs.now) }
{
    if depth == 0 {
        return Ok(());
    }
    for pair in pairs {
        push_entry(out, depth - 1, spaces, pair)?;
    }
    Ok(())
}

#[tactic(auto, unfolding(crate::specs::Print::spelling))]
fn push_spelling(out: &mut Vec<u8>, tree: &Yaml) -> Result<(), AllocError>
    ensures { OnOk result (out.new.items ≡ out.old.items ++ spec.spelling tree.now) }
{
    match tree {
        Yaml::Map(pairs) if !pairs.is_empty() => push_lines(out, DEPTH_MAX, 0, pairs.as_slice()),
        _ => {
            push_flow(out, DEPTH_MAX, tree)?;
            out.push(b'\n')?;
            Ok(())
        }
    }
}

/// Appends the canonical spelling of a tree. Scalars and names stand in double quotes, where `\` and `"` have a `\` before
/// them, LF is `\n`, a tab is `\t`, and any other byte below 0x20, and 0x7F, is `\x` with two hexadecimal digits. A sequence
/// and all in it, and an empty mapping, stand on one line. Any other mapping has one pair a line, two spaces further right
/// than the mapping round it. A collection in 64 others, which no tree of `read` has, is written with nothing in it.
/// Without memory `out` is as before.
pub fn print(alloc: Global, tree: &Yaml, out: &mut Bytes) -> Result<(), NoMemory>
    ensures ok { OnOk result (out.new ≡ out.old ++ spec.spelling tree.now) }
    ensures err { OnErr result (out.new ≡ out.old) }
{
    let mut text = Vec::new(alloc);
    push_spelling(&mut text, tree)?;
    let mut all = mem::replace(out, List::new(alloc)).into_vec();
    let added = all.extend_from_slice(&text);
    *out = List::from_vec(all);
    added?;
    Ok(())
}

/// The law that what is printed is read back: the spelling of a tree gives the same tree, if the tree is as `read` ensures of
/// each of its own, and the spelling is no longer than a text may be.
pub fn printed_trees_are_read()
    ensures { (tree : Yaml) → IsTree 64 tree → length (spec.spelling tree) ≤ 67108864 → yaml_of (spec.spelling tree) ≡ Ok tree }
{}

/// No two such trees have the same spelling.
pub fn spellings_differ()
    ensures { (tree other : Yaml) → IsTree 64 tree → IsTree 64 other → length (spec.spelling tree) ≤ 67108864
        → spec.spelling tree ≡ spec.spelling other → tree ≡ other }
{}

#[cfg(test)]
mod tests {
    use super::*;
    use crate::error::YamlError;
    use crate::reader::read;
    use std::process::Abort;
    use std::test::Fail;

    /// Texts, and what their trees print as.
    static SPELLINGS: &[(&str, &str)] = &[
        (
            "client: {name: basic}\ntargets: {all: [a, 'b c']}\n",
            "\"client\":\n  \"name\": \"basic\"\n\"targets\":\n  \"all\": [\"a\", \"b c\"]\n",
        ),
        ("", "\"\"\n"),
        ("a # c", "\"a\"\n"),
        ("[]", "[]\n"),
        ("{}", "{}\n"),
        ("- a\n-\n  - b\n  - {}\n", "[\"a\", [\"b\", {}]]\n"),
        (
            "-\n  k: v\n  l: {m: n}\n",
            "[{\"k\": \"v\", \"l\": {\"m\": \"n\"}}]\n",
        ),
        ("k: {}\nl: {m: {}}\n", "\"k\": {}\n\"l\":\n  \"m\": {}\n"),
        (
            "a: {b: {c: {d: 1}, e: 2}, f: 3}\ng:\n",
            "\"a\":\n  \"b\":\n    \"c\":\n      \"d\": \"1\"\n    \"e\": \"2\"\n  \"f\": \"3\"\n\"g\": \"\"\n",
        ),
        ("k: [{l: {m: n}}]", "\"k\": [{\"l\": {\"m\": \"n\"}}]\n"),
        // Escapes
        ("'\\ \"'", "\"\\\\ \\\"\"\n"),
        ("\"\\n\\t\\r\\0\"", "\"\\n\\t\\x0d\\x00\"\n"),
        ("\"\\x0B\\x1F\\x7F\"", "\"\\x0b\\x1f\\x7f\"\n"),
        ("\"\\x20~\\x80\\u00e9\"", "\" ~\u{80}\u{e9}\"\n"),
        ("\"k\\n\": v", "\"k\\n\": \"v\"\n"),
    ];

    fn printed(alloc: Global, text: &[u8]) -> Result<Bytes, YamlError> {
        let tree = read(alloc, text)?;
        let mut out = List::new(alloc);
        match print(alloc, &tree, &mut out) {
            Ok(()) => Ok(out),
            Err(NoMemory) => Err(YamlError::NoMemory),
        }
    }

    fn expect_print(
        rt: &impl Abort,
        alloc: Global,
        text: &[u8],
        wanted: &[u8],
    ) -> Result<(), Fail> {
        match printed(alloc, text) {
            Ok(out) => assert_eq!(rt; out.as_slice(), wanted, "{text:?}"),
            Err(error) => assert!(rt; false, "{text:?} is refused: {error:?}"),
        }
        Ok(())
    }

    #[test]
    fn prints_the_canonical_spelling(rt: HostRuntime) -> Result<(), Fail> {
        for (text, wanted) in SPELLINGS {
            for text in [text, wanted] {
                expect_print(&rt, rt.alloc(), text.as_bytes(), wanted.as_bytes())?;
            }
        }
        Ok(())
    }

    // The text between so many of both marks.
    fn wrapped(
        alloc: Global,
        open: &[u8],
        text: &[u8],
        close: &[u8],
    ) -> Result<Vec<u8>, AllocError> {
        let mut all = Vec::new(alloc);
        for _ in 0..DEPTH_MAX {
            all.extend_from_slice(open)?;
        }
        all.extend_from_slice(text)?;
        for _ in 0..DEPTH_MAX {
            all.extend_from_slice(close)?;
        }
        Ok(all)
    }

    // The spelling of as many mappings in one another as there may be.
    fn deepest_lines(alloc: Global) -> Result<Vec<u8>, AllocError> {
        let mut all = Vec::new(alloc);
        for level in 0..DEPTH_MAX {
            if level > 0 {
                all.push(b'\n')?;
            }
            for _ in 0..level {
                all.extend_from_slice(b"  ")?;
            }
            all.extend_from_slice(b"\"k\":")?;
        }
        all.extend_from_slice(b" \"v\"\n")?;
        Ok(all)
    }

    #[test]
    fn prints_the_deepest_trees(rt: HostRuntime) -> Result<(), Fail> {
        let alloc = rt.alloc();
        let lines = deepest_lines(alloc)?;
        expect_print(&rt, alloc, &wrapped(alloc, b"{k: ", b"v", b"}")?, &lines)?;
        expect_print(&rt, alloc, &lines, &lines)?;
        let brackets = wrapped(alloc, b"[", b"", b"]")?;
        let mut line = wrapped(alloc, b"[", b"", b"]")?;
        line.push(b'\n')?;
        expect_print(&rt, alloc, &brackets, &line)?;
        expect_print(&rt, alloc, &line, &line)
    }

    #[test]
    fn keeps_what_stands_before(rt: HostRuntime) -> Result<(), Fail> {
        let mut out = List::from_vec(b"k: ".as_slice().to_vec(rt.alloc())?);
        print(rt.alloc(), &Yaml::Scalar(List::new(rt.alloc())), &mut out)?;
        assert_eq!(rt; out.as_slice(), b"k: \"\"\n".as_slice());
        Ok(())
    }
}
