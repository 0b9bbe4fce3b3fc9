//! Texts with the tree or the refusal that the profile's rules give them.
use super::*;
use crate::yaml::Pair;
use std::alloc::AllocError;
use std::process::Abort;
use std::test::Fail;

/// Texts and their trees. A text stands in `<` and `>`, the items of a sequence in `[` and `]`, the pairs of a mapping in
/// `{` and `}`, and a `,` stands after each item and each pair.
static TREES: &[(&str, &str)] = &[
    // Documents
    ("", "<>"),
    ("\n  \n# c\n", "<>"),
    ("---", "<>"),
    ("---\n", "<>"),
    ("--- # c\na\n", "<a>"),
    ("# c\n---\t\n\n# c\nk: v\n", "{<k>:<v>,}"),
    ("---\n---x", "<---x>"),
    ("---#", "<---#>"),
    ("...x", "<...x>"),
    ("\u{feff}a", "<\u{feff}a>"),
    // Plain scalars
    ("a", "<a>"),
    ("a # c\n", "<a>"),
    ("a\t# c\n", "<a>"),
    ("a#b\n", "<a#b>"),
    ("a b \t \n", "<a b>"),
    ("a\tb", "<a\tb>"),
    ("-a", "<-a>"),
    ("?x", "<?x>"),
    (":x", "<:x>"),
    ("http://x:80", "<http://x:80>"),
    ("k:v", "<k:v>"),
    // Quoted scalars
    ("'it''s'", "<it's>"),
    ("''", "<>"),
    ("''''", "<'>"),
    ("'a: b # c' # d", "<a: b # c>"),
    ("'a\rb'", "<a\rb>"),
    ("\"a\\\\b\\\"c\\/d\\ e\"", "<a\\b\"c/d e>"),
    (
        "\"\\0\\a\\b\\t\\n\\v\\f\\r\\e\"",
        "<\0\x07\x08\t\n\x0b\x0c\r\x1b>",
    ),
    (
        "\"\\x41\\xe9\\u00E9\\U0001F600\\x7f\"",
        "<A\u{e9}\u{e9}\u{1f600}\x7f>",
    ),
    (
        "\"\\uD7FF\\uE000\\U0010FFFF\"",
        "<\u{d7ff}\u{e000}\u{10ffff}>",
    ),
    // Block mappings
    ("k: v", "{<k>:<v>,}"),
    ("k: v\r\nl: w\r\n", "{<k>:<v>,<l>:<w>,}"),
    ("k :\tv\n", "{<k>:<v>,}"),
    ("a b: c\n", "{<a b>:<c>,}"),
    ("'k' : v\n\"l\": w", "{<k>:<v>,<l>:<w>,}"),
    ("?x: y", "{<?x>:<y>,}"),
    ("k:\n", "{<k>:<>,}"),
    ("k: # c\n", "{<k>:<>,}"),
    ("k: a#b", "{<k>:<a#b>,}"),
    ("  k: v\n  l: w\n", "{<k>:<v>,<l>:<w>,}"),
    ("k:\n  l: w\n", "{<k>:{<l>:<w>,},}"),
    ("k:\n    deep\n", "{<k>:<deep>,}"),
    ("k:\nl: w\n", "{<k>:<>,<l>:<w>,}"),
    ("k: v\n \t \n\t# c\nl: w\n", "{<k>:<v>,<l>:<w>,}"),
    (
        "k:\n  l:\n    m: n\n  o: p\nq: r\n",
        "{<k>:{<l>:{<m>:<n>,},<o>:<p>,},<q>:<r>,}",
    ),
    (
        "a:\n  k: 1\nb:\n  k: 2\n",
        "{<a>:{<k>:<1>,},<b>:{<k>:<2>,},}",
    ),
    // Block sequences
    ("- a\n- b\n", "[<a>,<b>,]"),
    ("-\n- b\n-", "[<>,<b>,<>,]"),
    ("- # c\n  a\n-\t'b'", "[<a>,<b>,]"),
    ("-\n  k: v\n  l: w\n- b\n", "[{<k>:<v>,<l>:<w>,},<b>,]"),
    ("-\n  - a\n-\n  - b\n", "[[<a>,],[<b>,],]"),
    ("- [a]\n- {k: v}\n", "[[<a>,],{<k>:<v>,},]"),
    ("k:\n- a\n- b\nl: w\n", "{<k>:[<a>,<b>,],<l>:<w>,}"),
    ("k:\n  - a\nl:\n", "{<k>:[<a>,],<l>:<>,}"),
    ("k:\n-\n  a\nl: w", "{<k>:[<a>,],<l>:<w>,}"),
    // Flow sequences
    ("[]", "[]"),
    ("[ ]", "[]"),
    ("[a,]", "[<a>,]"),
    ("[ a b , c ]", "[<a b>,<c>,]"),
    ("[a\n,\n# c\nb # d\n]\n", "[<a>,<b>,]"),
    ("[a\r\n,\r\n\tb]", "[<a>,<b>,]"),
    ("[a#c]", "[<a#c>,]"),
    ("[\n---\n]", "[<--->,]"),
    ("[-x, ?y, :z]", "[<-x>,<?y>,<:z>,]"),
    ("[[], [a], {}]", "[[],[<a>,],{},]"),
    // Flow mappings
    ("{}", "{}"),
    ("{k: v,}", "{<k>:<v>,}"),
    ("{k: , l: }", "{<k>:<>,<l>:<>,}"),
    ("{k:, l:}", "{<k>:<>,<l>:<>,}"),
    ("{\"k\":v, 'l':[a]}", "{<k>:<v>,<l>:[<a>,],}"),
    ("{k:[a],l:{m: n}}", "{<k>:[<a>,],<l>:{<m>:<n>,},}"),
    ("{a:b: c}", "{<a:b>:<c>,}"),
    ("{k :\n  v}", "{<k>:<v>,}"),
    ("{k: # c\n v}", "{<k>:<v>,}"),
    ("{a: {k: 1}, b: {k: 2}}", "{<a>:{<k>:<1>,},<b>:{<k>:<2>,},}"),
    (
        "client: {name: basic}\ntargets: {all: [a, 'b c']}\n",
        "{<client>:{<name>:<basic>,},<targets>:{<all>:[<a>,<b c>,],},}",
    ),
];

fn left_out(feature: Feature, at: u64) -> YamlError {
    YamlError::LeftOut { feature, at }
}

/// Texts with what the profile leaves out, and its place.
static LEFT_OUT: &[(&str, Feature, u64)] = &[
    ("client: &a {name: basic}\n", Feature::Anchor, 8),
    ("&a k: v", Feature::Anchor, 0),
    ("*a: b", Feature::Alias, 0),
    ("k: v\n*a : b", Feature::Alias, 5),
    ("[a, *b]", Feature::Alias, 4),
    ("!t a", Feature::Tag, 0),
    ("{!t a: b}", Feature::Tag, 1),
    ("| \n", Feature::BlockScalar, 0),
    ("k: >\n  a\n", Feature::BlockScalar, 3),
    ("- >-\n", Feature::BlockScalar, 2),
    ("%YAML 1.2\n---\n", Feature::Directive, 0),
    ("---\n%x", Feature::Directive, 4),
    ("---\n---\n", Feature::Documents, 4),
    ("a\n---\n", Feature::Documents, 2),
    ("k:\n--- v", Feature::Documents, 3),
    ("...\n", Feature::Documents, 0),
    ("k: v\n... # c\n", Feature::Documents, 5),
    ("'a\nb'", Feature::ManyLines, 2),
    ("\"a\r\nb\"", Feature::ManyLines, 2),
    ("client: \"x\n", Feature::ManyLines, 10),
    ("k: v\n'x\n", Feature::ManyLines, 7),
    ("? a\n", Feature::ExplicitKey, 0),
    ("k: ? a", Feature::ExplicitKey, 3),
    ("{? a: b}", Feature::ExplicitKey, 1),
    ("[?", Feature::ExplicitKey, 1),
    ("- - a\n", Feature::Compact, 2),
    ("-  -", Feature::Compact, 3),
    ("- k: v\n", Feature::Compact, 2),
    ("- 'k' :\n", Feature::Compact, 2),
];

/// Texts that are refused at a place.
static REFUSALS: &[(&str, YamlError)] = &[
    // Columns
    ("\ta: b", YamlError::Indent { at: 0 }),
    ("k:\n\tv", YamlError::Indent { at: 3 }),
    ("  \tk: v", YamlError::Indent { at: 2 }),
    ("k: v\n  l: w\n", YamlError::Indent { at: 7 }),
    ("  k: v\nl: w\n", YamlError::Indent { at: 7 }),
    ("k:\n    l: v\n  m: w\n", YamlError::Indent { at: 14 }),
    ("- a\n b", YamlError::Indent { at: 5 }),
    ("a\nb\n", YamlError::Indent { at: 2 }),
    ("[a]\n\n'b'", YamlError::Indent { at: 5 }),
    // Keys
    ("k: 1\nl: 2\nk: 3\n", YamlError::RepeatedKey { at: 10 }),
    ("\"k\": 1\nk: 2", YamlError::RepeatedKey { at: 7 }),
    ("{k: 1, k: 2}", YamlError::RepeatedKey { at: 7 }),
    ("{k: 1, 'k'", YamlError::RepeatedKey { at: 7 }),
    // Lines of no entry
    ("k: v\nk x\n", YamlError::Syntax { at: 5 }),
    ("k: v\n- a\n", YamlError::Syntax { at: 5 }),
    ("- a\nb: c\n", YamlError::Syntax { at: 4 }),
    ("client: {name: basic}\n\0", YamlError::Syntax { at: 22 }),
    ("k: v\n\"\\q\": w", YamlError::Syntax { at: 6 }),
    ("k: v\n%x", YamlError::Syntax { at: 5 }),
    (" %x", YamlError::Syntax { at: 1 }),
    // Lines with more on them
    ("--- a", YamlError::Syntax { at: 4 }),
    ("a: b: c", YamlError::Syntax { at: 4 }),
    ("k: - a", YamlError::Syntax { at: 3 }),
    ("\"a\" b", YamlError::Syntax { at: 4 }),
    ("\"k\":v", YamlError::Syntax { at: 3 }),
    ("'a'#c", YamlError::Syntax { at: 3 }),
    ("[a]#c", YamlError::Syntax { at: 3 }),
    // Plain scalars
    ("@a", YamlError::Syntax { at: 0 }),
    ("k: `a", YamlError::Syntax { at: 3 }),
    ("]", YamlError::Syntax { at: 0 }),
    ("- ,", YamlError::Syntax { at: 2 }),
    ("[a, -, b]", YamlError::Syntax { at: 4 }),
    ("a\x01b", YamlError::Syntax { at: 0 }),
    ("k: a\rb", YamlError::Syntax { at: 3 }),
    // Quoted scalars
    ("client: \"x", YamlError::Syntax { at: 10 }),
    ("k: 'a", YamlError::Syntax { at: 5 }),
    ("\"\\q\"", YamlError::Syntax { at: 1 }),
    ("\"a\\\n\"", YamlError::Syntax { at: 2 }),
    ("\"\\x4\"", YamlError::Syntax { at: 1 }),
    ("\"\\x4", YamlError::Syntax { at: 4 }),
    ("\"\\", YamlError::Syntax { at: 2 }),
    ("\"\\uD800\"", YamlError::Syntax { at: 1 }),
    ("\"\\U00110000\"", YamlError::Syntax { at: 1 }),
    // Flow collections
    ("[,]", YamlError::Syntax { at: 1 }),
    ("{,}", YamlError::Syntax { at: 1 }),
    ("[a,,]", YamlError::Syntax { at: 3 }),
    ("[a}", YamlError::Syntax { at: 2 }),
    ("[#c\n]", YamlError::Syntax { at: 1 }),
    ("[\"a\"#c\n]", YamlError::Syntax { at: 4 }),
    ("{\"k\":#c\n}", YamlError::Syntax { at: 5 }),
    ("{a}", YamlError::Syntax { at: 2 }),
    ("{a\n: b}", YamlError::Syntax { at: 3 }),
    ("{a:b}", YamlError::Syntax { at: 4 }),
    ("{[a]: b}", YamlError::Syntax { at: 1 }),
    ("[a, ", YamlError::Syntax { at: 4 }),
    ("{a", YamlError::Syntax { at: 2 }),
    ("{a: ", YamlError::Syntax { at: 4 }),
    (
        "client: {name: basic}\ntargets: {all: [a",
        YamlError::Syntax { at: 39 },
    ),
];

fn push_text(out: &mut Vec<u8>, text: &[u8]) -> Result<(), AllocError> {
    out.push(b'<')?;
    out.extend_from_slice(text)?;
    out.push(b'>')?;
    Ok(())
}

// The tree as `TREES` writes it.
fn show(out: &mut Vec<u8>, tree: &Yaml) -> Result<(), AllocError> {
    match tree {
        Yaml::Scalar(text) => push_text(out, text.as_slice()),
        Yaml::Seq(items) => {
            out.push(b'[')?;
            for item in items.as_slice() {
                show(out, item)?;
                out.push(b',')?;
            }
            out.push(b']')?;
            Ok(())
        }
        Yaml::Map(pairs) => {
            out.push(b'{')?;
            for pair in pairs.as_slice() {
                let Pair { name, value } = pair;
                push_text(out, name.as_slice())?;
                out.push(b':')?;
                show(out, value)?;
                out.push(b',')?;
            }
            out.push(b'}')?;
            Ok(())
        }
    }
}

// What a text gives: its tree as `TREES` writes it, or its refusal.
fn outcome(alloc: Global, text: &[u8]) -> Result<Result<Vec<u8>, YamlError>, AllocError> {
    match read(alloc, text) {
        Ok(tree) => {
            let mut shown = Vec::new(alloc);
            show(&mut shown, &tree)?;
            Ok(Ok(shown))
        }
        Err(error) => Ok(Err(error)),
    }
}

fn expect_refusal(
    rt: &impl Abort,
    alloc: Global,
    text: &[u8],
    wanted: YamlError,
) -> Result<(), Fail> {
    match outcome(alloc, text)? {
        Ok(shown) => assert!(rt; false, "{text:?} gives {shown:?} in place of {wanted:?}"),
        Err(error) => assert_eq!(rt; error, wanted, "{text:?}"),
    }
    Ok(())
}

#[test]
fn gives_trees(rt: HostRuntime) -> Result<(), Fail> {
    for (text, wanted) in TREES {
        match outcome(rt.alloc(), text.as_bytes())? {
            Ok(shown) => assert_eq!(rt; shown.as_slice(), wanted.as_bytes(), "{text:?}"),
            Err(error) => assert!(rt; false, "{text:?} is refused: {error:?}"),
        }
    }
    Ok(())
}

#[test]
fn refuses_at_the_first_place(rt: HostRuntime) -> Result<(), Fail> {
    for (text, feature, at) in LEFT_OUT {
        expect_refusal(&rt, rt.alloc(), text.as_bytes(), left_out(*feature, *at))?;
    }
    for (text, wanted) in REFUSALS {
        expect_refusal(&rt, rt.alloc(), text.as_bytes(), *wanted)?;
    }
    Ok(())
}

// So many of a text, one after the other.
fn repeated(alloc: Global, text: &[u8], count: usize) -> Result<Vec<u8>, AllocError> {
    let mut all = Vec::new(alloc);
    for _ in 0..count {
        all.extend_from_slice(text)?;
    }
    Ok(all)
}

#[test]
fn keeps_its_limits(rt: HostRuntime) -> Result<(), Fail> {
    let alloc = rt.alloc();
    let deep = repeated(alloc, b"[", 65)?;
    expect_refusal(&rt, alloc, &deep, YamlError::TooDeep { at: 64 })?;
    let open = repeated(alloc, b"[", 64)?;
    expect_refusal(&rt, alloc, &open, YamlError::Syntax { at: 64 })?;
    let mut closed = open;
    closed.extend_from_slice(&repeated(alloc, b"]", 64)?)?;
    assert!(rt; outcome(alloc, &closed)?.is_ok());
    let mut in_block = b"k: ".as_slice().to_vec(alloc)?;
    in_block.extend_from_slice(&deep)?;
    expect_refusal(&rt, alloc, &in_block, YamlError::TooDeep { at: 66 })?;
    expect_refusal(&rt, alloc, b"a\xff", YamlError::NotUtf8 { at: 1 })?;
    expect_refusal(&rt, alloc, b"]\n: \xe2\x82", YamlError::NotUtf8 { at: 4 })?;
    let long = vec![in alloc; b' '; TEXT_MAX]?;
    assert!(rt; outcome(alloc, &long)?.is_ok());
    let longer = vec![in alloc; 0xff; TEXT_MAX + 1]?;
    expect_refusal(&rt, alloc, &longer, YamlError::TooLong)
}
