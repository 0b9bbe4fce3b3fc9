//! The order of keys, which is that of their spellings. Nothing is spelled for it, so it takes no memory.
ghost use Rattle.std.specs.Prelude.{◌≡◌, ◌++◌, length};
ghost use Rattle.std.specs.Ordering.{nat_cmp};
ghost use Rattle.std.specs.Str.{is_utf8};
ghost use Rattle.std.specs.Cmp.Lexicographic.{slice_cmp};
ghost use Rattle.spelling.specs.Spelling.{text_bytes, items_bytes, list_bytes, node_bytes};
ghost use Rattle.build_keys.specs.Keys.{Each, IsShort, ArePatterns, HasPatterns, parts_of, tag_of};
ghost use Rattle.build_keys.specs.KeyOrder.{key_cmp};

use crate::key::Key;
use crate::laws::path_has_a_spelling;
use file_info::list::{Bytes, List};
use file_info::node::NodeName;
use file_info::path::PathName;
use spelling::count_of;
use std::cmp::Ordering;

// The order of two texts: by the counts of their bytes, and then byte by byte.
fn text_order(a: &[u8], b: &[u8]) -> Ordering
    ensures { result ≡ slice_cmp nat_cmp (text_bytes a.now) (text_bytes b.now) }
{
    match count_of(a.len()).cmp(&count_of(b.len())) {
        Ordering::Equal => a.cmp(b),
        order => order,
    }
}

// The order of as many patterns as others: that of the first two that differ.
fn items_order(a: &[Bytes], b: &[Bytes]) -> Ordering
    requires first { Each (IsShort is_utf8) a.now }
    requires second { Each (IsShort is_utf8) b.now }
    requires as_many { length a.now ≡ length b.now }
    ensures { result ≡ slice_cmp nat_cmp (items_bytes text_bytes a.now) (items_bytes text_bytes b.now) }
{
    for place in 0..a.len() {
        let order = text_order(a[place].as_slice(), b[place].as_slice());
        if order.is_ne() {
            return order;
        }
    }
    Ordering::Equal
}

// The order of patterns: by their counts, and then one by one.
fn patterns_order(a: &List<Bytes>, b: &List<Bytes>) -> Ordering
    requires first { ArePatterns a.now }
    requires second { ArePatterns b.now }
    ensures { result ≡ slice_cmp nat_cmp (list_bytes text_bytes a.now) (list_bytes text_bytes b.now) }
{
    match count_of(a.len()).cmp(&count_of(b.len())) {
        Ordering::Equal => items_order(a.as_slice(), b.as_slice()),
        order => order,
    }
}

// The order of nodes: paths come before virtual names.
fn node_order(a: &NodeName, b: &NodeName) -> Ordering
    ensures { result ≡ slice_cmp nat_cmp (node_bytes a.now) (node_bytes b.now) }
{
    match (a, b) {
        (NodeName::Path(path), NodeName::Path(other)) => {
            text_order(path.text().as_bytes(), other.text().as_bytes())
        }
        (NodeName::Virtual(name), NodeName::Virtual(other)) => {
            text_order(name.text().as_bytes(), other.text().as_bytes())
        }
        (NodeName::Path(_), NodeName::Virtual(_)) => Ordering::Less,
        (NodeName::Virtual(_), NodeName::Path(_)) => Ordering::Greater,
    }
}

// The order of paths with patterns: by the paths, and then by the patterns.
fn listed_order(
    path: &PathName,
    patterns: &List<Bytes>,
    other: &PathName,
    other_patterns: &List<Bytes>,
) -> Ordering
    requires first { ArePatterns patterns.now }
    requires second { ArePatterns other_patterns.now }
    ensures { result ≡ slice_cmp nat_cmp (text_bytes path.now ++ list_bytes text_bytes patterns.now)
        (text_bytes other.now ++ list_bytes text_bytes other_patterns.now) }
{
    path_has_a_spelling(path);
    path_has_a_spelling(other);
    match text_order(path.text().as_bytes(), other.text().as_bytes()) {
        Ordering::Equal => patterns_order(patterns, other_patterns),
        order => order,
    }
}

// The order of keys of one kind.
fn parts_order(a: &Key, b: &Key) -> Ordering
    requires first { HasPatterns a.now }
    requires second { HasPatterns b.now }
    requires one_kind { tag_of a.now ≡ tag_of b.now }
    ensures { result ≡ slice_cmp nat_cmp (parts_of a.now) (parts_of b.now) }
{
    match (a, b) {
        (Key::Target(name), Key::Target(other)) | (Key::Command(name), Key::Command(other)) => {
            text_order(name.text().as_bytes(), other.text().as_bytes())
        }
        (Key::Node(node), Key::Node(other)) => node_order(node, other),
        (Key::Contents(path), Key::Contents(other)) => {
            text_order(path.text().as_bytes(), other.text().as_bytes())
        }
        (Key::Tree(path, patterns), Key::Tree(other, other_patterns))
        | (Key::Structure(path, patterns), Key::Structure(other, other_patterns)) => {
            listed_order(path, patterns, other, other_patterns)
        }
        _ => Ordering::Equal,
    }
}

/// The order of two keys, which is that of their spellings, byte by byte. It takes no memory.
pub fn key_order(a: &Key, b: &Key) -> Ordering
    requires first { HasPatterns a.now }
    requires second { HasPatterns b.now }
    ensures { result ≡ key_cmp a.now b.now }
{
    match a.tag().cmp(&b.tag()) {
        Ordering::Equal => parts_order(a, b),
        order => order,
    }
}
