//! Inline nodes: scalars and flow collections.
ghost use Rattle.std.specs.Prelude.{◌≡◌, ◌<◌, ◌≤◌, [], true, length, IfOk};
ghost use Rattle.yaml_profile.specs.Text.{Gives};
ghost use Rattle.yaml_profile.specs.Flow as spec;

use crate::error::Feature;
use crate::fault::{Fault, Stop};
use crate::pairs::Pairs;
use crate::scalar::scalar;
use crate::text::{behind, is_gap, past_white, refused, sees, spaced};
use crate::yaml::Yaml;
use file_info::list::List;
use std::alloc::Global;

/// What the profile leaves out, where a node or a key is due and such a thing begins here.
pub fn left_out(text: &[u8]) -> Option<Feature>
    ensures { result ≡ spec.left_out text.now }
{
    match text {
        [b'&', ..] => Some(Feature::Anchor),
        [b'*', ..] => Some(Feature::Alias),
        [b'!', ..] => Some(Feature::Tag),
        [b'|', ..] | [b'>', ..] => Some(Feature::BlockScalar),
        [b'?', rest @ ..] if is_gap(rest) => Some(Feature::ExplicitKey),
        _ => None,
    }
}

// A key that is not among the pairs, and what follows it.
#[tactic(auto, unfolding(crate::specs::Flow::new_key))]
fn new_key<'a>(alloc: Global, found: &Pairs, text: &'a [u8]) -> Result<(Vec<u8>, &'a [u8]), Stop>
    ensures reads { Gives (λ x. (x.0.items, x.1.now)) result (spec.new_key found.now text.now) }
    ensures shorter { IfOk result (λ x. length x.1.now < length text.now) }
{
    if let Some(feature) = left_out(text) {
        return Err(refused(Fault::LeftOut(feature), text));
    }
    let (key, rest) = scalar(alloc, true, text)?;
    if found.has_name(&key) {
        return Err(refused(Fault::RepeatedKey, text));
    }
    Ok((key, rest))
}

/// An inline node, with collections nested no deeper than `depth`, and what follows it. `flow` says that it stands in a
/// flow collection.
#[cycle(inline)]
#[tactic(auto, unfolding(crate::specs::Flow::inline))]
pub fn inline(alloc: Global, depth: usize, flow: bool, text: &[u8]) -> Result<(Yaml, &[u8]), Stop>
    ensures reads { Gives (λ x. (x.0, x.1.now)) result (spec.inline depth flow text.now) }
    ensures shorter { IfOk result (λ x. length x.1.now < length text.now) }
{
    if let Some(feature) = left_out(text) {
        return Err(refused(Fault::LeftOut(feature), text));
    }
    match text {
        [b'[', ..] | [b'{', ..] if depth == 0 => Err(refused(Fault::TooDeep, text)),
        [b'[', rest @ ..] => sequence(alloc, depth - 1, rest),
        [b'{', rest @ ..] => mapping(alloc, depth - 1, rest),
        _ => {
            let (found, rest) = scalar(alloc, flow, text)?;
            Ok((Yaml::Scalar(List::from_vec(found)), rest))
        }
    }
}

// The sequence after `[`, and what follows it.
#[cycle(inline)]
#[tactic(auto, unfolding(crate::specs::Flow::items))]
fn sequence(alloc: Global, depth: usize, text: &[u8]) -> Result<(Yaml, &[u8]), Stop>
    ensures reads { Gives (λ x. (x.0, x.1.now)) result
        (spec.sequence (spec.inline depth true) text.now) }
    ensures shorter { IfOk result (λ x. length x.1.now < length text.now) }
{
    let mut found = List::new(alloc);
    let mut rest = text;
    'turns: loop {
        let start = spaced(rest);
        if let Some(tail) = behind(b']', start) {
            return Ok((Yaml::Seq(found), tail));
        }
        let (item, tail) = inline(alloc, depth, true, start)?;
        found.push(item)?;
        let end = spaced(tail);
        if let Some(tail) = behind(b']', end) {
            return Ok((Yaml::Seq(found), tail));
        }
        let Some(tail) = behind(b',', end) else {
            return Err(refused(Fault::Syntax, end));
        };
        rest = tail;
    }
}

// The value after a key, which is the empty scalar where none stands, and what follows it.
#[cycle(inline)]
#[tactic(auto, unfolding(crate::specs::Flow::value_of))]
fn value_of(alloc: Global, depth: usize, text: &[u8]) -> Result<(Yaml, &[u8]), Stop>
    ensures reads { Gives (λ x. (x.0, x.1.now)) result
        (spec.value_of (spec.inline depth true) text.now) }
    ensures shorter { IfOk result (λ x. length x.1.now ≤ length text.now) }
{
    let [b':', tail @ ..] = past_white(text) else {
        return Err(refused(Fault::Syntax, spaced(text)));
    };
    let start = spaced(tail);
    if sees(b',', start) || sees(b'}', start) {
        return Ok((Yaml::Scalar(List::new(alloc)), start));
    }
    inline(alloc, depth, true, start)
}

// The mapping after `{`, and what follows it.
#[cycle(inline)]
#[tactic(auto, unfolding(crate::specs::Flow::pairs))]
fn mapping(alloc: Global, depth: usize, text: &[u8]) -> Result<(Yaml, &[u8]), Stop>
    ensures reads { Gives (λ x. (x.0, x.1.now)) result
        (spec.mapping (spec.inline depth true) text.now) }
    ensures shorter { IfOk result (λ x. length x.1.now < length text.now) }
{
    let mut found = Pairs::new(alloc);
    let mut rest = text;
    'turns: loop {
        let start = spaced(rest);
        if let Some(tail) = behind(b'}', start) {
            return Ok((Yaml::Map(found.into_list()), tail));
        }
        let (name, tail) = new_key(alloc, &found, start)?;
        let (value, tail) = value_of(alloc, depth, tail)?;
        found = found.with(alloc, name, value)?;
        let end = spaced(tail);
        if let Some(tail) = behind(b'}', end) {
            return Ok((Yaml::Map(found.into_list()), tail));
        }
        let Some(tail) = behind(b',', end) else {
            return Err(refused(Fault::Syntax, end));
        };
        rest = tail;
    }
}
