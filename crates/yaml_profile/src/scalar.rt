//! Scalars and keys.
ghost use Rattle.std.specs.Prelude.{◌≡◌, ◌<◌, ◌≤◌, [], false, ◌+◌, length, IfOk};
ghost use Rattle.yaml_profile.specs.Text.{Gives};
ghost use Rattle.yaml_profile.specs.Scalar as spec;

use crate::error::Feature;
use crate::escape::double;
use crate::fault::{Fault, Stop};
use crate::text::{ends_line, is_flow_mark, is_gap, is_white, refused};
use std::alloc::Global;

// The text between single quotes, and what follows it. The reader stands after the opening quote.
#[tactic(auto, unfolding(crate::specs::Scalar::single))]
fn single(alloc: Global, text: &[u8]) -> Result<(Vec<u8>, &[u8]), Stop>
    ensures reads { Gives (λ x. (x.0.items, x.1.now)) result (spec.single [] false text.now) }
    ensures shorter { IfOk result (λ x. length x.1.now < length text.now) }
{
    let mut found = Vec::new(alloc);
    let mut rest = text;
    loop {
        match rest {
            [] => return Err(refused(Fault::Syntax, rest)),
            [b'\'', b'\'', tail @ ..] => {
                found.push(b'\'')?;
                rest = tail;
            }
            [b'\'', tail @ ..] => return Ok((found, tail)),
            [byte, tail @ ..] => {
                if ends_line(rest) {
                    return Err(refused(Fault::LeftOut(Feature::ManyLines), rest));
                }
                found.push(*byte)?;
                rest = tail;
            }
        }
    }
}

// Whether `-`, `?` or `:` before this text is no part of a plain scalar.
fn closes(flow: bool, text: &[u8]) -> bool
    ensures { result ≡ spec.closes flow text.now }
{
    match text {
        [first, ..] => is_gap(text) || (flow && is_flow_mark(*first)),
        [] => true,
    }
}

// Whether no plain scalar begins with this byte.
fn is_indicator(byte: u8) -> bool
    ensures { result ≡ spec.is_indicator byte }
{
    is_flow_mark(byte)
        || matches!(
            byte,
            b'#' | b'&' | b'*' | b'!' | b'|' | b'>' | b'\'' | b'"' | b'%' | b'@' | b'`'
        )
}

fn begins_plain(flow: bool, text: &[u8]) -> bool
    ensures { result ≡ spec.begins_plain flow text.now }
{
    let [first, rest @ ..] = text else {
        return false;
    };
    if is_gap(text) || is_indicator(*first) {
        return false;
    }
    !(matches!(*first, b'-' | b'?' | b':') && closes(flow, rest))
}

// Whether a plain scalar ends here. `white` says that white stands before.
fn ends_plain(flow: bool, white: bool, text: &[u8]) -> bool
    ensures { result ≡ spec.ends_plain flow white text.now }
{
    let [first, rest @ ..] = text else {
        return true;
    };
    ends_line(text)
        || (*first == b':' && closes(flow, rest))
        || (flow && is_flow_mark(*first))
        || (white && *first == b'#')
}

// How many bytes a plain scalar takes. The text is what stands after its first byte.
#[tactic(auto, unfolding(crate::specs::Scalar::plain_len))]
fn plain_len(flow: bool, text: &[u8]) -> usize
    ensures value { result ≡ spec.plain_len flow false 1 1 text.now }
    ensures some { 1 ≤ result }
    ensures within { result ≤ 1 + length text.now }
{
    let mut rest = text;
    let mut white = false;
    let mut passed = 1;
    let mut len = 1;
    while let [first, tail @ ..] = rest {
        if ends_plain(flow, white, rest) {
            break;
        }
        passed += 1;
        white = is_white(*first);
        if !white {
            len = passed;
        }
        rest = tail;
    }
    len
}

// Whether a byte stands here that no plain scalar holds.
#[tactic(auto, unfolding(crate::specs::Scalar::has_forbidden))]
fn has_forbidden(text: &[u8]) -> bool
    ensures { result ≡ spec.has_forbidden text.now }
{
    for byte in text {
        if *byte < b' ' && *byte != b'\t' {
            return true;
        }
    }
    false
}

// A plain scalar, and what follows it.
#[tactic(auto, unfolding(crate::specs::Scalar::plain))]
fn plain(alloc: Global, flow: bool, text: &[u8]) -> Result<(Vec<u8>, &[u8]), Stop>
    ensures reads { Gives (λ x. (x.0.items, x.1.now)) result (spec.plain flow text.now) }
    ensures shorter { IfOk result (λ x. length x.1.now < length text.now) }
{
    if !begins_plain(flow, text) {
        return Err(refused(Fault::Syntax, text));
    }
    let (found, rest) = text.split_at(plain_len(flow, &text[1..]));
    if has_forbidden(found) {
        return Err(refused(Fault::Syntax, text));
    }
    Ok((Vec::from_slice(alloc, found)?, rest))
}

/// The text of a scalar or of a key, and what follows it. `flow` says that it stands in a flow collection.
#[tactic(auto, unfolding(crate::specs::Scalar::scalar))]
pub fn scalar(alloc: Global, flow: bool, text: &[u8]) -> Result<(Vec<u8>, &[u8]), Stop>
    ensures reads { Gives (λ x. (x.0.items, x.1.now)) result (spec.scalar flow text.now) }
    ensures shorter { IfOk result (λ x. length x.1.now < length text.now) }
{
    match text {
        [b'\'', rest @ ..] => single(alloc, rest),
        [b'"', rest @ ..] => double(alloc, rest),
        _ => plain(alloc, flow, text),
    }
}
