//! Bytes, lines and white.
ghost use Rattle.std.specs.Prelude.{◌≡◌, ◌≤◌, false, length, MatchOption};
ghost use Rattle.yaml_profile.specs.Text as spec;
ghost use Rattle.yaml_profile.specs.Text.{IsBehind};

use crate::fault::{Fault, Refusal, Stop};

/// The refusal at the first byte of this text, which goes to the end of the whole.
pub fn refused(fault: Fault, text: &[u8]) -> Stop
    ensures { result ≡ Stop.Refused (record { fault = fault; left = length text.now }) }
{
    Stop::Refused(Refusal {
        fault,
        left: text.len(),
    })
}

/// Whether this byte comes first.
pub fn sees(byte: u8, text: &[u8]) -> bool
    ensures { result ≡ spec.sees byte text.now }
{
    match text {
        [first, ..] => *first == byte,
        [] => false,
    }
}

/// What follows this byte, where it comes first.
pub fn behind(byte: u8, text: &[u8]) -> Option<&[u8]>
    ensures { MatchOption result (spec.sees byte text.now ≡ false) (λ rest. IsBehind byte text.now rest.now) }
{
    match text {
        [first, rest @ ..] if *first == byte => Some(rest),
        _ => None,
    }
}

/// Whether the byte is a space or a tab.
pub fn is_white(byte: u8) -> bool
    ensures { result ≡ spec.is_white byte }
{
    byte == b' ' || byte == b'\t'
}

/// Whether LF, CR LF or the end of the text stands here.
pub fn ends_line(text: &[u8]) -> bool
    ensures { result ≡ spec.ends_line text.now }
{
    match text {
        [] => true,
        [b'\n', ..] => true,
        [b'\r', rest @ ..] => sees(b'\n', rest),
        _ => false,
    }
}

/// Whether white, a line's end or the end of the text stands here.
pub fn is_gap(text: &[u8]) -> bool
    ensures { result ≡ spec.is_gap text.now }
{
    match text {
        [first, ..] => is_white(*first) || ends_line(text),
        [] => true,
    }
}

/// Whether flow collections are written with this byte.
pub fn is_flow_mark(byte: u8) -> bool
    ensures { result ≡ spec.is_flow_mark byte }
{
    matches!(byte, b',' | b'[' | b']' | b'{' | b'}')
}

/// The text from the first byte on that is not white.
#[tactic(auto, unfolding(crate::specs::Text::past_white))]
pub fn past_white(text: &[u8]) -> &[u8]
    ensures value { result.now ≡ spec.past_white text.now }
    ensures shorter { length result.now ≤ length text.now }
{
    let mut rest = text;
    while let [first, tail @ ..] = rest {
        if !is_white(*first) {
            break;
        }
        rest = tail;
    }
    rest
}

/// What stands before a byte between the items of a flow collection.
#[derive(Clone, Copy, Debug, PartialEq, Eq)]
pub enum Between {
    /// A byte that is not white, so no comment may begin.
    AfterByte,
    /// A line's start, or white.
    AfterWhite,
    /// A byte of a comment.
    InComment,
}

// What stands before the next byte, where this byte is white, a line's end or of a comment.
fn next_between(now: Between, text: &[u8]) -> Option<Between>
    ensures { result ≡ spec.next_between now text.now }
{
    match now {
        Between::InComment if sees(b'\n', text) => Some(Between::AfterWhite),
        Between::InComment => Some(Between::InComment),
        _ if is_gap(text) => Some(Between::AfterWhite),
        Between::AfterWhite if sees(b'#', text) => Some(Between::InComment),
        _ => None,
    }
}

/// The text from the next item on, past white, comments and line ends.
#[tactic(auto, unfolding(crate::specs::Text::past_space))]
pub fn spaced(text: &[u8]) -> &[u8]
    ensures value { result.now ≡ spec.spaced text.now }
    ensures shorter { length result.now ≤ length text.now }
{
    let mut rest = text;
    let mut now = Between::AfterByte;
    while let [_, tail @ ..] = rest {
        match next_between(now, rest) {
            Some(next) => now = next,
            None => break,
        }
        rest = tail;
    }
    rest
}
