//! Lines that are not passed over.
ghost use Rattle.std.specs.Prelude.{◌≡◌, ◌+◌, ◌<◌, ◌≤◌, length, IfOk, IfSome};
ghost use Rattle.yaml_profile.specs.Text.{Gives};
ghost use Rattle.yaml_profile.specs.Block as spec;

use crate::error::Feature;
use crate::fault::{Fault, Stop};
use crate::text::{ends_line, is_gap, is_white, past_white, refused, sees};

/// The column of the first byte of a line that is no space, and the text from it on.
pub type Line<'a> = (usize, &'a [u8]);

// Whether white stands alone before the line's end or a comment.
fn is_blank(text: &[u8]) -> bool
    ensures { result ≡ spec.is_blank text.now }
{
    let rest = past_white(text);
    ends_line(rest) || sees(b'#', rest)
}

/// Whether no more than white and a comment stand on this line.
pub fn ends_node(text: &[u8]) -> bool
    ensures { result ≡ spec.ends_node text.now }
{
    let rest = past_white(text);
    ends_line(rest) || (matches!(text, [first, ..] if is_white(*first)) && sees(b'#', rest))
}

// Where a byte that is passed over leads: to a line's start, or on in this line.
fn passed(byte: u8) -> Option<usize>
    ensures { result ≡ spec.passed byte }
{
    if byte == b'\n' { Some(0) } else { None }
}

/// The next line that holds more than white and a comment. The text begins a line, or at None it is the rest of one.
#[tactic(auto, unfolding(crate::specs::Block::line_from))]
pub fn line_from(start: Option<usize>, text: &[u8]) -> Result<Option<Line<'_>>, Stop>
    requires { IfSome start (λ column. column ≡ 0) }
    ensures reads { Gives spec.seen result (spec.line_from start text.now) }
    ensures shorter { IfOk result (λ l. IfSome l (λ l. length l.1.now ≤ length text.now)) }
{
    let mut spaces = start;
    let mut rest = text;
    while let [first, tail @ ..] = rest {
        spaces = match spaces {
            None => passed(*first),
            Some(column) if *first == b' ' => Some(column + 1),
            Some(_) if is_blank(rest) => passed(*first),
            Some(_) if *first == b'\t' => return Err(refused(Fault::Indent, rest)),
            Some(column) => return Ok(Some((column, rest))),
        };
        rest = tail;
    }
    Ok(None)
}

/// Whether three of this byte stand here, and then white or the line's end.
pub fn is_three(byte: u8, text: &[u8]) -> bool
    ensures { result ≡ spec.is_three byte text.now }
{
    match text {
        [a, b, c, rest @ ..] => *a == byte && *b == byte && *c == byte && is_gap(rest),
        _ => false,
    }
}

/// The line, where it neither begins nor ends a document.
pub fn without_marker<'a>(line: Option<Line<'a>>) -> Result<Option<Line<'a>>, Stop>
    ensures reads { Gives spec.seen result (spec.without_marker (spec.seen line.entry)) }
    ensures same { IfOk result (λ l. l ≡ line.entry) }
{
    match line {
        Some((0, text)) if is_three(b'-', text) || is_three(b'.', text) => {
            Err(refused(Fault::LeftOut(Feature::Documents), text))
        }
        _ => Ok(line),
    }
}

/// The line after the one that this text is the rest of.
#[tactic(auto, unfolding(crate::specs::Block::next_line))]
pub fn next_line(text: &[u8]) -> Result<Option<Line<'_>>, Stop>
    ensures reads { Gives spec.seen result (spec.next_line text.now) }
    ensures shorter { IfOk result (λ l. IfSome l (λ l. length l.1.now ≤ length text.now)) }
{
    without_marker(line_from(None, text)?)
}
