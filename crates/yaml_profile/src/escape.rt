//! Double-quoted texts.
ghost use Rattle.std.specs.Prelude.{◌≡◌, ◌<◌, ◌≤◌, [], length, IfOk, IfSome};
ghost use Rattle.yaml_profile.specs.Text.{Gives};
ghost use Rattle.yaml_profile.specs.Scalar as spec;

use crate::error::Feature;
use crate::fault::{Fault, Stop};
use crate::text::{ends_line, refused};
use std::alloc::Global;

// The byte that an escape of one letter stands for.
fn short_escape(byte: u8) -> Option<u8>
    ensures { result ≡ spec.short_escape byte }
{
    match byte {
        b'\\' | b'"' | b'/' | b' ' => Some(byte),
        b'0' => Some(0),
        b'a' => Some(7),
        b'b' => Some(8),
        b't' => Some(9),
        b'n' => Some(10),
        b'v' => Some(11),
        b'f' => Some(12),
        b'r' => Some(13),
        b'e' => Some(27),
        _ => None,
    }
}

// How many digits an escape has that names a character by its number.
fn hex_digits(byte: u8) -> Option<usize>
    ensures value { result ≡ spec.hex_digits byte }
{
    match byte {
        b'x' => Some(2),
        b'u' => Some(4),
        b'U' => Some(8),
        _ => None,
    }
}

// The value of a hexadecimal digit, in either case.
fn hex_value(byte: u8) -> Option<u32>
    ensures value { result ≡ spec.hex_value byte }
    ensures small { IfSome result (λ digit. digit < 16) }
{
    (byte as char).to_digit(16)
}

// The character of this many digits, in an escape that begins at `whole`.
#[tactic(auto, unfolding(crate::specs::Scalar::hex))]
fn hex<'a>(whole: &[u8], count: usize, text: &'a [u8]) -> Result<(char, &'a [u8]), Stop>
    requires { count ≤ 8 }
    ensures reads { Gives (λ x. (x.0, x.1.now)) result (spec.hex whole.now count 0 text.now) }
    ensures shorter { IfOk result (λ x. length x.1.now ≤ length text.now) }
{
    let mut number: u32 = 0;
    let mut rest = text;
    for _ in 0..count {
        let [first, tail @ ..] = rest else {
            return Err(refused(Fault::Syntax, rest));
        };
        let Some(digit) = hex_value(*first) else {
            return Err(refused(Fault::Syntax, whole));
        };
        number = 16 * number + digit;
        rest = tail;
    }
    match char::from_u32(number) {
        Some(character) => Ok((character, rest)),
        None => Err(refused(Fault::Syntax, whole)),
    }
}

// The character that an escape stands for, after the backslash that `whole` begins with.
#[tactic(auto, unfolding(crate::specs::Scalar::escape))]
fn escape<'a>(whole: &[u8], text: &'a [u8]) -> Result<(char, &'a [u8]), Stop>
    ensures reads { Gives (λ x. (x.0, x.1.now)) result (spec.escape whole.now text.now) }
    ensures shorter { IfOk result (λ x. length x.1.now < length text.now) }
{
    let [kind, rest @ ..] = text else {
        return Err(refused(Fault::Syntax, text));
    };
    if let Some(count) = hex_digits(*kind) {
        return hex(whole, count, rest);
    }
    match short_escape(*kind) {
        Some(byte) => Ok((byte as char, rest)),
        None => Err(refused(Fault::Syntax, whole)),
    }
}

/// The text between double quotes, and what follows it. The reader stands after the opening quote.
#[tactic(auto, unfolding(crate::specs::Scalar::double))]
pub fn double(alloc: Global, text: &[u8]) -> Result<(Vec<u8>, &[u8]), Stop>
    ensures reads { Gives (λ x. (x.0.items, x.1.now)) result (spec.double_quoted text.now) }
    ensures shorter { IfOk result (λ x. length x.1.now < length text.now) }
{
    let mut found = Vec::new(alloc);
    let mut rest = text;
    loop {
        match rest {
            [] => return Err(refused(Fault::Syntax, rest)),
            [b'"', tail @ ..] => return Ok((found, tail)),
            [b'\\', tail @ ..] => {
                let (character, tail) = escape(rest, tail)?;
                let mut buffer = [0; 4];
                let bytes = character.encode_utf8(&mut buffer).as_bytes();
                found.extend_from_slice(bytes)?;
                rest = tail;
            }
            [byte, tail @ ..] => {
                if ends_line(rest) {
                    return Err(refused(Fault::LeftOut(Feature::ManyLines), rest));
                }
                found.push(*byte)?;
                rest = tail;
            }
        }
    }
}
