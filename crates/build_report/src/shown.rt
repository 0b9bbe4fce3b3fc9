//! How texts and numbers are shown.
ghost use Rattle.std.specs.Prelude.{◌≡◌, ◌<◌, ◌++◌, OnOk};
ghost use Rattle.build_report.specs.Escape.{at_byte, hex_digit, show, shown_byte};

use std::alloc::{AllocError, Global};

// The digit of a number below 16.
fn hex_digit(number: u8) -> u8
    requires { number < 16 }
    ensures { result ≡ hex_digit number }
{
    if number < 10 {
        b'0' + number
    } else {
        b'a' + (number - 10)
    }
}

// Adds a byte: a control character of ASCII as `\x` and two lower-case hexadecimal digits.
fn push_byte(out: &mut Vec<u8>, byte: u8) -> Result<(), AllocError>
    ensures { OnOk result (out.new.items ≡ out.old.items ++ shown_byte byte) }
{
    if byte < 0x20 || byte == 0x7F {
        out.extend_from_slice(&[b'\\', b'x', hex_digit(byte / 16), hex_digit(byte % 16)])
    } else {
        out.push(byte)?;
        Ok(())
    }
}

/// Adds a text as it is shown.
pub fn push_shown(out: &mut Vec<u8>, text: &[u8]) -> Result<(), AllocError>
    ensures { OnOk result (out.new.items ≡ out.old.items ++ show text.now) }
{
    for byte in text {
        push_byte(out, *byte)?;
    }
    Ok(())
}

/// Adds a text, something that is shown, and a text after it.
pub fn push_named(
    out: &mut Vec<u8>,
    before: &[u8],
    shown: &[u8],
    after: &[u8],
) -> Result<(), AllocError>
    ensures { OnOk result (out.new.items ≡ out.old.items ++ (before.now ++ show shown.now ++ after.now)) }
{
    out.extend_from_slice(before)?;
    push_shown(out, shown)?;
    out.extend_from_slice(after)
}

/// Adds a text, and the place of a byte after it.
#[tactic(auto, unfolding(crate::specs::Escape::at_byte))]
pub fn push_at(alloc: Global, out: &mut Vec<u8>, text: &[u8], at: u64) -> Result<(), AllocError>
    ensures { OnOk result (out.new.items ≡ out.old.items ++ at_byte text.now at) }
{
    out.extend_from_slice(text)?;
    out.extend_from_slice(b" at byte ")?;
    out.extend_from_slice(format!(in alloc; "{at}")?.as_bytes())
}
