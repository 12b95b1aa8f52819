//! Numbers as text.

ghost use Rattle.std.specs.Prelude.{◌≡◌, ◌++◌, OnOk, OnErr, string_bytes, decimal};
ghost use Rattle.std.specs.Fmt.{signed_decimal};

use itoa::Buffer;
use std::alloc::AllocError;

/// Appends the number in decimal. Most numbers have one digit, for which no buffer is filled.
pub fn append_number(text: &mut String, n: u32) -> Result<(), AllocError>
    ensures ok { OnOk result (string_bytes text.new ≡ string_bytes text.old ++ decimal n) }
    ensures err { OnErr result (string_bytes text.new ≡ string_bytes text.old) }
{
    if n < 10 {
        return text.push((b'0' + n as u8) as char);
    }
    text.push_str(Buffer::new().format(n))
}

/// Appends the number in decimal, with a minus where it is below zero.
pub fn append_signed(text: &mut String, n: i64) -> Result<(), AllocError>
    ensures ok { OnOk result (string_bytes text.new ≡ string_bytes text.old ++ signed_decimal n) }
    ensures err { OnErr result (string_bytes text.new ≡ string_bytes text.old) }
{
    if 0 <= n && n < 10 {
        return append_number(text, n as u32);
    }
    text.push_str(Buffer::new().format(n))
}
