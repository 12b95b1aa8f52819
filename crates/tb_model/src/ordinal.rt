//! Ordinals of children and steps, as they are spelled.

ghost use Rattle.std.specs.Prelude.{◌≡◌};
ghost use Rattle.tb_model.specs.Spelling.{ordinal_of};

/// The number from 1 to 1,000,000 that the digits spell.
pub(crate) fn ordinal(digits: &[u8]) -> Option<u32>
    ensures { result ≡ ordinal_of digits.now }
{
    if digits.is_empty() || digits[0] == b'0' || digits[0] == b'+' {
        return None;
    }
    let Ok(text) = str::from_utf8(digits) else {
        return None;
    };
    match text.parse::<u32>() {
        Ok(n) => { if n <= 1_000_000 { Some(n) } else { None } }
        Err(_) => None,
    }
}
