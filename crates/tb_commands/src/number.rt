//! Numbers, as words of a command.

ghost use Rattle.std.specs.Prelude.{◌≡◌};
ghost use Rattle.tb_commands.specs.Commands.{number_within};

/// The number up to `most` that a word spells, in digits alone. The first may be zeros.
pub fn read_number(word: &[u8], most: u32) -> Option<u32>
    ensures { result ≡ number_within most word.now }
{
    if word.is_empty() || word[0] == b'+' {
        return None;
    }
    let Ok(text) = str::from_utf8(word) else {
        return None;
    };
    match text.parse::<u32>() {
        Ok(number) => { if number <= most { Some(number) } else { None } }
        Err(_) => None,
    }
}
