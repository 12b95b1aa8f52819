//! Who made an entry.

ghost use Rattle.std.specs.Prelude.{◌≡◌};
ghost use Rattle.tb_journal.specs.Journals.{seat_of};

use tb_model::Entry;

/// The seat that made the entry. The opening is seat 0's.
pub fn seat_of(entry: &Entry) -> u32
    ensures { result ≡ seat_of entry.now }
{
    match entry {
        Entry::Opened => 0,
        Entry::Stepped { seat, .. } => *seat,
        Entry::Rolled { seat, .. } => *seat,
    }
}
