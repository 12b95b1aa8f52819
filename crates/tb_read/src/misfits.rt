//! Which faults words have at their indexes.

ghost use Rattle.std.specs.Prelude.{◌≡◌, map, false};
ghost use Rattle.tb_read.specs.Grammar.{misfit, is_fault, is_misplaced};
ghost use Rattle.tb_read.specs.Misfits.{has, Finds};
ghost use Rattle.tb_read.specs.declared.fault.FaultKind.{FaultKind};

use crate::fault::FaultKind;
use crate::place::{Place, misfit};

/// The faults that some word has at its index. All are found in one pass, since most lines have
/// none.
#[derive(Clone, Copy, Debug, Drop, PartialEq, Eq)]
pub struct Misfits {
    pub bad_number: bool,
    pub unknown_word: bool,
    pub register: bool,
    pub depend_type: bool,
}

impl Misfits {
    pub fn none() -> Misfits
        ensures { (fault : FaultKind) → has result fault ≡ false }
    {
        Misfits {
            bad_number: false,
            unknown_word: false,
            register: false,
            depend_type: false,
        }
    }

    fn add_fault(&mut self, found: Option<FaultKind>)
        ensures { Finds self.old self.new (λ fault. is_fault fault found) }
    {
        match found {
            Some(FaultKind::BadNumber) => self.bad_number = true,
            Some(FaultKind::UnknownWord) => self.unknown_word = true,
            Some(FaultKind::Register) => self.register = true,
            Some(FaultKind::DependType) => self.depend_type = true,
            _ => {}
        }
    }

    /// Adds the fault of a word at its index.
    pub fn add(&mut self, place: Place, word: &[u8])
        ensures { Finds self.old self.new (λ fault. is_fault fault (misfit place word.now)) }
    {
        self.add_fault(misfit(place, word));
    }

    /// Adds the faults of words at their indexes.
    pub fn add_all(&mut self, places: &[Place], words: &[&[u8]])
        ensures { Finds self.old self.new (λ fault. is_misplaced fault places.now (map (λ word. word.now) words.now)) }
    {
        let mut left_places = places;
        let mut left_words = words;
        while let [place, other_places @ ..] = left_places {
            match left_words {
                [] => return,
                [word, other_words @ ..] => {
                    self.add(*place, word);
                    left_places = other_places;
                    left_words = other_words;
                }
            }
        }
    }
}
