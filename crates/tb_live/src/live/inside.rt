//! What a live run is made of, for who reads it.

ghost use Rattle.std.specs.Prelude.{◌≡◌, ◌≤◌, length, reverse};
ghost use Rattle.tb_model.specs.Journal.{Sound};
ghost use Rattle.tb_model.specs.Program.{LegalFor};
ghost use Rattle.tb_core.specs.Seen.{history as events};
ghost use Rattle.tb_live.specs.Session.{history};
ghost use Rattle.tb_next.specs.Fitting.{Fits};

use crate::live::Live;
use tb_core::Core;
use tb_journal::Journal;

impl Live {
    /// The core: its history is what the journal leaves.
    pub fn core(&self) -> &Core
        ensures history { events result.now.run ≡ history self.now.session }
        ensures fits { Fits self.now.session.program result.now.run }
        ensures limit { result.now.run.limit ≡ self.now.session.limit }
    {
        &self.core
    }

    /// What was done, from the opening on.
    pub fn journal(&self) -> &Journal
        ensures { reverse result.now.items ≡ self.now.session.journal }
    {
        &self.journal
    }

    /// What always holds, for a caller to cite: the journal is sound, has begun and is within its limit,
    /// and the history that it leaves, which is the core's, is legal for the program.
    pub fn journal_is_sound(&self)
        ensures sound { Sound self.now.session.program self.now.session.journal }
        ensures legal { LegalFor self.now.session.program (history self.now.session) }
        ensures begun { 1 ≤ length self.now.session.journal }
        ensures within { length self.now.session.journal ≤ self.now.session.limit }
        ensures bound { self.now.session.limit ≤ 1000000 }
    {
        // for the proof: what the type retains is known where a field is read
        let _limit = self.limit;
    }

    /// How many entries the journal may have.
    pub fn limit(&self) -> u32
        ensures { result ≡ self.now.session.limit }
    {
        self.limit
    }
}
