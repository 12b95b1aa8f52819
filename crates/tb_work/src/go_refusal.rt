//! Why a `go` isn't answered. The steps that were executed stay.

ghost use Rattle.std.specs.Prelude.{◌≡◌};
ghost use Rattle.tb_work.specs.Numbers.{go_number};

/// What ended a worker. The steps that were executed stay, and have their receipts.
#[derive(Clone, Copy, Debug, Drop, PartialEq, Eq)]
pub enum GoRefusal {
    /// 11: A slot's cell was taken.
    CellTaken,
    /// 0: A growth was refused.
    Memory,
}

impl GoRefusal {
    /// The code by which the refusal is known.
    pub fn number(&self) -> u8
        ensures { result ≡ go_number self.now }
    {
        match self {
            GoRefusal::CellTaken => 11,
            GoRefusal::Memory => 0,
        }
    }
}
