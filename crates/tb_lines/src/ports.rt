//! What a session reads from and writes to.

ghost use Rattle.std.specs.Prelude.{ℕ, List, ◌≡◌, ◌+◌, ◌-◌, ◌<◌, ◌^◌, is_ok, if◌then◌else◌, length, IfOk};
ghost use Rattle.std.specs.declared.option.Option.{Option};
ghost use Rattle.std.specs.Io.{ReadsAtMost, WritesAtMost};
ghost use Rattle.std.specs.Io.KnownBytes.{ReadConsumes, WriteAppends};

/// A call that failed.
#[derive(Clone, Copy, Debug, PartialEq, Eq)]
pub struct Failed;

/// Where bytes come from.
pub trait Source {
    // The bytes that are still to come, where they are known, and how many calls have failed.
    ghost left: { Self → Option (List ℕ) };

    ghost failures: { Self → ℕ };

    fn read(&mut self, buf: &mut [u8]) -> Result<usize, Failed>
        requires { failures self.old < 2 ^ 64 - 1 }
        ensures bound { ReadsAtMost result buf.new }
        ensures bytes { ReadConsumes (left self.old) (left self.new) result buf.new }
        ensures failures { failures self.new
            ≡ (if is_ok result then failures self.old else failures self.old + 1) };
}

/// Where bytes go. A call that takes none of some bytes has failed.
pub trait Sink {
    // The bytes that it has taken, where they are known, and how many calls have failed.
    ghost taken: { Self → Option (List ℕ) };

    ghost failures: { Self → ℕ };

    fn write(&mut self, bytes: &[u8]) -> Result<usize, Failed>
        requires { failures self.old < 2 ^ 64 - 1 }
        ensures bound { WritesAtMost result bytes.now }
        ensures some { IfOk result (λ n. 0 < length bytes.now → 0 < n) }
        ensures bytes { WriteAppends (taken self.old) (taken self.new) result bytes.now }
        ensures failures { failures self.new
            ≡ (if is_ok result then failures self.old else failures self.old + 1) };
}
