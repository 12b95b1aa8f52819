//! Writes a whole reply.

ghost use Rattle.std.specs.Prelude.{ℕ, ◌≡◌, ◌+◌, ◌-◌, ◌<◌, ◌^◌, OnOk, OnErr, take};
ghost use Rattle.std.specs.Io.KnownBytes.{Appends};

use crate::ports::{Failed, Sink};

/// Writes all of `bytes`, in one call where the sink takes them at once. At `Err` a beginning of
/// them was written.
pub fn write_whole<K: Sink>(sink: &mut K, bytes: &[u8]) -> Result<(), Failed>
    requires { K.failures sink.old < 2 ^ 64 - 1 }
    ensures ok { OnOk result (Appends (K.taken sink.old) (K.taken sink.new) bytes.now
        × (K.failures sink.new ≡ K.failures sink.old)) }
    ensures err { OnErr result
        (((n : ℕ) × Appends (K.taken sink.old) (K.taken sink.new) (take n bytes.now))
        × (K.failures sink.new ≡ K.failures sink.old + 1)) }
{
    let mut done = 0;
    while done < bytes.len() {
        done += sink.write(&bytes[done..])?;
    }
    Ok(())
}
