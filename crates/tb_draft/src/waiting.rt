//! Bytes that wait for their write.

ghost use Rattle.std.specs.Prelude.{◌≡◌, ◌+◌, ◌++◌, ◌-◌, ◌<◌, ◌^◌, OnErr, OnOk};
ghost use Rattle.tb_draft.specs.Written.{Told, WroteFront};

use arrayvec::ArrayVec;
use tb_lines::{Failed, Sink, write_whole};

/// The most bytes that wait, so a text of up to as many is one write.
pub(crate) const ROOM: usize = 65536;

/// Puts the bytes after those that wait, which are written first where there is no capacity for
/// more.
pub(crate) fn put<K: Sink>(
    sink: &mut K,
    waiting: &mut ArrayVec<u8, ROOM>,
    bytes: &[u8],
) -> Result<(), Failed>
    requires { K.failures sink.old < 2 ^ 64 - 1 }
    ensures ok { OnOk result (Told (K.taken sink.old) (K.taken sink.new) waiting.new.items
        (λ all. all ≡ waiting.old.items ++ bytes.now) × (K.failures sink.new ≡ K.failures sink.old)) }
    ensures err { OnErr result (WroteFront (K.taken sink.old) (K.taken sink.new) (waiting.old.items ++ bytes.now)
        × (K.failures sink.new ≡ K.failures sink.old + 1)) }
{
    match waiting.try_extend_from_slice(bytes) {
        Ok(()) => return Ok(()),
        Err(_) => write_whole(sink, waiting.as_slice())?,
    }
    waiting.clear();
    match waiting.try_extend_from_slice(bytes) {
        Ok(()) => {}
        Err(_) => write_whole(sink, bytes)?,
    }
    Ok(())
}
