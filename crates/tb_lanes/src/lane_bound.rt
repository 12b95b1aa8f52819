//! How far one lane is in front.

ghost use Rattle.std.specs.Prelude.{◌≡◌, ◌<◌, ◌≤◌, ◌+◌, IfSome, IsSome};

/// The greatest index and the most lanes that a bound speaks of.
const MOST: usize = 4_294_967_295;

/// Of the lane with this index the steps in front of an index, by 32 bits, since there are many
/// bounds.
#[derive(Clone, Copy)]
pub struct LaneBound {
    pub lane: u32,
    pub to: u32,
}

impl LaneBound {
    /// The lane up to the step at this index, with it. There is none beyond 32 bits.
    pub fn up_to(lane: usize, at: usize) -> Option<LaneBound>
        ensures some { IfSome result (λ bound. (bound.lane ≡ lane) × (bound.to ≡ at + 1)) }
        ensures succeeds { lane ≤ 4294967295 → at < 4294967295 → IsSome result }
    {
        if lane > MOST || at >= MOST {
            return None;
        }
        Some(LaneBound {
            lane: lane as u32,
            to: at as u32 + 1,
        })
    }
}
