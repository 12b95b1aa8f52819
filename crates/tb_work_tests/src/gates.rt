//! Where workers are between a claim and its commit.

use std::sync::atomic::AtomicU64;
use std::sync::atomic::Ordering::SeqCst;
use std::thread;
use tb_work::Gate;

/// How often a thread looks for another before it gives up. It yields each time.
pub const TURNS: u32 = 10_000_000;

/// How many calls of each of two seats are held back.
const KEPT: u64 = 5;

/// Blocks nobody.
#[derive(Drop)]
pub struct Open;

impl Gate for Open {
    fn between(&self, _seat: u32, _nth: u64) {}
}

/// Blocks each seat's nth call until the other seat's nth has come.
#[derive(Drop)]
pub struct Meeting {
    zero: AtomicU64,
    one: AtomicU64,
    given_up: AtomicU64,
}

impl Meeting {
    pub fn new() -> Meeting {
        Meeting {
            zero: AtomicU64::new(0),
            one: AtomicU64::new(0),
            given_up: AtomicU64::new(0),
        }
    }

    /// How many calls each seat has made.
    pub fn calls(&self) -> (u64, u64) {
        (self.zero.load(SeqCst), self.one.load(SeqCst))
    }

    /// Whether some seat stopped waiting for the other.
    pub fn has_given_up(&self) -> bool {
        self.given_up.load(SeqCst) > 0
    }
}

impl Gate for Meeting {
    fn between(&self, seat: u32, nth: u64) {
        let (mine, other) = if seat == 0 {
            (&self.zero, &self.one)
        } else {
            (&self.one, &self.zero)
        };
        mine.store(nth, SeqCst);
        if nth <= KEPT && !comes(other, nth) {
            self.given_up.store(1, SeqCst);
        }
    }
}

/// Whether the count comes to so many while one waits for it.
pub fn comes(count: &AtomicU64, many: u64) -> bool {
    for _turn in 0..TURNS {
        if count.load(SeqCst) >= many {
            return true;
        }
        thread::yield_now();
    }
    false
}

/// Says that some worker has come.
#[derive(Drop)]
pub struct Signal {
    pub called: AtomicU64,
}

impl Gate for Signal {
    fn between(&self, _seat: u32, _nth: u64) {
        self.called.store(1, SeqCst);
    }
}

/// Counts the calls.
#[derive(Drop)]
pub struct Counting {
    called: AtomicU64,
}

impl Counting {
    pub fn new() -> Counting {
        Counting {
            called: AtomicU64::new(0),
        }
    }

    pub fn calls(&self) -> u64 {
        self.called.load(SeqCst)
    }
}

impl Gate for Counting {
    fn between(&self, _seat: u32, _nth: u64) {
        self.called.fetch_add(1, SeqCst);
    }
}
