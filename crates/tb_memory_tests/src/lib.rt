//! Memory that is refused, call by call. `tools/refuse_memory.py` runs each test once for each
//! allocation and refuses that one; the gate runs them with all memory, since no test can hand these
//! calls another allocator.
#![tactic(auto)]

/// The answer to a call. Where it was refused for memory, nothing has changed, and the same call made
/// again gives it.
#[cfg(test)]
macro_rules! again {
    ($rt:expr; $call:expr, $refused:pat, $unchanged:expr) => {
        match $call {
            Err($refused) => {
                assert!($rt; $unchanged);
                $call
            }
            answer => answer,
        }
    };
}

#[cfg(test)]
mod full;
#[cfg(test)]
mod history;
#[cfg(test)]
mod needs;
#[cfg(test)]
mod run;
#[cfg(test)]
mod seats;
