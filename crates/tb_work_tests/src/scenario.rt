//! What the threads of a test do with a run that they share.

use crate::beside::{go_beside_workers, pause_workers, roll_beside_workers};
use crate::bursts::{burst_in_turn, go_by_bursts, withdraw_a_burst};
use crate::goes::{fill, go_in_turn, roll_and_go, stop_at_a_breakpoint};
use crate::meeting::meet;
use crate::memory::go_and_roll_again;
use crate::withdrawn::{remove_a_claimed_step, remove_a_claimed_task};
use std::alloc::AllocGlobal;
use std::process::Abort;
use std::sync::Wait;
use std::thread::Threads;
use tb_work::{Seat, Shared, Team, Why};

/// What is played with the seats of a team.
#[derive(Clone, Copy, Drop)]
pub enum Scenario {
    RemoveStep,
    RemoveTask,
    Meet,
    Go { goes: &'static [(u32, u64, Why)] },
    Stop,
    Fill,
    RollAndGo,
    RollBeside,
    PauseBeside,
    GoBeside,
    Retry,
    Burst,
    GoByBursts,
    WithdrawBurst,
}

/// What is left of the run then.
#[derive(Clone, Copy, Drop)]
pub struct Left {
    pub steps: u32,
    // these two where the schedule doesn't decide them
    pub entries: Option<usize>,
    pub cells: Option<&'static [i64]>,
}

impl Scenario {
    pub fn play<N: Team + Send + Sync, R: Threads + Wait + Abort + AllocGlobal + Sync>(
        self,
        rt: &R,
        shared: &Shared<N>,
        seats: &mut [Seat<N>],
    ) {
        match self {
            Scenario::RemoveStep => remove_a_claimed_step(rt, shared, seats),
            Scenario::RemoveTask => remove_a_claimed_task(rt, shared, seats),
            Scenario::Meet => meet(rt, shared, seats),
            Scenario::Go { goes } => go_in_turn(rt, shared, seats, goes),
            Scenario::Stop => stop_at_a_breakpoint(rt, shared, seats),
            Scenario::Fill => fill(rt, shared, seats),
            Scenario::RollAndGo => roll_and_go(rt, shared, seats),
            Scenario::RollBeside => roll_beside_workers(rt, shared, seats),
            Scenario::PauseBeside => pause_workers(rt, shared, seats),
            Scenario::GoBeside => go_beside_workers(rt, shared, seats),
            Scenario::Retry => go_and_roll_again(rt, shared, seats),
            Scenario::Burst => burst_in_turn(rt, shared, seats),
            Scenario::GoByBursts => go_by_bursts(rt, shared, seats),
            Scenario::WithdrawBurst => withdraw_a_burst(rt, shared, seats),
        }
    }
}
