//! What is prepared for the next change.

ghost use Rattle.std.specs.Prelude.{◌≡◌, ◌↔◌, Some, None, IfSome, IfNone, IsSome, IsTrue};
ghost use Rattle.tb_live.specs.Preparing.{HoldsStep, HoldsRoll, held_event, held_names, held_roll};
ghost use Rattle.tb_live.specs.declared.prepared.Prepared.TheVariants as prepared;

use tb_model::{Event, StepId, TaskName};
use tb_roll::Ready;

/// An entry to come, with all that its change takes: the change itself takes no memory.
#[derive(Drop)]
pub enum Prepared {
    Step { seat: u32, event: Event },
    Roll { seat: u32, id: StepId, ready: Ready },
}

/// Whether a step of the task by the seat is prepared.
pub fn holds_step(given: &Option<Prepared>, seat: u32, task: &TaskName) -> bool
    ensures { IsTrue result ↔ HoldsStep given.now seat task.now }
{
    match given {
        Some(Prepared::Step { seat: whose, event }) => *whose == seat && event.task == *task,
        _ => false,
    }
}

/// The event of the step that is prepared. Nothing is prepared any longer.
pub fn take_step(place: &mut Option<Prepared>) -> Option<Event>
    ensures event { result ≡ held_event place.old }
    ensures after { place.new ≡ None }
{
    match place.take() {
        Some(Prepared::Step { seat: _, event }) => Some(event),
        _ => None,
    }
}

/// The event of a step that is prepared. Nothing is prepared any longer.
pub fn take_event(place: &mut Option<Prepared>) -> Event
    requires { IsSome (held_event place.old) }
    ensures event { held_event place.old ≡ Some result }
    ensures after { place.new ≡ None }
{
    match take_step(place) {
        Some(event) => event,
        None => unreachable!(),
    }
}

/// Whether the rollback of the step by the seat is prepared.
pub fn holds_roll(given: &Option<Prepared>, seat: u32, step: &StepId) -> bool
    ensures { IsTrue result ↔ HoldsRoll given.now seat step.now }
{
    match given {
        Some(
            Prepared::Roll {
                seat: whose,
                id,
                ready: _,
            },
        ) => *whose == seat && is_same_step(id, step),
        _ => false,
    }
}

/// The rollback of the step, where it is prepared for the seat: it is taken out then.
pub fn take_roll(place: &mut Option<Prepared>, seat: u32, step: &StepId) -> Option<(StepId, Ready)>
    ensures some { IfSome result (λ r.
        (place.old ≡ Some (prepared.Roll seat r.0 r.1)) × (r.0 ≡ step.now)) }
    ensures none { IfNone result (place.new ≡ place.old) }
    ensures found { HoldsRoll place.old seat step.now → IsSome result }
{
    if holds_roll(place, seat, step) {
        take_rollback(place)
    } else {
        None
    }
}

fn take_rollback(place: &mut Option<Prepared>) -> Option<(StepId, Ready)>
    ensures { result ≡ held_roll place.old }
{
    match place.take() {
        Some(Prepared::Roll { seat: _, id, ready }) => Some((id, ready)),
        _ => None,
    }
}

/// Two names of the step whose rollback is prepared. Nothing is prepared any longer.
pub fn take_names(place: &mut Option<Prepared>) -> Option<(StepId, StepId)>
    ensures names { result ≡ held_names place.old }
    ensures after { place.new ≡ None }
{
    match place.take() {
        Some(Prepared::Roll { seat: _, id, ready }) => Some((id, ready.rollback.step)),
        _ => None,
    }
}

fn is_same_step(a: &StepId, b: &StepId) -> bool
    ensures { IsTrue result ↔ (a.now ≡ b.now) }
{
    a.k == b.k && a.task == b.task
}

/// Retains what is prepared in place of what was.
pub fn keep(place: &mut Option<Prepared>, prepared: Prepared)
    ensures { place.new ≡ Some prepared }
{
    *place = Some(prepared);
}

/// Nothing is prepared any longer.
#[inline]
pub fn forget(place: &mut Option<Prepared>)
    ensures { place.new ≡ None }
{
    if place.is_some() {
        drop_prepared(place);
    }
}

/// Drops what is prepared, and leaves nothing.
// out of line: a step for which nothing is prepared doesn't pay for its stack frame
#[inline(never)]
fn drop_prepared(place: &mut Option<Prepared>)
    ensures { place.new ≡ None }
{
    *place = None;
}

/// The first of two events; the other one is dropped.
pub fn first_of(events: (Event, Event)) -> Event
    ensures { result ≡ events.0 }
{
    let (event, _other) = events;
    event
}
