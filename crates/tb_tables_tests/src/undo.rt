//! A short run on the joined tables: what a call requires is proved of this run.

ghost use Rattle.std.specs.Prelude.{◌≡◌, [], ◌∷◌, ℤ, IfOk};
ghost use Rattle.tb_model.specs.declared.action.Action.TheVariants.{Start, Store};
ghost use Rattle.tb_undo.specs.State.{IsState};

use std::alloc::{AllocError, Global};
use std::mem;
use tb_model::{Action, Event, TaskName};
use tb_store::Replaced;
use tb_undo::Tables;

fn start(alloc: Global) -> Event
    ensures { result ≡ record { task = []; action = Start } }
{
    Event {
        task: TaskName::root(alloc),
        action: Action::Start,
    }
}

fn store(alloc: Global) -> Event
    ensures { result ≡ record { task = []; action = Store 0 (ℤ.pos 7) } }
{
    Event {
        task: TaskName::root(alloc),
        action: Action::Store { cell: 0, value: 7 },
    }
}

/// One cell, and the root's body at line 2. Where memory is refused it is asked for again.
fn opened(alloc: Global) -> Result<Tables, AllocError>
    ensures { IfOk result (IsState (ℤ.pos 5 ∷ []) 2 []) }
{
    match Tables::open(alloc, &[5], 2) {
        Ok(tables) => Ok(tables),
        Err(_) => Tables::open(alloc, &[5], 2),
    }
}

/// What the three steps replaced: the start, the store, and the store again.
#[derive(Drop)]
struct Replacements {
    begun: Replaced,
    stored: Replaced,
    again: Replaced,
}

/// The root starts and stores. The store is taken back and executed again. It returns what each of
/// the three steps replaced.
fn run(tables: &mut Tables, start: &Event, store: &Event) -> Result<Replacements, AllocError>
    requires state { IsState (ℤ.pos 5 ∷ []) 2 [] tables.old }
    requires start { start.now ≡ record { task = []; action = Start } }
    requires store { store.now ≡ record { task = []; action = Store 0 (ℤ.pos 7) } }
{
    let begun = tables.apply(start, 3)?;
    let stored = tables.apply(store, 4)?;
    tables.revert(store, stored);
    let again = tables.apply(store, 4)?;
    Ok(Replacements {
        begun,
        stored,
        again,
    })
}

/// Nothing but the opening takes memory in this run.
#[test]
fn a_refused_growth_changes_nothing(rt: HostRuntime) {
    let mut tables = opened(rt.alloc()).expect(&rt, "memory is there again");
    let start = start(rt.alloc());
    let store = store(rt.alloc());
    let Replacements {
        begun,
        stored,
        again,
    } = run(&mut tables, &start, &store).expect(&rt, "no memory is wanted");
    assert_eq!(rt; begun.at, 2);
    assert_eq!(rt; stored.at, 3);
    assert_eq!(rt; stored.number, Some(5));
    assert_eq!(rt; again.at, 3);
    assert_eq!(rt; again.number, Some(5));
    assert!(rt; tables.cells() == [7].as_slice());
    let end = Action::End;
    assert!(rt; tables.is_clear(&start.task, &end));
    mem::forget(end);
    mem::forget(start);
    mem::forget(store);
    mem::forget(tables);
}

/// The root starts, among the tasks alone.
fn begin(tables: &mut Tables, start: &Event) -> Result<(), AllocError>
    requires state { IsState (ℤ.pos 5 ∷ []) 2 [] tables.old }
    requires start { start.now ≡ record { task = []; action = Start } }
{
    tables.apply_tasks(start, 3)
}

#[test]
fn a_step_among_the_tasks_alone(rt: HostRuntime) {
    let mut tables = opened(rt.alloc()).expect(&rt, "there is memory");
    let start = start(rt.alloc());
    begin(&mut tables, &start).expect(&rt, "no memory is wanted");
    let steps = match tables.standing(&start.task) {
        Some(standing) => standing.steps(),
        None => 0,
    };
    assert!(rt; steps == 1);
    assert!(rt; tables.cells() == [5].as_slice());
    mem::forget(start);
    mem::forget(tables);
}
