//! Judges a run text line by line.

ghost use Rattle.std.specs.Prelude.{◌≡◌, ◌<◌, ℕ, [], IfOk, IsTrue, OnErr, List, Option, None};
ghost use Rattle.std.specs.Option.{option_copied};
ghost use Rattle.tb_model.specs.Facts.{History};
ghost use Rattle.tb_model.specs.LeastNames.{IsLeastName};
ghost use Rattle.tb_model.specs.Legal.{Cells};
ghost use Rattle.tb_plan.specs.Plans.{names_allowed};
ghost use Rattle.tb_runs.specs.Lines.{cells_at};
ghost use Rattle.tb_undo.specs.Readings.{IsUnendedBehind};
ghost use Rattle.tb_verdict.specs.Held.{Begins, Counts, HeadsBy, HeadsOn, Holds, IsAllowed, IsBehind, Judges, Runs};
ghost use Rattle.tb_verdict.specs.Judged.{AreOfRun};
ghost use Rattle.tb_verdict.specs.Memory.{LineTakes, MayTake, SaidTakes};
ghost use Rattle.tb_verdict.specs.Refusals.{refusal_of};
ghost use Rattle.tb_verdict.specs.Texts.{Sofar, Heading, Running, events_in, first_numbers, heading_events, history_in, start};

use crate::ending::Ending;
use crate::line_verdict::LineVerdict;
use crate::run_state::RunState;
use crate::taking::{refusal_for, take};
use crate::values::Values;
use indexmap::IndexMap;
use std::alloc::{AllocError, Global};
use tb_model::{Event, TaskName};
use tb_runs::{Said, Stage, Unread, read_event, read_line};

/// The most events of a run; one more wants memory.
const MOST: u32 = 4_294_967_294;

/// Judges a run text line by line. It retains no events: what it retains goes by the tasks, and by
/// the cells that were given a value.
#[derive(Drop)]
pub enum Judge {
    /// No event came yet; the cells that have a first value, and the task that there is.
    Heading {
        stage: Stage,
        firsts: Values,
        root: TaskName,
    },
    /// The count of the events so far, and what is stored of them.
    Running {
        count: u32,
        state: RunState,
    },
}

/// Judges an event where no more are counted: one that may follow wants memory.
fn refuse_event(
    state: &RunState,
    step: Option<u64>,
    event: &Event,
) -> Result<LineVerdict, AllocError>
    requires run { AreOfRun state.now }
    requires allowed { IsTrue (names_allowed state.now.cells event.now.action) }
    ensures ok { IfOk result (λ v. (first : Cells) (H : History) (count : ℕ) → Holds first H count state.now →
        Counts first H step event.now v count state.now) }
    ensures memory { OnErr result ((first : Cells) (H : History) (count : ℕ) → Holds first H count state.now →
        MayTake (refusal_of first H step event.now)) }
{
    match refusal_for(state, step, event)? {
        Some(refusal) => Ok(LineVerdict::Ends {
            ending: Ending::Refused { refusal },
        }),
        None => Err(AllocError),
    }
}

/// Counts an event and takes it, where it may follow.
fn count_event(
    state: &mut RunState,
    count: &mut u32,
    step: Option<u64>,
    event: Event,
) -> Result<LineVerdict, AllocError>
    requires run { (first : Cells) × (H : History) × Holds first H count.old state.old }
    requires allowed { IsTrue (names_allowed state.old.cells event.action) }
    ensures ok { IfOk result (λ v. (first : Cells) (H : History) → Holds first H count.old state.old →
        Counts first H step event v count.new state.new) }
    ensures err { OnErr result ((first : Cells) (H : History) → Holds first H count.old state.old →
        Holds first H count.new state.new) }
    ensures memory { OnErr result ((first : Cells) (H : History) → Holds first H count.old state.old →
        MayTake (refusal_of first H step event)) }
{
    if *count >= MOST {
        return refuse_event(state, step, &event);
    }
    match take(state, step, &event)? {
        None => {
            *count += 1;
            Ok(LineVerdict::Taken { event: Some(event) })
        }
        Some(refusal) => Ok(LineVerdict::Ends {
            ending: Ending::Refused { refusal },
        }),
    }
}

/// Judges a line after the first event.
fn run_line(
    alloc: Global,
    state: &mut RunState,
    count: &mut u32,
    line: &[u8],
) -> Result<LineVerdict, AllocError>
    requires run { (first : Cells) × (H : History) × Holds first H count.old state.old }
    ensures ok { IfOk result (λ v. (first : Cells) (H : History) → Holds first H count.old state.old →
        Runs first H line.now v count.new state.new) }
    ensures err { OnErr result ((first : Cells) (H : History) → Holds first H count.old state.old →
        Holds first H count.new state.new) }
    ensures memory { OnErr result ((first : Cells) (H : History) → Holds first H count.old state.old →
        LineTakes (Running first H) line.now) }
{
    match read_event(alloc, state.cells, line) {
        Ok(Some(Said::Event { step, event })) => count_event(state, count, step, event),
        Ok(_) => Ok(LineVerdict::Taken { event: None }),
        Err(Unread::Faulty(fault)) => Ok(LineVerdict::Ends {
            ending: Ending::Faulty { fault },
        }),
        Err(Unread::Memory) => Err(AllocError),
    }
}

/// What a line in front of the events comes to.
#[derive(Drop)]
pub enum Headed {
    /// No event came yet.
    Stays,
    /// The count of the events, and what is stored of them; and the event that the line says, if it
    /// says one.
    Runs {
        count: u32,
        state: RunState,
        event: Option<Event>,
    },
    Ends {
        ending: Ending,
    },
}

/// The count of cells.
fn cells_at(stage: Stage) -> u32
    ensures { result ≡ cells_at stage }
{
    match stage {
        Stage::Begin => 0,
        Stage::Cells { count } | Stage::Events { count } => count,
    }
}

/// How many events there are in front of the first: none, or no number where no line had words.
fn heading_events(stage: Stage) -> Option<u32>
    ensures { result ≡ heading_events stage }
{
    match stage {
        Stage::Begin => None,
        Stage::Cells { .. } | Stage::Events { .. } => Some(0),
    }
}

/// Begins a run with its first event.
fn begin(
    alloc: Global,
    stage: Stage,
    firsts: &Values,
    step: Option<u64>,
    event: Event,
) -> Result<Headed, AllocError>
    requires { IsTrue (names_allowed (cells_at stage) event.action) }
    ensures { IfOk result (Begins (first_numbers (cells_at stage) firsts.now.entries) step event) }
{
    let mut state = RunState::new(alloc, cells_at(stage), firsts)?;
    let mut count = 0;
    match count_event(&mut state, &mut count, step, event)? {
        LineVerdict::Taken { event } => Ok(Headed::Runs {
            count,
            state,
            event,
        }),
        LineVerdict::Ends { ending } => Ok(Headed::Ends { ending }),
    }
}

/// What comes of what a line in front of the events says.
fn head_said(
    alloc: Global,
    stage: &mut Stage,
    firsts: &mut Values,
    said: Said,
) -> Result<Headed, AllocError>
    requires { IsAllowed stage.old said }
    ensures ok { IfOk result (HeadsOn stage.old firsts.old.entries said stage.new firsts.new.entries) }
    ensures err { OnErr result ((stage.new ≡ stage.old) × (firsts.new.entries ≡ firsts.old.entries)) }
    ensures memory { OnErr result (SaidTakes (Heading stage.old firsts.old.entries) said) }
{
    match said {
        Said::Cells { count } => {
            *stage = Stage::Cells { count };
            Ok(Headed::Stays)
        }
        Said::Cell { cell, value } => match firsts.insert(cell, value) {
            Ok(_) => Ok(Headed::Stays),
            Err(_) => Err(AllocError),
        },
        Said::Hist => Ok(Headed::Runs {
            count: 0,
            state: RunState::new(alloc, cells_at(*stage), firsts)?,
            event: None,
        }),
        Said::Event { step, event } => begin(alloc, *stage, firsts, step, event),
    }
}

/// Judges a line in front of the events, or the first of these.
fn head_line(
    alloc: Global,
    stage: &mut Stage,
    firsts: &mut Values,
    line: &[u8],
) -> Result<Headed, AllocError>
    ensures ok { IfOk result (HeadsBy stage.old firsts.old.entries line.now stage.new firsts.new.entries) }
    ensures err { OnErr result ((stage.new ≡ stage.old) × (firsts.new.entries ≡ firsts.old.entries)) }
    ensures memory { OnErr result (LineTakes (Heading stage.old firsts.old.entries) line.now) }
{
    match read_line(alloc, firsts, *stage, line) {
        Ok(Some(said)) => head_said(alloc, stage, firsts, said),
        Ok(None) => Ok(Headed::Stays),
        Err(Unread::Faulty(fault)) => Ok(Headed::Ends {
            ending: Ending::Faulty { fault },
        }),
        Err(Unread::Memory) => Err(AllocError),
    }
}

impl Judge {
    /// A judge of a text of which no line was read.
    pub fn new(alloc: Global) -> Judge
        ensures { IsBehind result start }
    {
        Judge::Heading {
            stage: Stage::Begin,
            firsts: IndexMap::new(alloc),
            root: TaskName::root(alloc),
        }
    }

    /// Judges the next line. One at which the judgement ends changes nothing, nor does one for which
    /// memory is wanted.
    pub fn take_line(&mut self, alloc: Global, line: &[u8]) -> Result<LineVerdict, AllocError>
        requires { (s : Sofar) × IsBehind self.old s }
        ensures ok { IfOk result (λ v. (s : Sofar) → IsBehind self.old s →
            Judges s line.now self.new v) }
        ensures err { OnErr result ((s : Sofar) → IsBehind self.old s → IsBehind self.new s) }
        ensures memory { OnErr result ((s : Sofar) → IsBehind self.old s → LineTakes s line.now) }
    {
        match self {
            Judge::Running { count, state } => run_line(alloc, state, count, line),
            Judge::Heading { .. } => self.judge_in_general(alloc, line),
        }
    }

    /// Judges the next line, whether an event came or not.
    // out of line: the lines after the first event don't pay for its stack frame
    #[inline(never)]
    fn judge_in_general(&mut self, alloc: Global, line: &[u8]) -> Result<LineVerdict, AllocError>
        requires { (s : Sofar) × IsBehind self.old s }
        ensures ok { IfOk result (λ v. (s : Sofar) → IsBehind self.old s →
            Judges s line.now self.new v) }
        ensures err { OnErr result ((s : Sofar) → IsBehind self.old s → IsBehind self.new s) }
        ensures memory { OnErr result ((s : Sofar) → IsBehind self.old s → LineTakes s line.now) }
    {
        match self {
            Judge::Running { count, state } => run_line(alloc, state, count, line),
            Judge::Heading { stage, firsts, .. } => match head_line(alloc, stage, firsts, line)? {
                Headed::Stays => Ok(LineVerdict::Taken { event: None }),
                Headed::Ends { ending } => Ok(LineVerdict::Ends { ending }),
                Headed::Runs {
                    count,
                    state,
                    event,
                } => {
                    *self = Judge::Running { count, state };
                    Ok(LineVerdict::Taken { event })
                }
            },
        }
    }

    /// How many events were taken, or None where no line had words.
    pub fn events(&self) -> Option<u32>
        ensures { (s : Sofar) → IsBehind self.now s → result ≡ events_in s }
    {
        match self {
            Judge::Heading { stage, .. } => heading_events(*stage),
            Judge::Running { count, .. } => Some(*count),
        }
    }

    /// The least unended task after this one by the order of names, or the least of all where none
    /// is given.
    pub fn next_unended(&self, after: Option<&TaskName>) -> Option<&TaskName>
        ensures { (s : Sofar) → IsBehind self.now s →
            IsLeastName (IsUnendedBehind (history_in s) (option_copied after.entry)) (option_copied result) }
    {
        match (self, after) {
            (Judge::Running { state, .. }, _) => state.tables.next_unended(after),
            (Judge::Heading { root, .. }, None) => Some(root),
            (Judge::Heading { .. }, Some(_)) => None,
        }
    }
}
