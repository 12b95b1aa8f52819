//! A history that grows by lines, and questions about it.

use crate::line;
use std::alloc::{AllocError, Global};
use tb_draft::Draft;
use tb_model::{Action, Event, StepId};
use tb_plain::{is_legal, is_removed, last, own, printed, removed, without};
use tb_view::write_step;

/// The cells' first values, and the events from the newest.
#[derive(Drop)]
pub(crate) struct Run {
    alloc: Global,
    cells: Vec<i64>,
    history: Vec<Event>,
}

impl Run {
    pub(crate) fn new(alloc: Global) -> Run {
        Run {
            alloc,
            cells: Vec::new(alloc),
            history: Vec::new(alloc),
        }
    }

    /// Works on a line, and appends what there is to say.
    pub(crate) fn answer(&mut self, text: &mut String, line: &str) -> Result<(), AllocError> {
        let words: Vec<&str> = line.split_whitespace().collect(self.alloc)?;
        match words.as_slice() {
            [] => Ok(()),
            ["row", name] => writeln!(text, "row {name}"),
            ["cells", numbers @ ..] => self.begin(numbers),
            ["out"] => self.write_printed(text),
            ["cell", cell] => self.write_cell(text, *cell),
            ["roll", id] => self.roll(text, *id),
            ["who", id] => self.write_needers(text, *id),
            ["why", id] => self.write_needed(text, *id),
            words => self.step(text, words),
        }
    }

    fn begin(&mut self, numbers: &[&str]) -> Result<(), AllocError> {
        let mut cells = Vec::new(self.alloc);
        for number in numbers {
            cells.push(number.parse().unwrap_or(0))?;
        }
        self.cells = cells;
        self.history = Vec::new(self.alloc);
        Ok(())
    }

    /// Adds the step where the history stays legal, and says so where it doesn't.
    fn step(&mut self, text: &mut String, words: &[&str]) -> Result<(), AllocError> {
        let Some((id, event)) = line::step(self.alloc, words)? else {
            return writeln!(text, "no step");
        };
        let mut longer = self.history.clone()?;
        longer.insert(0, event)?;
        if !is_legal(self.alloc, self.cells.as_slice(), longer.as_slice())? {
            return writeln!(text, "not legal");
        }
        let k = own(self.alloc, longer.as_slice(), &id.task)?.len();
        self.history = longer;
        if k == id.k as usize {
            Ok(())
        } else {
            writeln!(text, "step {k}")
        }
    }

    fn write_printed(&self, text: &mut String) -> Result<(), AllocError> {
        let numbers = printed(self.alloc, self.history.as_slice())?;
        writeln!(text, "out {}", numbers.len())?;
        for number in numbers.iter().rev() {
            writeln!(text, "{number}")?;
        }
        Ok(())
    }

    fn write_cell(&self, text: &mut String, cell: &str) -> Result<(), AllocError> {
        let cell: u32 = cell.parse().unwrap_or(0);
        let first = self.cells.get(cell as usize).copied().unwrap_or(0);
        let number = last(self.history.as_slice(), first, cell);
        writeln!(text, "{cell} {number}")
    }

    fn roll(&mut self, text: &mut String, id: &str) -> Result<(), AllocError> {
        let Ok(step) = StepId::parse(self.alloc, id.as_bytes()) else {
            return writeln!(text, "no step");
        };
        let gone = removed(self.alloc, &step, self.history.as_slice())?;
        writeln!(text, "rolled {}", gone.len())?;
        self.write_removed(text, &step, 0)?;
        self.history = without(self.alloc, &step, self.history.as_slice())?;
        Ok(())
    }

    fn write_needers(&self, text: &mut String, id: &str) -> Result<(), AllocError> {
        let Ok(step) = StepId::parse(self.alloc, id.as_bytes()) else {
            return writeln!(text, "no step");
        };
        let gone = removed(self.alloc, &step, self.history.as_slice())?;
        writeln!(text, "who {}", gone.len().saturating_sub(1))?;
        self.write_removed(text, &step, 1)
    }

    /// The lines of the step and of all that need it, without the first few.
    fn write_removed(
        &self,
        text: &mut String,
        step: &StepId,
        skipped: usize,
    ) -> Result<(), AllocError> {
        let events = self.history.as_slice();
        let mut found = 0usize;
        for at in (0..events.len()).rev() {
            let front = &events[at + 1..];
            if is_removed(self.alloc, step, front, &events[at])? {
                if found >= skipped {
                    self.write_line(text, front, &events[at])?;
                }
                found = found.saturating_add(1);
            }
        }
        Ok(())
    }

    /// The lines of the steps that a step needs.
    fn write_needed(&self, text: &mut String, id: &str) -> Result<(), AllocError> {
        let Ok(step) = StepId::parse(self.alloc, id.as_bytes()) else {
            return writeln!(text, "no step");
        };
        let events = self.history.as_slice();
        let mut lines = String::new(self.alloc);
        let mut count = 0u32;
        for at in 0..events.len() {
            if self.number(&events[at + 1..], &events[at])? == step.k
                && events[at].task == step.task
            {
                count = self.write_causes(&mut lines, &events[at + 1..], &events[at])?;
            }
        }
        writeln!(text, "why {count}")?;
        text.push_str(lines.as_str())
    }

    /// The lines of the events in front that the event needs, and how many these are.
    fn write_causes(
        &self,
        text: &mut String,
        front: &[Event],
        event: &Event,
    ) -> Result<u32, AllocError> {
        let mut count = 0u32;
        for at in (0..front.len()).rev() {
            let cause = StepId {
                task: front[at].task.clone()?,
                k: self.number(&front[at + 1..], &front[at])?,
            };
            if is_removed(self.alloc, &cause, front, event)? {
                self.write_line(text, &front[at + 1..], &front[at])?;
                count = count.saturating_add(1);
            }
        }
        Ok(count)
    }

    /// The number of an event among those of its task.
    fn number(&self, front: &[Event], event: &Event) -> Result<u32, AllocError> {
        let before = own(self.alloc, front, &event.task)?.len();
        Ok(u32::try_from(before).unwrap_or(0).saturating_add(1))
    }

    fn write_line(
        &self,
        text: &mut String,
        front: &[Event],
        event: &Event,
    ) -> Result<(), AllocError> {
        let mut body = String::new(self.alloc);
        if let Action::Spawn(spawned) = &event.action {
            body.push(char::from_u32(spawned.get().body).unwrap_or('?'))?;
        }
        let k = self.number(front, event)?;
        let mut line = Draft::new(self.alloc);
        write_step(&mut line, body.as_str(), &event.task, k, &event.action)?;
        line.push('\n')?;
        text.push_str(line.into_string()?.as_str())
    }
}
