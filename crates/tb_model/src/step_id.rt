//! The ordinal of a step.

ghost use Rattle.std.specs.Prelude.{◌≡◌, ◌<◌, ◌≤◌, ◌++◌, ◌↔◌, IfOk, OnOk, OnErr, IsErrOf, IsFalse, length, string_bytes};
ghost use Rattle.std.specs.List.{position_or_len};
ghost use Rattle.tb_model.specs.Spelling.{step_id_text, spells_step_id, spelled_step_id, spelled_name, before_hash, behind_hash, is_hash};
ghost use Rattle.tb_model.specs.Texts.{Begins};

use crate::name::TaskName;
use crate::name_refusal::NameRefusal;
use crate::name_text::append_name;
use crate::number_text::append_number;
use crate::ordinal::ordinal;
use crate::parts::Parts;
use std::alloc::{AllocError, Global};

/// The kth step of a task, `k` from 1. Its first step is its start.
#[derive(Clone, Debug, Drop, PartialEq, Eq, PartialOrd, Ord, Hash)]
pub struct StepId {
    pub task: TaskName,
    pub k: u32,
}

impl StepId {
    /// Appends the step as text: `0.1#3` for the third step of the root's first child.
    pub fn print(&self, text: &mut String) -> Result<(), AllocError>
        ensures ok { OnOk result (string_bytes text.new ≡ string_bytes text.old ++ step_id_text self.now) }
        ensures err { OnErr result (string_bytes text.new ≡ string_bytes text.old) }
    {
        let len = text.len();
        let printed = append_step_id(text, &self.task.parts(), self.k);
        if printed.is_err() {
            text.truncate(len);
        }
        printed
    }

    /// The step that the text spells. Takes memory only where its task's name has four ordinals or
    /// more.
    pub fn parse(alloc: Global, text: &[u8]) -> Result<StepId, NameRefusal>
        ensures id { IfOk result (λ id. id ≡ spelled_step_id text.now) }
        ensures text { IfOk result (λ id. step_id_text id ≡ text.now) }
        ensures bad { IsErrOf result NameRefusal.BadName ↔ IsFalse (spells_step_id text.now) }
        ensures memory { IsErrOf result NameRefusal.Memory → 3 < length (spelled_name (before_hash text.now)) }
    {
        match ordinal(behind_hash(text)) {
            None => Err(NameRefusal::BadName),
            Some(k) => match TaskName::parse(alloc, before_hash(text)) {
                Ok(task) => Ok(StepId { task, k }),
                Err(refusal) => Err(refusal),
            },
        }
    }
}

fn append_step_id(text: &mut String, task: &Parts<'_>, k: u32) -> Result<(), AllocError>
    ensures ok { OnOk result (string_bytes text.new ≡ string_bytes text.old ++ step_id_text (record { task = task.now; k = k })) }
    ensures begins { Begins (string_bytes text.old) (string_bytes text.new) }
{
    append_name(text, task)?;
    text.push('#')?;
    append_number(text, k)
}

// How many bytes are before the first `#`.
fn hash_at(text: &[u8]) -> usize
    ensures at { result ≡ position_or_len is_hash text.now }
    ensures within { result ≤ length text.now }
{
    text.iter().take_while(|b| **b != b'#').count()
}

fn before_hash(text: &[u8]) -> &[u8]
    ensures { result.now ≡ before_hash text.now }
{
    &text[..hash_at(text)]
}

fn behind_hash(text: &[u8]) -> &[u8]
    ensures { result.now ≡ behind_hash text.now }
{
    let at = hash_at(text);
    if at < text.len() {
        &text[at + 1..]
    } else {
        &[]
    }
}
