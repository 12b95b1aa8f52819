//! Names of tasks and steps, as a run text spells them.

ghost use Rattle.std.specs.Prelude.{◌≡◌, ◌≤◌, ◌<◌, ◌^◌, IfOk, IfSome, IsTrue, OnErr, length};
ghost use Rattle.std.specs.List.{position_or_len};
ghost use Rattle.tb_model.specs.Spelling.{is_dot, is_hash, before_hash, behind_hash};
ghost use Rattle.tb_runs.specs.Memory.{is_long};
ghost use Rattle.tb_runs.specs.Names.{ordinal_of, last_child, last_step, task_of, id_of, next_of, numbered_of};

use crate::words::{behind, from};
use std::alloc::{AllocError, Global};
use tb_model::{NameRefusal, TaskName};
use tb_read::word::magnitude;

/// The greatest ordinal of a child.
const LAST_CHILD: u64 = 4_294_967_295;

/// The most bytes of a word that is read level by level. The time for a longer one would go by the
/// square of its levels.
const SHORT: usize = 64;

/// The greatest ordinal of a step.
pub const LAST_STEP: u64 = 9_999_999_999;

/// A step of a task: its next one, or the one with this ordinal.
#[derive(Debug, Drop)]
pub struct Id {
    pub task: TaskName,
    pub step: Option<u64>,
}

/// The number from 1 to `most` that the digits spell, which don't begin with 0.
#[tactic(auto, using(crate::proofs::OrdinalLemmas::ordinal_none))]
fn ordinal(digits: &[u8], most: u64) -> Option<u64>
    requires { most < 2 ^ 63 }
    ensures number { result ≡ ordinal_of most digits.now }
    ensures within { IfSome result (λ n. (0 < n) × (n ≤ most)) }
{
    if let [] | [b'0', ..] = digits {
        return None;
    }
    match magnitude(digits) {
        Some(n) => { if 0 < n && n <= most { Some(n) } else { None } }
        None => None,
    }
}

/// The ordinal of a child that the digits spell.
fn child_number(digits: &[u8]) -> Option<u32>
    ensures number { result ≡ ordinal_of last_child digits.now }
    ensures from_one { IfSome result (λ n. 0 < n) }
{
    match ordinal(digits, LAST_CHILD) {
        Some(n) => Some(n as u32),
        None => None,
    }
}

/// How many bytes come before the first dot.
fn level_len(bytes: &[u8]) -> usize
    ensures len { result ≡ position_or_len is_dot bytes.now }
    ensures within { result ≤ length bytes.now }
{
    bytes.iter().take_while(|b| **b != b'.').count()
}

/// The task that the word names, read level by level: each takes a copy of those in front.
#[tactic(auto, using(crate::proofs::NameLemmas::level_led, crate::proofs::NameLemmas::level_lost, crate::proofs::NameLemmas::undotted))]
fn read_levels(alloc: Global, word: &[u8]) -> Result<Option<TaskName>, AllocError>
    ensures ok { IfOk result (λ task. task ≡ task_of word.now) }
    ensures memory { OnErr result (IsTrue (is_long word.now)) }
{
    let [b'0', levels @ ..] = word else {
        return Ok(None);
    };
    let mut name = TaskName::root(alloc);
    let mut left = levels;
    while let [first, ..] = left {
        if *first != b'.' {
            return Ok(None);
        }
        let digits = behind(left, 0);
        let at = level_len(digits);
        let Some(n) = child_number(&digits[..at]) else {
            return Ok(None);
        };
        name = name.child(n)?;
        left = from(digits, at);
    }
    Ok(Some(name))
}

/// The task that the word names. Memory is wanted at most for a name of more than three ordinals.
pub fn read_task(alloc: Global, word: &[u8]) -> Result<Option<TaskName>, AllocError>
    ensures ok { IfOk result (λ task. task ≡ task_of word.now) }
    ensures memory { OnErr result (IsTrue (is_long word.now)) }
{
    if word.len() <= SHORT {
        return read_levels(alloc, word);
    }
    match TaskName::parse(alloc, word) {
        Ok(name) => Ok(Some(name)),
        Err(NameRefusal::Memory) => Err(AllocError),
        // A number may be above 1,000,000.
        Err(NameRefusal::BadName) => read_levels(alloc, word),
    }
}

/// How many bytes come before the first `#`.
pub fn hash_at(word: &[u8]) -> usize
    ensures len { result ≡ position_or_len is_hash word.now }
    ensures within { result ≤ length word.now }
{
    word.iter().take_while(|b| **b != b'#').count()
}

/// The step with this ordinal that the word names, where a `#` is at this index.
fn numbered(alloc: Global, word: &[u8], at: usize) -> Result<Option<Id>, AllocError>
    requires at { at ≡ position_or_len is_hash word.now }
    requires within { at < length word.now }
    ensures ok { IfOk result (λ id. id ≡ numbered_of word.now) }
    ensures memory { OnErr result (IsTrue (is_long word.now)) }
{
    let Some(task) = read_task(alloc, &word[..at])? else {
        return Ok(None);
    };
    match ordinal(behind(word, at), LAST_STEP) {
        Some(k) => Ok(Some(Id {
            task,
            step: Some(k),
        })),
        None => Ok(None),
    }
}

/// The step that the word names: a task's next, or by its number.
pub fn read_id(alloc: Global, word: &[u8]) -> Result<Option<Id>, AllocError>
    ensures ok { IfOk result (λ id. id ≡ id_of word.now) }
    ensures memory { OnErr result (IsTrue (is_long word.now)) }
{
    let at = hash_at(word);
    if at < word.len() {
        return numbered(alloc, word, at);
    }
    match read_task(alloc, word)? {
        Some(task) => Ok(Some(Id { task, step: None })),
        None => Ok(None),
    }
}
