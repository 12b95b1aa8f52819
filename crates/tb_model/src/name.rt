//! Names of tasks.

ghost use Rattle.std.specs.Prelude.{◌≡◌, ◌<◌, ◌≤◌, IfOk, IsOk, IsErrOf, OnOk, OnErr, IfSome, IfNone, IsFalse, ◌↔◌, [], ◌++◌, length, nat_lt, slice_get, string_bytes};
ghost use Rattle.std.specs.Cmp.Rules.{comparing};
ghost use Rattle.std.specs.Hash as fed;
ghost use Rattle.std.specs.Ordering.{as_partial_cmp};
ghost use Rattle.tb_model.specs.Names.{same_name, name_cmp, child, parent, is_child, is_elder, is_within};
ghost use Rattle.tb_model.specs.NameHash.{digest};
ghost use Rattle.tb_model.specs.Spelling.{name_text, spells_name, spelled_name};
ghost use Rattle.tb_model.specs.NameLaws.{same_name_equivalence, same_name_partial, name_cmp_total, name_cmp_ties, same_name_feeds, name_cmp_partial};

use crate::name_hash::digest;
use crate::name_order::compared;
use crate::name_refusal::NameRefusal;
use crate::name_text::{append_name, last_part, spells_name};
use crate::numbers::Numbers;
use crate::ordinal::ordinal;
use crate::parts::Parts;
use crate::within::ends_with;
use smallvec::SmallVec;
use std::alloc::{AllocError, Global};
use std::cmp::Ordering;
use std::hash::{Hash, Hasher};
use std::marker::Model;
use std::mem::size_of;

/// The name of a task. Contracts see the path from the task up to the root: the root is the empty
/// list, and the nth child of `t` is `n ∷ t`. The ordinals are in that order.
///
/// A name takes two words. Up to three ordinals are in them, and up to fourteen where each is below
/// 256; others are on the heap, once for all copies of the name. Where there are more than 128, the
/// names above and below share blocks of 128.
#[derive(Drop, Debug)]
pub struct TaskName {
    numbers: Numbers,
}

const _: () = prove!(size_of::<TaskName>() == 16);

impl Model for TaskName {
    ghost use Rattle.std.specs.Prelude.{List, ℕ};

    ghost Value = { List ℕ };

    ghost view = { λ a. a.numbers };

    ghost use Rattle.tb_model.specs.Names.{AreFromOne};

    ghost invariant = { λ a. AreFromOne a.numbers };
}

impl Clone for TaskName {
    ghost use Rattle.std.specs.Prelude.{◌≡◌, ◌≤◌, length};

    ghost is_clone = { λ a b. b ≡ a };

    ghost is_infallible = { λ a. length a ≤ 3 };

    // takes no memory: a name of more than three ordinals has one more owner, and is refused where
    // it has nine quintillion
    #[inline(always)]
    fn clone(&self) -> Result<TaskName, AllocError> {
        let numbers = self.numbers.copy()?;
        Ok(TaskName { numbers })
    }
}

impl PartialEq for TaskName {
    ghost eq = { same_name };

    ghost laws = { same_name_partial };

    #[inline(always)]
    fn eq(&self, other: &TaskName) -> bool {
        self.numbers.is_same(&other.numbers)
    }
}

impl Eq for TaskName {
    ghost laws = { same_name_equivalence };
}

impl Ord for TaskName {
    ghost cmp = { name_cmp };

    ghost total = { name_cmp_total };

    ghost matches_partial_cmp = { λ _ _. Prim.search comparing };

    ghost matches_eq = { name_cmp_ties };

    fn cmp(&self, other: &TaskName) -> Ordering {
        compared(&self.numbers, &other.numbers)
    }
}

impl PartialOrd for TaskName {
    ghost partial_cmp = { as_partial_cmp name_cmp };

    ghost laws = { name_cmp_partial };

    fn partial_cmp(&self, other: &TaskName) -> Option<Ordering> {
        Some(self.cmp(other))
    }
}

impl Hash for TaskName {
    ghost hash_input = { λ t. fed.u32 (digest t) };

    ghost respects_eq = { same_name_feeds };

    fn hash<H: Hasher>(&self, state: &mut H) {
        digest(&self.numbers).hash(state);
    }
}

impl TaskName {
    /// The root's name. Takes no memory.
    pub fn root(alloc: Global) -> TaskName
        ensures { result ≡ [] }
    {
        TaskName {
            numbers: Numbers::new(alloc),
        }
    }

    /// The name of the nth child. Takes memory only where this has three ordinals or more.
    pub fn child(&self, n: u32) -> Result<TaskName, AllocError>
        requires { 0 < n }
        ensures child { IfOk result (λ c. c ≡ child self.now n) }
        ensures short { length self.now < 3 → IsOk result }
    {
        let numbers = self.numbers.child(n)?;
        Ok(TaskName { numbers })
    }

    /// The parent's name, which the root alone hasn't. Takes memory only where that has four
    /// ordinals or more.
    pub fn parent(&self) -> Result<Option<TaskName>, AllocError>
        ensures parent { IfOk result (λ p. p ≡ parent self.now) }
        ensures short { length self.now ≤ 4 → IsOk result }
    {
        match self.numbers.rest_in_place() {
            Some(numbers) => Ok(Some(TaskName { numbers })),
            None => self.parent_in_general(),
        }
    }

    /// The parent's name, which the root alone hasn't, for a name of any length.
    // out of line: a short name doesn't pay for its stack frame
    #[inline(never)]
    fn parent_in_general(&self) -> Result<Option<TaskName>, AllocError>
        ensures parent { IfOk result (λ p. p ≡ parent self.now) }
        ensures short { length self.now ≤ 4 → IsOk result }
    {
        match self.numbers.parts().split_first() {
            None => Ok(None),
            Some((_, parent)) => {
                let numbers = Numbers::from_parts(self.numbers.allocator(), &parent)?;
                Ok(Some(TaskName { numbers }))
            }
        }
    }

    /// Appends the name as text: `0` for the root, `0.1.12` for the twelfth child of its first.
    pub fn print(&self, text: &mut String) -> Result<(), AllocError>
        ensures ok { OnOk result (string_bytes text.new ≡ string_bytes text.old ++ name_text self.now) }
        ensures err { OnErr result (string_bytes text.new ≡ string_bytes text.old) }
    {
        let len = text.len();
        let printed = append_name(text, &self.numbers.parts());
        if printed.is_err() {
            text.truncate(len);
        }
        printed
    }

    /// The name that the text spells. Takes memory only where that has four ordinals or more.
    pub fn parse(alloc: Global, text: &[u8]) -> Result<TaskName, NameRefusal>
        ensures name { IfOk result (λ name. name ≡ spelled_name text.now) }
        ensures text { IfOk result (λ name. name_text name ≡ text.now) }
        ensures bad { IsErrOf result NameRefusal.BadName ↔ IsFalse (spells_name text.now) }
        ensures memory { IsErrOf result NameRefusal.Memory → 3 < length (spelled_name text.now) }
    {
        if !spells_name(text) {
            return Err(NameRefusal::BadName);
        }
        let mut numbers: SmallVec<u32, 8> = SmallVec::new(alloc);
        let mut rest = text;
        let mut at = last_part(rest);
        'parts: while at > 0 {
            let Some(number) = ordinal(&rest[at..]) else {
                return Err(NameRefusal::BadName);
            };
            numbers.push(number)?;
            rest = &rest[..at - 1];
            at = last_part(rest);
        }
        let numbers = Numbers::from_slice(alloc, numbers.as_slice())?;
        Ok(TaskName { numbers })
    }

    /// Which of its parent's children the task is, from 1, in the order of spawning. The root is none.
    pub fn ordinal(&self) -> Option<u32>
        ensures { result ≡ slice_get self.now 0 }
    {
        if let Some(numbers) = self.numbers.short() {
            return numbers.first().copied();
        }
        match self.numbers.few() {
            Some(few) => few.as_bytes().first().map(|n| u32::from(*n)),
            None => self.numbers.parts().first(),
        }
    }

    /// The ordinals, where there are at most three.
    #[inline(always)]
    pub fn short(&self) -> Option<&[u32]>
        ensures some { IfSome result (λ n. n.now ≡ self.now) }
        ensures none { IfNone result (3 < length self.now) }
    {
        self.numbers.short()
    }

    /// The ordinals, a byte each, where they are stored so: four to fourteen, each below 256.
    #[inline(always)]
    pub fn few(&self) -> Option<&[u8]>
        ensures { IfSome result (λ n. n.now ≡ self.now) }
    {
        match self.numbers.few() {
            Some(few) => Some(few.as_bytes()),
            None => None,
        }
    }

    /// Whether there are more than 128 levels between the root and the task.
    pub fn is_deep(&self) -> bool
        ensures { result ≡ nat_lt 128 (length self.now) }
    {
        !self.numbers.parts().far.is_empty()
    }

    /// The ordinals as they are in memory.
    #[inline(always)]
    pub fn parts(&self) -> Parts<'_>
        ensures { result ≡ self.now }
    {
        self.numbers.parts()
    }

    /// Whether the other is a child of this.
    pub fn is_parent_of(&self, other: &TaskName) -> bool
        ensures { result ≡ is_child self.now other.now }
    {
        match other.numbers.rest_in_place() {
            Some(rest) => rest.is_same(&self.numbers),
            None => self.is_parent_in_general(other),
        }
    }

    /// Whether the other is a child of this, for names of any length.
    // out of line: short names don't pay for its stack frame
    #[inline(never)]
    fn is_parent_in_general(&self, other: &TaskName) -> bool
        ensures { result ≡ is_child self.now other.now }
    {
        match other.numbers.parts().split_first() {
            None => false,
            Some((_, parent)) => parent.is_same(&self.numbers.parts()),
        }
    }

    /// Whether this is the other or a descendant of it.
    pub fn is_within(&self, ancestor: &TaskName) -> bool
        ensures { result ≡ is_within ancestor.now self.now }
    {
        ends_with(&self.numbers.parts(), &ancestor.numbers.parts())
    }

    /// Whether the two are children of one task, and this one was generated first.
    pub fn is_elder_of(&self, other: &TaskName) -> bool
        ensures { result ≡ is_elder self.now other.now }
    {
        match (
            self.numbers.parts().split_first(),
            other.numbers.parts().split_first(),
        ) {
            (Some((m, parent)), Some((n, others))) => m < n && parent.is_same(&others),
            _ => false,
        }
    }
}
