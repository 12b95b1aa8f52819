//! The ordinals of a name, as they are in memory.

ghost use Rattle.std.specs.Prelude.{◌≡◌, ◌≤◌, ◌<◌, ◌∷◌, ◌++◌, [], IfSome, IfNone, length, slice_get};
ghost use Rattle.tb_model.specs.Blocks.{far_numbers, AreFull, IsSplit};
ghost use Rattle.tb_model.specs.Names.{same_name};
ghost use Rattle.tb_model.specs.Spelling.{levels_text};

use crate::block::Block;
use crate::in_common::are_same;
use crate::run::Run;
use std::marker::Model;
use std::mem::replace;

/// A name's ordinals: those nearest to the task, up to 128, then those in the blocks, of which the
/// one at the root comes first.
#[derive(Drop)]
pub struct Parts<'a> {
    pub(crate) near: Run<'a>,
    pub(crate) far: &'a [Block],
}

impl<'a> Model for Parts<'a> {
    ghost use Rattle.std.specs.Prelude.{List, ℕ, ◌++◌};
    ghost use Rattle.tb_model.specs.Blocks.{far_numbers, IsSplit};

    ghost Value = { List ℕ };

    ghost view = { λ p. p.near ++ far_numbers p.far.now };

    ghost invariant = { λ p. IsSplit p.near p.far.now };
}

impl<'a> Parts<'a> {
    /// The first ordinal. The root has none.
    pub fn first(&self) -> Option<u32>
        ensures { result ≡ slice_get self.now 0 }
    {
        self.near.as_slice().first().copied()
    }

    /// The first ordinal, and those after it. The root has none.
    pub fn split_first(&self) -> Option<(u32, Parts<'a>)>
        ensures some { IfSome result (λ r. self.now ≡ r.0 ∷ r.1) }
        ensures none { IfNone result (self.now ≡ []) }
    {
        let [n, others @ ..] = self.near.as_slice() else {
            return None;
        };
        match self.far {
            [far @ .., last] if others.is_empty() => {
                let near = Run::of_slice(last.as_slice());
                Some((*n, Parts { near, far }))
            }
            far => {
                let near = self.near.without_first();
                Some((*n, Parts { near, far }))
            }
        }
    }

    /// Takes off the ordinals that are together nearest to the root, 128 at most. It takes none
    /// where there are no more.
    pub fn take_run(&mut self) -> Run<'a>
        ensures split { self.old ≡ self.new ++ result }
        ensures none { result ≡ [] → self.old ≡ [] }
        ensures few { length result ≤ 128 }
    {
        match self.far {
            [block, far @ ..] => {
                self.far = far;
                Run::of_slice(block.as_slice())
            }
            [] => replace(&mut self.near, Run::none()),
        }
    }

    /// Takes off the 128 ordinals nearest to the root, and returns them with their levels as text,
    /// where a block retains them so: where each has one digit. Takes none otherwise.
    pub fn take_spelled(&mut self) -> Option<(&'a [u32], &'a [u8])>
        ensures split { IfSome result (λ r. self.old ≡ self.new ++ r.0.now) }
        ensures text { IfSome result (λ r. r.1.now ≡ levels_text r.0.now) }
        ensures some { IfSome result (λ r. 0 < length r.0.now) }
        ensures none { IfNone result (self.new ≡ self.old) }
    {
        let [block, far @ ..] = self.far else {
            return None;
        };
        let text = block.text()?;
        self.far = far;
        Some((block.as_slice(), text))
    }

    /// Whether the ordinals are the same.
    pub fn is_same(&self, other: &Parts<'_>) -> bool
        ensures { result ≡ same_name self.now other.now }
    {
        let near = self.near.as_slice();
        let others = other.near.as_slice();
        if near.len() != others.len() || self.far.len() != other.far.len() {
            return false;
        }
        are_same(near, others) && are_same_blocks(self.far, other.far)
    }
}

/// Whether as many blocks have the same ordinals.
fn are_same_blocks(a: &[Block], b: &[Block]) -> bool
    requires long { length a.now ≡ length b.now }
    requires full { AreFull a.now × AreFull b.now }
    ensures { result ≡ same_name (far_numbers a.now) (far_numbers b.now) }
{
    let mut left = a;
    let mut right = b;
    'blocks: while let [x, more @ ..] = left {
        let [y, others @ ..] = right else {
            return false;
        };
        if !x.is_same(y) {
            return false;
        }
        left = more;
        right = others;
    }
    true
}
