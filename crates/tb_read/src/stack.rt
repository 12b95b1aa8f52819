//! A vector as a stack, whose innermost entry is the last.

ghost use Rattle.std.specs.Prelude.{◌≡◌, ◌∷◌, drop, reverse, slice_get, OnOk};

use std::alloc::AllocError;

/// Adds an entry.
pub fn put<T: Copy>(stack: &mut Vec<T>, item: T) -> Result<(), AllocError>
    ensures { OnOk result (reverse stack.new.items ≡ item ∷ reverse stack.old.items) }
{
    Ok(stack.push(item)?)
}

/// Takes the innermost entry away, if there is one.
pub fn cut<T: Copy>(stack: &mut Vec<T>)
    ensures { reverse stack.new.items ≡ drop 1 (reverse stack.old.items) }
{
    let _ = stack.pop();
}

/// The innermost entry.
pub fn top<T: Copy>(stack: &[T]) -> Option<T>
    ensures { result ≡ slice_get (reverse stack.now) 0 }
{
    stack.last().copied()
}
