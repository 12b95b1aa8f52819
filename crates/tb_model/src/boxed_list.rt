//! A list that is mostly empty, or of one element.

ghost use Rattle.std.specs.Prelude.{◌≡◌, [], IfOk, OnOk, OnErr, ◌++◌, ◌∷◌};
ghost use Rattle.std.specs.Mem.{FitsInMemory};
ghost use Rattle.tb_model.specs.Boxed.{items_in};

use crate::listed::Listed;
use std::alloc::{AllocError, Global};
use std::marker::Model;
use std::slice;
use std::sync::Arc;

/// A list that takes less capacity than a vector. Up to one element takes no memory.
#[derive(Drop)]
pub(crate) struct BoxedList<T> {
    alloc: Global,
    list: Listed<T>,
}

impl<T> Model for BoxedList<T> {
    ghost use Rattle.std.specs.Prelude.{List};

    ghost Value = { List T };

    ghost use Rattle.tb_model.specs.Boxed.{items_in};

    ghost view = { λ a. items_in a.list };
}

impl<T: Copy> BoxedList<T> {
    /// No elements.
    pub fn new(alloc: Global) -> BoxedList<T>
        ensures { result ≡ [] }
    {
        BoxedList {
            alloc,
            list: Listed::Zero,
        }
    }

    /// Adds an element at the end.
    pub fn push(&mut self, element: T) -> Result<(), AllocError>
        requires { FitsInMemory T.row }
        ensures ok { OnOk result (self.new ≡ self.old ++ element ∷ []) }
        ensures err { OnErr result (self.new ≡ self.old) }
    {
        if let Listed::Many(list) = &mut self.list {
            list.push(element)?;
            return Ok(());
        }
        self.list = self.grown(element)?;
        Ok(())
    }

    fn grown(&self, element: T) -> Result<Listed<T>, AllocError>
        requires { FitsInMemory T.row }
        ensures { IfOk result (λ list. items_in list ≡ self.now ++ element ∷ []) }
    {
        let elements = self.as_slice();
        if elements.is_empty() {
            return Ok(Listed::One(element));
        }
        let mut list = Vec::from_slice(self.alloc, elements)?;
        list.push(element)?;
        Ok(Listed::Many(Box::new(self.alloc, list)?))
    }

    /// The elements, in order.
    pub fn as_slice(&self) -> &[T]
        requires { FitsInMemory T.row }
        ensures { result.now ≡ self.now }
    {
        match &self.list {
            Listed::Zero => &[],
            Listed::One(element) => slice::from_ref(element),
            Listed::Many(list) => list.as_slice(),
            Listed::Shared(list) => list.as_slice(),
        }
    }

    /// A copy of it. A copy of a copy takes no memory.
    pub fn copy(&self) -> Result<BoxedList<T>, AllocError>
        ensures { IfOk result (λ c. c ≡ self.now) }
    {
        let list = match &self.list {
            Listed::Zero => Listed::Zero,
            Listed::One(element) => Listed::One(*element),
            Listed::Many(list) => {
                let elements = Vec::from_slice(self.alloc, list.as_slice())?;
                Listed::Shared(Arc::new(self.alloc, elements)?)
            }
            Listed::Shared(list) => Listed::Shared(Arc::try_clone(list)?),
        };
        Ok(BoxedList {
            alloc: self.alloc,
            list,
        })
    }
}
