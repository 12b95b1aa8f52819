//! A list that is mostly empty, and takes two words.

ghost use Rattle.std.specs.Prelude.{◌≡◌, [], IfOk, OnOk, OnErr, ◌++◌, ◌∷◌};
ghost use Rattle.std.specs.Mem.{FitsInMemory};
ghost use Rattle.tb_model.specs.Heaped.{items_in};

use crate::heaped::Heaped;
use std::alloc::{AllocError, Global};
use std::marker::Model;
use std::slice;

/// A list that takes less capacity than a vector where it is empty. Its elements are on the heap.
#[derive(Drop, Debug)]
pub(crate) struct HeapList<T> {
    alloc: Global,
    list: Heaped<T>,
}

impl<T> Model for HeapList<T> {
    ghost use Rattle.std.specs.Prelude.{List};

    ghost Value = { List T };

    ghost use Rattle.tb_model.specs.Heaped.{items_in};

    ghost view = { λ a. items_in a.list };
}

impl<T: Copy> HeapList<T> {
    /// No elements. Takes no memory.
    pub fn new(alloc: Global) -> HeapList<T>
        ensures { result ≡ [] }
    {
        HeapList {
            alloc,
            list: Heaped::Zero,
        }
    }

    /// Adds an element at the end.
    pub fn push(&mut self, element: T) -> Result<(), AllocError>
        requires { FitsInMemory T.row }
        ensures ok { OnOk result (self.new ≡ self.old ++ element ∷ []) }
        ensures err { OnErr result (self.new ≡ self.old) }
    {
        if let Heaped::Many(list) = &mut self.list {
            list.push(element)?;
            return Ok(());
        }
        self.list = self.grown(element)?;
        Ok(())
    }

    fn grown(&self, element: T) -> Result<Heaped<T>, AllocError>
        requires { FitsInMemory T.row }
        ensures { IfOk result (λ list. items_in list ≡ self.now ++ element ∷ []) }
    {
        let elements = self.as_slice();
        if elements.is_empty() {
            return Ok(Heaped::One(Box::new(self.alloc, element)?));
        }
        let mut list = Vec::from_slice(self.alloc, elements)?;
        list.push(element)?;
        Ok(Heaped::Many(Box::new(self.alloc, list)?))
    }

    /// The elements, in order.
    pub fn as_slice(&self) -> &[T]
        requires { FitsInMemory T.row }
        ensures { result.now ≡ self.now }
    {
        match &self.list {
            Heaped::Zero => &[],
            Heaped::One(element) => slice::from_ref(&**element),
            Heaped::Many(list) => list.as_slice(),
        }
    }

    /// A copy of it, in memory of its own.
    pub fn copy(&self) -> Result<HeapList<T>, AllocError>
        ensures { IfOk result (λ c. c ≡ self.now) }
    {
        let list = match &self.list {
            Heaped::Zero => Heaped::Zero,
            Heaped::One(element) => Heaped::One(Box::new(self.alloc, **element)?),
            Heaped::Many(list) => {
                let elements = Vec::from_slice(self.alloc, list.as_slice())?;
                Heaped::Many(Box::new(self.alloc, elements)?)
            }
        };
        Ok(HeapList {
            alloc: self.alloc,
            list,
        })
    }
}
