ghost use Rattle.std.specs.Prelude.{◌≡◌, ◌↔◌, [], ◌∷◌, ◌++◌, length, is_ok, IfOk, IsTrue};
ghost use Rattle.std.specs.Prelude.{if◌then◌else◌};

use std::alloc::{AllocError, Global};
use std::marker::Model;

/// A list that grows at its end. Contracts see its elements alone, not where they lie in memory.
#[derive(Debug, Drop)]
pub struct Sequence<T> {
    elements: Vec<T>,
}

impl<T> Model for Sequence<T> {
    ghost use Rattle.std.specs.Prelude.{List};
    ghost use Rattle.std.specs.Coded.{coded_list};

    ghost Value = { List T };

    ghost coded = { coded_list T.code };

    ghost view = { λ s. s.elements.items };
}

impl<T> Sequence<T> {
    /// An empty sequence. It takes no memory.
    pub fn new(alloc: Global) -> Sequence<T>
        ensures { result ≡ [] }
    {
        Sequence {
            elements: Vec::new(alloc),
        }
    }

    /// An empty sequence with room for `capacity` elements.
    pub fn with_capacity(alloc: Global, capacity: usize) -> Result<Sequence<T>, AllocError>
        ensures { IfOk result (λ s. s ≡ []) }
    {
        Ok(Sequence {
            elements: Vec::with_capacity(alloc, capacity)?,
        })
    }

    /// The elements of a `Vec`, in their order. It takes no memory.
    pub fn from_vec(elements: Vec<T>) -> Sequence<T>
        ensures { result ≡ elements.items }
    {
        Sequence { elements }
    }

    /// The `Vec` of the elements, in their order. It takes no memory.
    pub fn into_vec(self) -> Vec<T>
        ensures { result.items ≡ self }
    {
        let Sequence { elements } = self;
        elements
    }

    /// A sequence of the same elements.
    pub fn copy(&self, alloc: Global) -> Result<Sequence<T>, AllocError>
    where
        T: Copy,
        ensures { IfOk result (λ s. s ≡ self.now) }
    {
        Ok(Sequence {
            elements: Vec::from_slice(alloc, self.elements.as_slice())?,
        })
    }

    /// The elements, in their order.
    pub fn as_slice(&self) -> &[T]
        ensures { result.now ≡ self.now }
    {
        self.elements.as_slice()
    }

    /// How many elements there are.
    pub fn len(&self) -> usize
        ensures { result ≡ length self.now }
    {
        self.elements.len()
    }

    /// Whether there is no element.
    pub fn is_empty(&self) -> bool
        ensures { IsTrue result ↔ (self.now ≡ []) }
    {
        self.elements.is_empty()
    }

    /// Adds an element at the end. Where memory is refused, the sequence stays as it was.
    pub fn push(&mut self, element: T) -> Result<(), AllocError>
    where
        T: Drop,
        ensures { self.new ≡ (if is_ok result then self.old ++ element ∷ [] else self.old) }
    {
        self.elements.push(element)?;
        Ok(())
    }
}
