ghost use Rattle.std.specs.Prelude.{◌≡◌, [], ◌∷◌, ◌++◌, if◌then◌else◌, is_ok, MatchOption};

use std::alloc::{AllocError, Global};
use std::collections::VecDeque;
use std::marker::Model;

/// A list that grows at its end and is taken from its front. Contracts see its entries alone.
#[derive(Debug, Drop)]
pub struct Queue<T> {
    entries: VecDeque<T>,
}

impl<T> Model for Queue<T> {
    ghost use Rattle.std.specs.Prelude.{List};
    ghost use Rattle.std.specs.Coded.{coded_list};

    ghost Value = { List T };

    ghost coded = { coded_list T.code };

    ghost view = { λ queue. queue.entries.items };
}

impl<T> Queue<T> {
    /// An empty queue. It takes no memory.
    pub fn new(alloc: Global) -> Queue<T>
        ensures { result ≡ [] }
    {
        Queue {
            entries: VecDeque::new(alloc),
        }
    }

    /// The entries of a `Vec`, in their order. It takes no memory.
    pub fn from_vec(entries: Vec<T>) -> Queue<T>
        ensures { result ≡ entries.items }
    {
        Queue {
            entries: VecDeque::from(entries),
        }
    }

    /// The `Vec` of the entries, in their order. It takes no memory.
    pub fn into_vec(self) -> Vec<T>
        ensures { result.items ≡ self }
    {
        let Queue { entries } = self;
        Vec::from(entries)
    }

    /// Adds an entry at the end. Where memory is refused, the queue stays as it was.
    pub fn push(&mut self, entry: T) -> Result<(), AllocError>
    where
        T: Drop,
        ensures { self.new ≡ (if is_ok result then self.old ++ entry ∷ [] else self.old) }
    {
        self.entries.push_back(entry)?;
        Ok(())
    }

    /// Takes the first entry, where there is one.
    pub fn take(&mut self) -> Option<T>
        ensures { MatchOption result
            ((self.old ≡ []) × (self.new ≡ []))
            (λ entry. self.old ≡ entry ∷ self.new) }
    {
        self.entries.pop_front()
    }
}
