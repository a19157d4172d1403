//! A list of acts, which several scripts can have in the same place.

ghost use Rattle.std.specs.Prelude.{◌≡◌, IfOk, length};

use std::alloc::{AllocError, Global};
use std::fmt;
use std::fmt::{Debug, Formatter, Write};
use std::marker::Model;
use std::sync::ArcSlice;

/// Where the acts of a list are.
#[derive(Drop)]
pub(crate) enum Place<A> {
    /// Nobody else has them.
    Own(Vec<A>),
    /// Copies of the list have the same ones.
    Shared(ArcSlice<A, Global>),
}

/// A list of acts, which never changes. Contracts see the acts alone, not where they are.
#[derive(Drop)]
pub(crate) struct ActList<A> {
    place: Place<A>,
}

impl<A> Model for ActList<A> {
    ghost use Rattle.std.specs.Prelude.{List};
    ghost use Rattle.std.specs.Coded.{coded_list};
    ghost use Rattle.stab_acts.specs.ActLists.{acts_at};

    ghost Value = { List A };

    ghost coded = { coded_list A.code };

    ghost view = { λ l. acts_at l.place };
}

impl<A: Debug> Debug for ActList<A> {
    fn fmt<W: Write>(&self, f: &mut Formatter<W>) -> fmt::Result {
        Debug::fmt(&self.as_slice(), f)
    }
}

impl<A> ActList<A> {
    /// The list of these acts. It takes no memory.
    pub(crate) fn from_vec(acts: Vec<A>) -> ActList<A>
        ensures { result ≡ acts.items }
    {
        ActList {
            place: Place::Own(acts),
        }
    }

    /// The acts, in their order.
    pub(crate) fn as_slice(&self) -> &[A]
        ensures { result.now ≡ self.now }
    {
        match &self.place {
            Place::Own(acts) => acts.as_slice(),
            Place::Shared(acts) => acts.as_slice(),
        }
    }

    /// How many acts there are.
    pub(crate) fn len(&self) -> usize
        ensures { result ≡ length self.now }
    {
        self.as_slice().len()
    }
}

impl<A: Drop> ActList<A> {
    /// The same list, of which every copy has the same acts in the same place.
    pub(crate) fn share(self) -> Result<ActList<A>, AllocError>
        ensures { IfOk result (λ list. list ≡ self) }
    {
        let ActList { place } = self;
        let acts = match place {
            Place::Own(acts) => ArcSlice::from_vec(acts)?,
            Place::Shared(acts) => acts,
        };
        Ok(ActList {
            place: Place::Shared(acts),
        })
    }
}

impl<A: Copy> ActList<A> {
    /// A list of the same acts. It has them in the same place where the list is shared, and shares
    /// its own with its copies.
    pub(crate) fn copy(&self, alloc: Global) -> Result<ActList<A>, AllocError>
        ensures { IfOk result (λ list. list ≡ self.now) }
    {
        let acts = match &self.place {
            Place::Own(acts) => ArcSlice::from_slice(alloc, acts.as_slice())?,
            Place::Shared(acts) => acts.clone()?,
        };
        Ok(ActList {
            place: Place::Shared(acts),
        })
    }
}
