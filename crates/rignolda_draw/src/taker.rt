//! What takes the rows of a run.

ghost use Rattle.std.specs.Prelude.{◌≡◌, [], ◌∷◌, List, OnOk};
ghost use Rattle.rignolda_draw.specs.Rows.{row_of};
ghost use Rattle.rignolda_draw.specs.Takes.{TakesNone, TakesOn};
ghost use Rattle.rignolda_draw.specs.declared.row.Row.{Row};

use crate::row::Row;
use stab_core::Link;
use stab_tree::{NodeId, Tree};
use stab_treecore::{Change, TreeState};
use std::alloc::AllocError;

/// What takes the rows of a run, one after the other.
pub(crate) trait TakesRows {
    // It has taken these rows.
    ghost HasTaken: { Self → List Row → Type 0 };

    /// Takes the link into the next node at its start, where one leads into it.
    fn start(&mut self, node: NodeId, link: Option<&Link>) -> Result<(), AllocError>
        ensures { OnOk result (TakesNone HasTaken self.old self.new) };

    /// Takes the next row, with its link after the event. What takes it may refuse it for another
    /// reason than memory, which it then keeps.
    fn take(&mut self, row: Row, link: &Link) -> Result<(), AllocError>
        requires { row ≡ row_of row.child row.event row.effect link.now }
        ensures { OnOk result (TakesOn HasTaken self.old (row ∷ []) self.new) };
}

/// What takes the rows of a scenario, and what happens between them.
pub(crate) trait TakesSteps: TakesRows {
    /// Takes what comes next as that of the step of this number.
    fn begin_step(&mut self, number: u64)
        ensures { TakesNone Self.HasTaken self.old self.new };

    /// Takes that a round of all links begins: its word, and that it is round `place` of `count`.
    fn round(&mut self, word: &str, place: u64, count: u16) -> Result<(), AllocError>
        ensures { OnOk result (TakesNone Self.HasTaken self.old self.new) };

    /// Takes what is published, or a fault, with the tree after it.
    fn changed(&mut self, change: &Change, tree: &Tree, state: &TreeState) -> Result<(), AllocError>
        ensures { OnOk result (TakesNone Self.HasTaken self.old self.new) };
}

/// A list keeps the rows.
impl TakesRows for Vec<Row> {
    ghost HasTaken = { λ list rows. list.items ≡ rows };

    fn start(&mut self, _node: NodeId, _link: Option<&Link>) -> Result<(), AllocError> {
        Ok(())
    }

    fn take(&mut self, row: Row, _link: &Link) -> Result<(), AllocError> {
        self.push(row)?;
        Ok(())
    }
}

/// And nothing else.
impl TakesSteps for Vec<Row> {
    fn begin_step(&mut self, _number: u64) {}

    fn round(&mut self, _word: &str, _place: u64, _count: u16) -> Result<(), AllocError> {
        Ok(())
    }

    fn changed(
        &mut self,
        _change: &Change,
        _tree: &Tree,
        _state: &TreeState,
    ) -> Result<(), AllocError> {
        Ok(())
    }
}
