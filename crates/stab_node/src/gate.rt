//! What decides when a worker's next turn begins.

ghost use Rattle.std.specs.Prelude.{true, false, ◌≡◌, ℕ};

/// Lets the turns of workers begin, one by one. All workers of a run share one gate, so a gate can
/// hold one back until another has come as far; each call of it must return.
///
/// A gate's meaning is three facts of its own choice, which what calls `work` learns from it.
pub trait Gate {
    // what is known where the gate refuses this turn of this node; a gate that refuses none says
    // that it cannot be
    ghost may_refuse: { Self → ℕ → ℕ → Type 0 };

    // what is known once the gate let this turn of this node begin
    ghost has_passed: { Self → ℕ → ℕ → Type 0 };

    // what is known once this node said that it is done
    ghost is_done: { Self → ℕ → Type 0 };

    /// Whether this turn of this node may begin; turns count from 1. False ends the worker.
    fn pass(&self, node: u16, turn: u32) -> bool
        ensures refused { result ≡ false → may_refuse self.now node turn }
        ensures passed { result ≡ true → has_passed self.now node turn };

    /// Takes note that this node makes no further turn and has made its last call on its ends but
    /// `finish`. It is called once for each node of a run, also for one whose worker could not be
    /// started.
    fn done(&self, node: u16)
        ensures { is_done self.now node };
}
