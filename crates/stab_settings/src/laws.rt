//! Laws over lists, places and tables alone, so that they serve whatever carries the items. Each is
//! a function with an empty body; its contract is the law.
//!
//! They take the tree law of a node with any bounds, be it from the start or since a fault. The
//! tables that the root and the node had before the first item may be any ones, and need not agree.

ghost use Rattle.std.specs.Prelude.{ℕ, ◌+◌, ◌≤◌, List, ◌++◌, length, take, Contains};
ghost use Rattle.stab_settings.specs.Refreshes.{IsRefresh, IsSetBetween, SameBeside, reached};
ghost use Rattle.stab_settings.specs.Tables.{Reading, Table, apply_items};
ghost use Rattle.stab_treecore.specs.TreeLaw.{CompleteLaw, HalfTreeLawAt, TreeLaw};

/// Refreshed tables are the publisher's: once a node's list goes beyond a refresh that was
/// published after the first items that may be missing, the node's table has the same beside every
/// key in use as the root's had when the last item that the node has was published.
pub fn refreshed_tables_are_the_publishers()
    ensures { (reading : Reading) (most_strays most_missing : ℕ)
        (garbage published received : List ℕ)
        → TreeLaw most_strays most_missing garbage published received
        → (places : List ℕ) × HalfTreeLawAt most_strays garbage published received places
        × ((keys : List ℕ) (first after : ℕ) (at_root at_node : Table)
        → IsRefresh reading keys published first after
        → most_missing ≤ first → after ≤ reached places
        → SameBeside keys (apply_items reading at_node received)
        (apply_items reading at_root (take (reached places) published))) }
{}

/// Complete tables are the publisher's: where no published item is missing but for the first ones,
/// as once everything was handed on, one refresh after these is enough for the table that the root
/// has now. They stay the same as long as both go on with the same items.
pub fn complete_tables_are_the_publishers()
    ensures { (reading : Reading) (keys : List ℕ) (most_strays most_missing first after : ℕ)
        (garbage published received later : List ℕ) (at_root at_node : Table)
        → CompleteLaw most_strays most_missing garbage published received
        → IsRefresh reading keys published first after
        → most_missing ≤ first
        → SameBeside keys (apply_items reading at_node (received ++ later))
        (apply_items reading at_root (published ++ later)) }
{}

/// A table that is published item by item, or in one item, is a refresh, whatever is published
/// before and after it.
pub fn a_table_is_a_refresh()
    ensures { (reading : Reading) (keys before table rest : List ℕ)
        → ((key : ℕ) → Contains keys key → IsSetBetween reading table 0 (length table) key)
        → IsRefresh reading keys (before ++ (table ++ rest))
        (length before) (length before + length table) }
{}
