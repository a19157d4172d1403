ghost use Rattle.std.specs.Prelude.{◌≡◌, ◌≢◌, ◌<◌, ◌≤◌, ℕ, true, false, List, length, map};
ghost use Rattle.std.specs.Prelude.{string_bytes};
ghost use Rattle.std.specs.Prelude.{Some, Ok, Err, IfOk, IfErr, MatchResult, IsSome};
ghost use Rattle.serde_json.specs.Data.{Data};
ghost use Rattle.serde_json.specs.Find.{as_array};
ghost use Rattle.serde_json.specs.View.{view};
ghost use Rattle.stab_tree.specs.Entry.{Entry, entries_of, names_of};
ghost use Rattle.stab_tree.specs.Nodes.{most_nodes, parent_at};
ghost use Rattle.stab_tree.specs.Parents.{parents_of, root_count, have_depths};
ghost use Rattle.stab_tree.specs.Read.{AreNamed, AreParents, tree_of};
ghost use Rattle.stab_tree.specs.Stored.{AreDepths};

use crate::entry::EntryRef;
use crate::fault::TreeFault;
use crate::names::{self, MAX_NODES};
use crate::node::NodeId;
use crate::parents;
use crate::tree::Tree;
use serde_json::Value;
use stab_json::read_entries;
use std::alloc::Global;

/// Reads a list of nodes, each an object with a `name` and, but for the root, a `parent`: the tree
/// of the list, or the first check that it fails, each made over the whole list.
#[tactic(auto, unfolding(crate::specs::Read::tree_of))]
pub fn read_tree(alloc: Global, value: &Value) -> Result<Tree, TreeFault>
    ensures ok { IfOk result (λ tree. tree_of (view value.now) ≡ Ok tree) }
    ensures err { IfErr result (λ fault. fault ≢ TreeFault.Memory
        → tree_of (view value.now) ≡ Err fault) }
    ensures memory { result ≡ Err TreeFault.Memory → IsSome (as_array (view value.now)) }
{
    let Some(values) = value.as_array() else {
        return Err(TreeFault::Shape);
    };
    let Some(entries) = read_entries::<EntryRef<'_>>(alloc, values.as_slice())? else {
        return Err(TreeFault::Shape);
    };
    tree_of_entries(alloc, entries.as_slice())
}

/// The tree of these entries, or the first check that they fail.
#[tactic(auto, unfolding(crate::specs::Read::tree_of))]
fn tree_of_entries(alloc: Global, entries: &[EntryRef<'_>]) -> Result<Tree, TreeFault>
    ensures ok { IfOk result (λ tree. (d : Data) → entries_of d ≡ Some entries.now
        → tree_of d ≡ Ok tree) }
    ensures err { IfErr result (λ fault. fault ≢ TreeFault.Memory
        → (d : Data) → entries_of d ≡ Some entries.now → tree_of d ≡ Err fault) }
{
    check_names(entries)?;
    let names = names::copy_names(alloc, entries)?;
    let parents = read_parents(alloc, names.as_slice(), entries)?;
    let depths = read_depths(alloc, parents.as_slice())?;
    let root = parents::first_root(parents.as_slice());
    Ok(Tree::from_parts(names, parents, depths, root))
}

/// Whether there are at most 64 entries, and each has a lawful name of its own; or the first check
/// that they fail.
#[tactic(auto, unfolding(crate::specs::Read::tree_of))]
fn check_names(entries: &[EntryRef<'_>]) -> Result<(), TreeFault>
    ensures { MatchResult result
        (λ _. AreNamed entries.now)
        (λ fault. (d : Data) → entries_of d ≡ Some entries.now → tree_of d ≡ Err fault) }
{
    if entries.len() > MAX_NODES {
        return Err(TreeFault::TooManyNodes);
    }
    if !names::have_lawful_names(entries) {
        return Err(TreeFault::BadName);
    }
    if names::have_same_name(entries) {
        return Err(TreeFault::SameName);
    }
    Ok(())
}

/// The parents of the entries, of which one alone has none; or the first check that they fail.
#[tactic(auto, unfolding(crate::specs::Read::tree_of))]
fn read_parents(
    alloc: Global,
    names: &[String],
    entries: &[EntryRef<'_>],
) -> Result<Vec<Option<NodeId>>, TreeFault>
    requires { length names.now ≤ most_nodes }
    ensures ok { IfOk result (λ parents. AreParents
        (map string_bytes names.now) entries.now parents.items) }
    ensures err { IfErr result (λ fault. fault ≢ TreeFault.Memory
        → (d : Data) → entries_of d ≡ Some entries.now → AreNamed entries.now
        → map string_bytes names.now ≡ names_of entries.now → tree_of d ≡ Err fault) }
{
    let Some(parents) = parents::find_parents(alloc, names, entries)? else {
        return Err(TreeFault::UnknownParent);
    };
    check_roots(parents.as_slice())?;
    Ok(parents)
}

/// The depth of each node, where each has one.
fn read_depths(alloc: Global, parents: &[Option<NodeId>]) -> Result<Vec<u16>, TreeFault>
    requires few { length parents.now ≤ most_nodes }
    requires known { (w p : ℕ) → parent_at parents.now w ≡ Some p → p < length parents.now }
    ensures found { MatchResult result
        (λ _. have_depths parents.now ≡ true)
        (λ fault. fault ≢ TreeFault.Memory
        → (fault ≡ TreeFault.Cycle) × (have_depths parents.now ≡ false)) }
    ensures each { IfOk result (λ depths. AreDepths parents.now depths.items) }
{
    parents::find_depths(alloc, parents)?.ok_or(TreeFault::Cycle)
}

/// Whether one node alone has no parent; or the first check that these parents fail.
#[tactic(auto, unfolding(crate::specs::Read::tree_of))]
fn check_roots(parents: &[Option<NodeId>]) -> Result<(), TreeFault>
    ensures { MatchResult result
        (λ _. root_count parents.now ≡ 1)
        (λ fault. (d : Data) (entries : List Entry) → entries_of d ≡ Some entries
        → AreNamed entries → parents_of (names_of entries) entries ≡ Some parents.now
        → tree_of d ≡ Err fault) }
{
    let roots = parents::root_count(parents);
    if roots == 0 {
        return Err(TreeFault::NoRoot);
    }
    if roots > 1 {
        return Err(TreeFault::TwoRoots);
    }
    Ok(())
}
