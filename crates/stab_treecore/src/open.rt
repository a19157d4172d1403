//! What a whole tree begins with.

ghost use Rattle.std.specs.Prelude.{◌≡◌, ◌≢◌, ◌<◌, ℕ, List, All, OnOk, IfOk, IfErr, length, map};
ghost use Rattle.std.specs.Prelude.{slice_index_or};
ghost use Rattle.stab_core.specs.LinkSetup.{CanBegin, setups};
ghost use Rattle.stab_tree.specs.ByChild.{by_child};
ghost use Rattle.stab_tree.specs.NodeOpenings.{FitTree, OpeningsValue};
ghost use Rattle.stab_treecore.specs.Network.{IsNetwork, network_of};
ghost use Rattle.stab_treecore.specs.Refusals.{OnePerLink, IsOpeningReason, IsStartReason};
ghost use Rattle.stab_treecore.specs.TreeReplay.{opened};

use crate::fault::TreeStartFault;
use stab_core::{Link, Start, StartFault};
use stab_frames::{Item, Params};
use stab_tree::{NodeId, Openings, Tree};
use std::alloc::{AllocError, Global};

/// Sees whether a whole tree can begin from these starts. The parameters and the starts are in the
/// file order of the links' children. It takes no memory.
///
/// Lists that have not one entry for each link are refused, and then the first start that its link
/// cannot begin from: these are the refusals of [`TreeState::new`](crate::TreeState::new), but for
/// memory.
pub fn check_starts(params: &[Params], tree: &Tree, starts: &[Start]) -> Result<(), TreeStartFault>
    ensures params_per_link { OnOk result (OnePerLink tree.now.parents params.now) }
    ensures one_per_link { OnOk result (OnePerLink tree.now.parents starts.now) }
    ensures lawful { OnOk result (All CanBegin (setups params.now starts.now)) }
    ensures network { OnOk result ((published : List ℕ) (openings : OpeningsValue)
        → FitTree tree.now.parents openings
        → IsNetwork (network_of params.now tree.now published starts.now openings)) }
    ensures refused { IfErr result (IsStartReason params.now tree.now.parents starts.now) }
    ensures no_memory { IfErr result (λ fault. fault ≢ TreeStartFault.Start StartFault.Memory) }
{
    let links = usize::from(tree.link_count());
    if params.len() != links || starts.len() != links {
        return Err(TreeStartFault::StartCount);
    }
    check(params, starts)?;
    let _root = tree.root();
    Ok(())
}

/// Refuses the first start that its link cannot begin from. It takes no memory, so that no start is
/// refused after a list has grown.
fn check(params: &[Params], starts: &[Start]) -> Result<(), StartFault>
    requires one_each { length params.now ≡ length starts.now }
    ensures lawful { OnOk result (All CanBegin (setups params.now starts.now)) }
    ensures refused { IfErr result (IsOpeningReason (setups params.now starts.now)) }
    ensures no_memory { IfErr result (λ fault. fault ≢ StartFault.Memory) }
{
    'links: for place in 0..starts.len() {
        starts[place].check(params[place])?;
    }
    Ok(())
}

/// The link at this place of the lists, at its start.
fn link_at(
    alloc: Global,
    params: &[Params],
    starts: &[Start],
    place: usize,
) -> Result<Link, StartFault>
    requires in_params { place < length params.now }
    requires in_starts { place < length starts.now }
    requires lawful { All CanBegin (setups params.now starts.now) }
    ensures link { IfOk result (λ link.
        link ≡ slice_index_or (map opened (setups params.now starts.now)) place link) }
    ensures refused { IfErr result (IsOpeningReason (setups params.now starts.now)) }
{
    Link::new(alloc, params[place], &starts[place])
}

/// Each link at its start, beside its child.
pub(crate) fn links(
    alloc: Global,
    params: &[Params],
    parents: &[Option<NodeId>],
    starts: &[Start],
) -> Result<Vec<Option<Link>>, StartFault>
    requires params_per_link { OnePerLink parents.now params.now }
    requires one_per_link { OnePerLink parents.now starts.now }
    requires lawful { All CanBegin (setups params.now starts.now) }
    ensures links { IfOk result (λ links.
        links.items ≡ by_child parents.now (map opened (setups params.now starts.now))) }
    ensures refused { IfErr result (IsOpeningReason (setups params.now starts.now)) }
{
    let mut links = Vec::with_capacity(alloc, parents.len())?;
    let mut begun = 0;
    for parent in parents {
        match parent {
            None => links.push_reserved(None),
            Some(_) => {
                links.push_reserved(Some(link_at(alloc, params, starts, begun)?));
                begun += 1;
            }
        }
    }
    Ok(links)
}

/// What each node begins with: a copy of its opening.
pub(crate) fn lists(
    alloc: Global,
    tree: &Tree,
    openings: &Openings,
) -> Result<Vec<Vec<Item>>, AllocError>
    requires { FitTree tree.now.parents openings.now }
    ensures { IfOk result (λ lists. map (λ list. list.items) lists.items ≡ openings.now.lists) }
{
    let mut lists = Vec::with_capacity(alloc, usize::from(tree.len()))?;
    'nodes: for node in 0..tree.len() {
        lists.push_reserved(Vec::from_slice(alloc, openings.list(NodeId::new(node)))?);
    }
    Ok(lists)
}
