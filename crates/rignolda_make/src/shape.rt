ghost use Rattle.std.specs.Prelude.{◌≡◌, ◌<◌, ◌≤◌, ◌+◌, ◌++◌, ◌∷◌, [], length, IfOk, OnOk};
ghost use Rattle.rignolda_make.specs.DrawnTrees.{below, parent_drawn, parents_drawn, labels_drawn};
ghost use Rattle.rignolda_make.specs.DrawnTrees.{lawful_or, link_drawn, link_if_child, links_drawn};
ghost use Rattle.rignolda_make.specs.DrawnTrees.{is_inner};

use rand_core::Rng;
use stab_frames::Params;
use std::alloc::{AllocError, Global};

/// The next word of the generator as a number below this one.
#[tactic(auto, unfolding(crate::specs::DrawnTrees::below))]
pub(crate) fn below<R: Rng>(rng: &mut R, count: u32) -> u32
    requires { 1 ≤ count }
    ensures small { result < count }
    ensures drawn { (result, R.stream rng.new) ≡ below count (R.stream rng.old) }
{
    rng.next_u32() % count
}

/// The parent of the node at this place, where the root is at `root`.
#[tactic(auto, unfolding(crate::specs::DrawnTrees::parent_drawn))]
fn draw_parent<R: Rng>(rng: &mut R, nodes: u32, reach: u32, root: u32, place: u32) -> Option<usize>
    requires few { nodes ≤ 64 }
    requires reaching { 1 ≤ reach }
    requires rooted { root < nodes }
    requires of_tree { place < nodes }
    ensures { (result ∷ [], R.stream rng.new)
        ≡ parent_drawn nodes reach root place (R.stream rng.old) }
{
    let rank = (place + nodes - root) % nodes;
    if rank == 0 {
        return None;
    }
    let above = rank - 1 - below(rng, rank.min(reach));
    Some(((above + root) % nodes) as usize)
}

/// The parents of a random tree, by their places; the root is at any of them.
///
/// The nodes have ranks, and each but that of rank 0 has one of the `reach` ranks before its own as
/// its parent: where `reach` is 1, the tree is a chain. A node is as many places after the root as
/// its rank says, and after the last place comes the first.
#[tactic(auto, unfolding(crate::specs::DrawnTrees::parents_drawn))]
pub(crate) fn draw_parents<R: Rng>(
    alloc: Global,
    rng: &mut R,
    nodes: u16,
) -> Result<Vec<Option<usize>>, AllocError>
    requires some { 1 ≤ nodes }
    requires few { nodes ≤ 64 }
    ensures drawn { IfOk result (λ parents.
        (parents.items, R.stream rng.new) ≡ parents_drawn nodes (R.stream rng.old)) }
{
    let nodes = u32::from(nodes);
    let reach = 1 + below(rng, nodes);
    let root = below(rng, nodes);
    let mut parents = Vec::with_capacity(alloc, nodes as usize)?;
    for place in 0..nodes {
        parents.push(draw_parent(rng, nodes, reach, root, place))?;
    }
    Ok(parents)
}

/// A link of a drawn tree: the place of its child, and its parameters.
#[derive(Clone, Copy)]
pub(crate) struct DrawnLink {
    pub(crate) child: usize,
    pub(crate) params: Params,
    pub(crate) are_own: bool,
}

/// How many labels a link of this capacity has.
#[tactic(auto, unfolding(crate::specs::DrawnTrees::labels_drawn))]
fn draw_labels<R: Rng>(rng: &mut R, of_job: Params, are_drawn: bool, capacity: u16) -> u16
    requires { capacity ≤ 64 }
    ensures { (result, R.stream rng.new)
        ≡ labels_drawn of_job are_drawn capacity (R.stream rng.old) }
{
    if are_drawn {
        2 * capacity + 2 + below(rng, 8) as u16
    } else {
        of_job.labels()
    }
}

/// These parameters, where they are lawful, and else those of the job.
fn lawful_or(of_job: Params, capacity: u16, labels: u16) -> Params
    ensures { result ≡ lawful_or of_job capacity labels }
{
    match Params::new(capacity, labels) {
        Ok(params) => params,
        Err(_) => of_job,
    }
}

/// The link into the node at this place: one time in four with the parameters of the job, and
/// otherwise with a capacity up to theirs, and with their labels, or, where `are_drawn`, with 0 to
/// 7 labels more than the fewest that this capacity allows.
#[tactic(auto, unfolding(crate::specs::DrawnTrees::link_drawn))]
fn draw_link<R: Rng>(rng: &mut R, child: usize, of_job: Params, are_drawn: bool) -> DrawnLink
    ensures { (result, R.stream rng.new) ≡ link_drawn of_job are_drawn child (R.stream rng.old) }
{
    let most = u32::from(of_job.capacity());
    let are_own = below(rng, 4) > 0;
    let capacity = (1 + below(rng, most)) as u16;
    let labels = draw_labels(rng, of_job, are_drawn, capacity);
    let params = if are_own {
        lawful_or(of_job, capacity, labels)
    } else {
        of_job
    };
    DrawnLink {
        child,
        params,
        are_own,
    }
}

/// The links of a tree with these parents, in the file order of their children.
#[tactic(auto, unfolding(crate::specs::DrawnTrees::links_drawn))]
pub(crate) fn draw_links<R: Rng>(
    alloc: Global,
    rng: &mut R,
    parents: &[Option<usize>],
    of_job: Params,
    are_drawn: bool,
) -> Result<Vec<DrawnLink>, AllocError>
    ensures { IfOk result (λ links. (links.items, R.stream rng.new)
        ≡ links_drawn of_job are_drawn parents.now (R.stream rng.old)) }
{
    let mut links = Vec::new(alloc);
    for place in 0..parents.len() {
        push_drawn_link(rng, &mut links, parents, place, of_job, are_drawn)?;
    }
    Ok(links)
}

/// Adds the link into the node at this place, where it has a parent.
#[tactic(auto, unfolding(crate::specs::DrawnTrees::link_if_child))]
fn push_drawn_link<R: Rng>(
    rng: &mut R,
    links: &mut Vec<DrawnLink>,
    parents: &[Option<usize>],
    place: usize,
    of_job: Params,
    are_drawn: bool,
) -> Result<(), AllocError>
    requires { place < length parents.now }
    ensures link { OnOk result (links.new.items ≡ links.old.items
        ++ (link_if_child of_job are_drawn parents.now place (R.stream rng.old)).0) }
    ensures words { OnOk result (R.stream rng.new
        ≡ (link_if_child of_job are_drawn parents.now place (R.stream rng.old)).1) }
{
    if parents[place].is_some() {
        links.push(draw_link(rng, place, of_job, are_drawn))?;
    }
    Ok(())
}

/// Whether the node at this place has a parent and is one.
pub(crate) fn is_inner(parents: &[Option<usize>], place: usize) -> bool
    ensures { result ≡ is_inner parents.now place }
{
    let has_parent = matches!(parents.get(place), Some(Some(_)));
    has_parent && parents.contains(&Some(place))
}
