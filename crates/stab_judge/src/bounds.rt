ghost use Rattle.std.specs.Prelude.{◌≡◌, ◌<◌, ◌≤◌, ◌+◌, ◌*◌, length};
ghost use Rattle.stab_tree.specs.NodeOpenings.{hold_at};
ghost use Rattle.stab_judge.specs.NodeBounds.{AreBoundsAt};
ghost use Rattle.stab_treecore.specs.SharperLaw.{fewest_missing};

use crate::judge::Judge;
use stab_tree::NodeId;
use stab_treecore::is_inner;

/// What the laws allow a node: sums over the links and nodes on its path to the root.
#[derive(Clone, Copy, Debug, PartialEq, Eq)]
pub struct Bounds {
    /// The number of links from the root to the node.
    pub depth: u16,
    /// C: the most strays that come of links, the capacities on the path added.
    pub link_strays: u64,
    /// E: the most strays that come of openings, what each inner node on the path may hold added.
    pub opening_strays: u64,
    /// M: how many of the first published items may be missing, 2c + 1 for each link on the path.
    pub missing: u64,
}

impl<'a> Judge<'a> {
    /// How many items the opening of a node may have.
    fn most_held(&self, node: NodeId) -> u16
        requires { node < length self.now.tree.parents }
        ensures { result ≡ hold_at self.now.tree.parents self.now.openings.hold node }
    {
        if is_inner(self.tree, node) {
            self.openings.hold()
        } else {
            0
        }
    }

    /// The bounds of a node of the tree.
    pub fn bounds_at(&self, node: NodeId) -> Bounds
        requires { node < length self.now.tree.parents }
        ensures sums { AreBoundsAt self.now node result }
        // Each link and each node on the path adds a `u16`.
        ensures few { result.link_strays + result.opening_strays ≤ 131070 * result.depth }
    {
        let mut bounds = Bounds {
            depth: self.tree.depth(node),
            link_strays: 0,
            opening_strays: 0,
            missing: 0,
        };
        let mut at = node;
        'links: for _ in 0..bounds.depth {
            let capacity = u64::from(self.capacity_into(at));
            bounds.link_strays += capacity;
            bounds.opening_strays += u64::from(self.most_held(at));
            bounds.missing += 2 * capacity + 1;
            match self.tree.parent(at) {
                None => return bounds,
                Some(parent) => at = parent,
            }
        }
        bounds
    }

    /// How many of the first published items may be missing at a node whatever it received, by the
    /// sharper law: `2c + 1` for one link of its path and `c + 1` for each above it, where that is
    /// most. Where it received no strays it is `c + 1` for each link, `missing - link_strays` of its
    /// [`Bounds`], and one more for each stray.
    pub fn fewest_missing(&self, node: NodeId) -> u64
        requires { node < length self.now.tree.parents }
        ensures { result ≡ fewest_missing self.now node }
    {
        let mut paid: u64 = 0;
        let mut more: u64 = 0;
        let mut at = node;
        'links: for _ in 0..self.tree.depth(node) {
            let capacity = u64::from(self.capacity_into(at));
            more = more.max(capacity.saturating_sub(paid));
            paid += capacity + 1;
            match self.tree.parent(at) {
                None => return paid + more,
                Some(parent) => at = parent,
            }
        }
        paid + more
    }
}
