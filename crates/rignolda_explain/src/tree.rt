ghost use Rattle.std.specs.Prelude.{◌≡◌, ◌≢◌, Ok, IfOk, IfSome, IsNone};
ghost use Rattle.serde_json.specs.View.{view};
ghost use Rattle.stab_tree.specs.Nodes.{Nodes};
ghost use Rattle.stab_tree.specs.Read.{tree_of};

use crate::parents::{look_at_cycles, look_at_parents, look_at_roots};
use rignolda_findings::{Known, Notes, Piece, Place, look_at_members};
use serde_json::Value;
use stab_job::JobFault;
use stab_tree::{MAX_NODES, Tree, TreeFault, read_tree};
use std::alloc::AllocError;

/// What a tree is.
const TREE: &str = "a tree is a list of 1 to 64 nodes";

/// What a node is.
const NODE: &str = "a node is an object with a text \"name\" and, but for the root, a \"parent\"";

/// What a name is.
const NAME: &str = "a name is 1 to 32 bytes of a-z, 0-9, _ and -";

/// What a parent is.
const PARENT: &str = "a parent is the name of a node, or null for the root";

/// The members of a node.
const NODE_MEMBERS: Known = Known {
    what: "a node",
    names: &["name", "parent"],
    idle: &[],
    reason: "",
};

/// Adds a finding of a tree.
pub(crate) fn refuse_tree(
    notes: &mut Notes,
    fault: TreeFault,
    place: &Place<'_>,
    pieces: &[Piece<'_>],
) -> Result<(), AllocError> {
    notes.refuse(JobFault::Tree(fault), place, pieces)
}

/// The tree that the member of a job is, where it is one; otherwise what is wrong with it is added,
/// by the reader's checks, one after the other.
pub fn look_at_tree(notes: &mut Notes, tree: Option<&Value>) -> Result<Option<Tree>, AllocError>
    ensures tree { IfOk result (λ found. IfSome found (λ its_tree. IfSome tree.entry (λ value.
        tree_of (view value.now) ≡ Ok its_tree))) }
    ensures none { IfOk result (λ found. IsNone found → IfSome tree.entry (λ value.
        (its_tree : Nodes) → tree_of (view value.now) ≢ Ok its_tree)) }
{
    let Some(value) = tree else {
        return Ok(None);
    };
    match read_tree(notes.alloc(), value) {
        Ok(tree) => Ok(Some(tree)),
        Err(TreeFault::Memory) => Err(AllocError),
        Err(fault) => {
            look_at_checks(notes, value, fault)?;
            Ok(None)
        }
    }
}

/// Looks at the checks of a tree that is refused with this fault.
fn look_at_checks(notes: &mut Notes, value: &Value, fault: TreeFault) -> Result<(), AllocError> {
    let Some(nodes) = value.as_array() else {
        return add_tree(notes, TreeFault::Shape, value);
    };
    look_at_shapes(notes, nodes.as_slice())?;
    if nodes.len() > MAX_NODES {
        return refuse_tree(
            notes,
            TreeFault::TooManyNodes,
            &Place::member("tree"),
            &[
                Piece::Number(nodes.len() as u64),
                Piece::Words(" nodes are too many; "),
                Piece::Words(TREE),
            ],
        );
    }
    look_at_names(notes, nodes.as_slice())?;
    look_at_twins(notes, nodes.as_slice())?;
    look_at_parents(notes, nodes.as_slice())?;
    look_at_roots(notes, nodes.as_slice())?;
    if fault == TreeFault::Cycle {
        return look_at_cycles(notes, nodes.as_slice());
    }
    Ok(())
}

/// Adds that a value is no tree.
fn add_tree(notes: &mut Notes, fault: TreeFault, value: &Value) -> Result<(), AllocError> {
    refuse_tree(
        notes,
        fault,
        &Place::member("tree"),
        &[Piece::Found(value), Piece::Words("; "), Piece::Words(TREE)],
    )
}

/// Looks at the shapes of the nodes.
fn look_at_shapes(notes: &mut Notes, nodes: &[Value]) -> Result<(), AllocError> {
    for (i, node) in nodes.iter().enumerate() {
        if notes.is_done() {
            break;
        }
        look_at_shape(notes, Place::member("tree").entry(i), node)?;
    }
    Ok(())
}

/// Looks at the shape of a node.
fn look_at_shape(notes: &mut Notes, place: Place<'_>, node: &Value) -> Result<(), AllocError> {
    let Some(name) = node.get("name") else {
        return refuse_tree(
            notes,
            TreeFault::Shape,
            &place,
            &[Piece::Words("no \"name\"; "), Piece::Words(NODE)],
        );
    };
    if !name.is_string() {
        add_part(notes, &place.part("name"), name, NAME)?;
    }
    match node.get("parent") {
        Some(parent) if !parent.is_string() && !parent.is_null() => {
            add_part(notes, &place.part("parent"), parent, PARENT)
        }
        _ => Ok(()),
    }
}

/// Adds that a member of a node has another shape.
fn add_part<'x>(
    notes: &mut Notes,
    place: &Place<'_>,
    value: &'x Value,
    want: &'x str,
) -> Result<(), AllocError> {
    refuse_tree(
        notes,
        TreeFault::Shape,
        place,
        &[Piece::Found(value), Piece::Words("; "), Piece::Words(want)],
    )
}

/// The text that a member of a node is.
pub(crate) fn text_of<'v>(node: &'v Value, member: &str) -> Option<&'v str> {
    node.get(member)?.as_str()
}

/// The place of the first node of this name.
pub(crate) fn find(nodes: &[Value], name: &str) -> Option<usize> {
    for (i, node) in nodes.iter().enumerate() {
        if text_of(node, "name") == Some(name) {
            return Some(i);
        }
    }
    None
}

/// Whether a name is a lawful one.
fn is_name(name: &str) -> bool {
    let bytes = name.as_bytes();
    1 <= bytes.len() && bytes.len() <= 32 && bytes.iter().all(|b| is_name_byte(*b))
}

/// Whether a name may have this byte.
fn is_name_byte(byte: u8) -> bool {
    matches!(byte, b'a'..=b'z' | b'0'..=b'9' | b'_' | b'-')
}

/// Looks whether the names are lawful.
fn look_at_names(notes: &mut Notes, nodes: &[Value]) -> Result<(), AllocError> {
    for (i, node) in nodes.iter().enumerate() {
        match text_of(node, "name") {
            Some(name) if !is_name(name) => add_name(notes, i, name)?,
            _ => {}
        }
    }
    Ok(())
}

/// Adds that a name is not lawful.
fn add_name(notes: &mut Notes, node: usize, name: &str) -> Result<(), AllocError> {
    refuse_tree(
        notes,
        TreeFault::BadName,
        &Place::member("tree").entry(node).part("name"),
        &[Piece::Quoted(name), Piece::Words("; "), Piece::Words(NAME)],
    )
}

/// Looks whether each node has a name of its own.
fn look_at_twins(notes: &mut Notes, nodes: &[Value]) -> Result<(), AllocError> {
    for (i, node) in nodes.iter().enumerate() {
        if let Some(name) = text_of(node, "name") {
            match find(nodes, name) {
                Some(first) if first < i => add_twin(notes, i, name, first)?,
                _ => {}
            }
        }
    }
    Ok(())
}

/// Adds that an earlier node has the same name.
fn add_twin(notes: &mut Notes, node: usize, name: &str, first: usize) -> Result<(), AllocError> {
    refuse_tree(
        notes,
        TreeFault::SameName,
        &Place::member("tree").entry(node).part("name"),
        &[
            Piece::Quoted(name),
            Piece::Words(" is the name of tree["),
            Piece::Number(first as u64),
            Piece::Words("] already"),
        ],
    )
}

/// Looks for members of nodes that are not known.
pub fn look_at_nodes(notes: &mut Notes, tree: Option<&Value>) -> Result<(), AllocError> {
    let Some(Value::Array(nodes)) = tree else {
        return Ok(());
    };
    for (i, node) in nodes.iter().enumerate() {
        if notes.is_done() {
            break;
        }
        look_at_members(notes, Place::member("tree").entry(i), node, NODE_MEMBERS)?;
    }
    Ok(())
}
