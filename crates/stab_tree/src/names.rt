ghost use Rattle.std.specs.Prelude.{◌≡◌, ◌≤◌, IfOk, length, map, position, string_bytes};
ghost use Rattle.std.specs.List.{list_all, list_any};
ghost use Rattle.std.specs.Str.{bytes_eq};
ghost use Rattle.stab_tree.specs.Entry.{names_of};
ghost use Rattle.stab_tree.specs.Name.{is_name, has_same_name};
ghost use Rattle.stab_tree.specs.Nodes.{most_nodes, place_of};

use crate::entry::EntryRef;
use crate::name;
use crate::node::NodeId;
use std::alloc::{AllocError, Global};

/// The most nodes that a tree has.
pub const MAX_NODES: usize = 64;

/// Whether each entry has a lawful name.
pub(crate) fn have_lawful_names(entries: &[EntryRef<'_>]) -> bool
    ensures { result ≡ list_all is_name (names_of entries.now) }
{
    for entry in entries {
        if !name::is_name(entry.name()) {
            return false;
        }
    }
    true
}

/// Whether one of the entries has this name.
fn is_among(name: &str, entries: &[EntryRef<'_>]) -> bool
    ensures { result ≡ list_any (bytes_eq name.now) (names_of entries.now) }
{
    for entry in entries {
        if name == entry.name() {
            return true;
        }
    }
    false
}

/// Whether two entries have one name.
pub(crate) fn have_same_name(entries: &[EntryRef<'_>]) -> bool
    ensures { result ≡ has_same_name (names_of entries.now) }
{
    for i in 0..entries.len() {
        if is_among(entries[i].name(), &entries[i + 1..]) {
            return true;
        }
    }
    false
}

/// The names of the entries, copied in file order.
pub(crate) fn copy_names(alloc: Global, entries: &[EntryRef<'_>]) -> Result<Vec<String>, AllocError>
    ensures { IfOk result (λ names. map string_bytes names.items ≡ names_of entries.now) }
{
    let mut names = Vec::with_capacity(alloc, entries.len())?;
    for entry in entries {
        names.push(String::from_str(alloc, entry.name())?)?;
    }
    Ok(names)
}

/// The place of the first of these names that is that one.
fn first_place(names: &[String], name: &str) -> Option<usize>
    ensures { result ≡ position (λ s. bytes_eq (string_bytes s) name.now) names.now }
{
    names.iter().position(|s| s.as_str() == name)
}

/// The node of that name. It is compared with one name after the other: there are 64 at most, and a
/// hashed set in a tree makes every crate that has to do with trees dearer to prove.
pub(crate) fn find(names: &[String], name: &str) -> Option<NodeId>
    requires { length names.now ≤ most_nodes }
    ensures { result ≡ place_of (map string_bytes names.now) name.now }
{
    let place = first_place(names, name)?;
    Some(NodeId::new(place as u16))
}
