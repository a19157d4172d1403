ghost use Rattle.std.specs.Prelude.{◌≡◌, ◌<◌, ◌⊎◌, ℕ, List, [], ◌∷◌, ◌++◌, length, map, slice_get};
ghost use Rattle.std.specs.Prelude.{Some, IfOk, IfSome, IsTrue};
ghost use Rattle.stab_job.specs.Steps.{AreNodesOf};

use stab_tree::{NodeId, Tree};
use std::alloc::{AllocError, Global};
use std::marker::Model;

/// How many slots there are: four for each of the most names.
const SLOTS: usize = 256;

/// The most names: a tree has no more nodes.
const MAX_NAMES: usize = 64;

/// What a slot has that is empty: more than the place of any name.
const EMPTY: u8 = 255;

/// Different names. Its slots say where to look, so a name is compared with one or two others,
/// however many there are. A place is answered only where the name is there, so no fact rests on
/// what is in a slot.
#[derive(Drop)]
pub struct Names {
    list: Vec<String>,
    slots: [u8; SLOTS],
}

impl Model for Names {
    ghost use Rattle.std.specs.Prelude.{ℕ, List, map, string_bytes};

    ghost Value = { List (List ℕ) };

    ghost view = { λ n. map string_bytes n.list.items };
}

/// The slot at which the search for a name begins.
fn first_slot(name: &str) -> usize
    ensures { result < SLOTS }
{
    let mut hash: u32 = 2_166_136_261;
    for byte in name.as_bytes() {
        hash = (hash ^ u32::from(*byte)).wrapping_mul(16_777_619);
    }
    (hash % 256) as usize
}

/// Puts the place of a name into the first empty slot for it.
fn fill_slot(slots: &mut [u8; SLOTS], name: &str, place: u8) {
    let first = first_slot(name);
    for step in 0..SLOTS {
        let slot = (first + step) % SLOTS;
        if slots[slot] == EMPTY {
            slots[slot] = place;
            return;
        }
    }
}

impl Names {
    /// No names.
    pub fn new(alloc: Global) -> Names
        ensures { result ≡ [] }
    {
        Names {
            list: Vec::new(alloc),
            slots: [EMPTY; SLOTS],
        }
    }

    /// How many names there are.
    fn len(&self) -> usize
        ensures { result ≡ length self.now }
    {
        self.list.len()
    }

    /// The name at a place.
    fn at(&self, place: usize) -> &str
        requires { place < length self.now }
        ensures { slice_get self.now place ≡ Some result.now }
    {
        self.list[place].as_str()
    }

    /// Whether a name is at a place.
    fn is_at(&self, place: usize, name: &str) -> bool
        requires { place < length self.now }
        ensures { IsTrue result → slice_get self.now place ≡ Some name.now }
    {
        self.at(place) == name
    }

    /// The nodes of the names in a tree, where each is that of a node.
    pub fn nodes_of(&self, alloc: Global, tree: &Tree) -> Result<Option<Vec<NodeId>>, AllocError>
        ensures { IfOk result (λ found. IfSome found (λ nodes.
            AreNodesOf tree.now.names self.now nodes.items)) }
    {
        let mut nodes = Vec::with_capacity(alloc, self.len())?;
        'each: for place in 0..self.len() {
            let Some(node) = tree.find(self.at(place)) else {
                return Ok(None);
            };
            nodes.push(node)?;
        }
        Ok(Some(nodes))
    }

    /// The place of a name, which is added where it is not found; none where there are too many.
    pub fn place(&mut self, alloc: Global, name: &str) -> Result<Option<u16>, AllocError>
        ensures grown { (self.new ≡ self.old) ⊎ (self.new ≡ self.old ++ name.now ∷ []) }
        ensures place { IfOk result (λ found. IfSome found (λ place.
            slice_get self.new place ≡ Some name.now)) }
    {
        match self.find(name) {
            Some(place) => Ok(Some(place)),
            None => self.add(alloc, name),
        }
    }

    /// The place of a name, where it is found.
    fn find(&self, name: &str) -> Option<u16>
        ensures { IfSome result (λ place. slice_get self.now place ≡ Some name.now) }
    {
        let first = first_slot(name);
        for step in 0..SLOTS {
            let place = usize::from(self.slots[(first + step) % SLOTS]);
            if place >= self.len() {
                return None;
            }
            if self.is_at(place, name) {
                return Some(place as u16);
            }
        }
        None
    }

    /// Adds a name, and answers its place; none where there are too many.
    fn add(&mut self, alloc: Global, name: &str) -> Result<Option<u16>, AllocError>
        ensures grown { (self.new ≡ self.old) ⊎ (self.new ≡ self.old ++ name.now ∷ []) }
        ensures place { IfOk result (λ found. IfSome found (λ place.
            slice_get self.new place ≡ Some name.now)) }
    {
        let place = self.list.len();
        if place >= MAX_NAMES {
            return Ok(None);
        }
        self.list.push(String::from_str(alloc, name)?)?;
        fill_slot(&mut self.slots, name, place as u8);
        Ok(Some(place as u16))
    }
}
