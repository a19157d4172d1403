use stab_treecore::Change;

/// What happens next in a scenario.
#[derive(Debug, Drop)]
pub enum Step {
    /// One change of the tree.
    One(Change),
    /// This number of rounds of all links, one after the other.
    Rounds(u16),
    /// This number of reading rounds of all links, one after the other.
    ReadingRounds(u16),
}
