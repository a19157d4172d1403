/// What the links of a run are.
#[derive(Clone, Copy, Debug, PartialEq, Eq, Hash)]
pub enum Links {
    /// Each is a state and its history, behind a lock.
    Locked,
    /// Each is two words, and has capacity one.
    Words,
    /// Each of capacity one is two words, and each other one is behind a lock.
    Mixed,
}
