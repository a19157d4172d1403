/// Why bytes are no body: the first fault that is met. Checksum and length of all bytes come first,
/// and then the fields from left to right, but the mark of an entry is looked at after its key, and
/// the order of the keys, and then what a table unsets, after the whole entry.
#[derive(Clone, Copy, Debug, PartialEq, Eq)]
pub enum Fault {
    /// Their checksum is not the item beside them.
    Unfit,
    /// There are more than 16 MiB.
    Large,
    /// They end within a field.
    Short,
    /// The first byte names no kind.
    NoKind,
    /// There are more entries than 65,536.
    Many,
    /// A byte before a key says neither that it is set nor that it is unset.
    NoMark,
    /// A key is none.
    NoKey,
    /// A key is not above the one before it.
    Order,
    /// A value is longer than 1 MiB.
    Long,
    /// A table unsets a key.
    Unset,
    /// Something follows the last entry.
    Trailing,
}
