/// What a body is about.
#[derive(Clone, Copy, Debug, PartialEq, Eq)]
pub enum Kind {
    /// Settings that changed.
    Changes,
    /// All settings.
    Table,
    /// Nothing: it may be lost, or come at any time.
    Harmless,
}

/// What a body has before its entries.
#[derive(Clone, Copy, Debug, PartialEq, Eq)]
pub struct Head {
    /// What it is about.
    pub kind: Kind,
    /// Its number.
    pub number: u64,
    /// How many entries it has.
    pub count: u32,
}

/// A key and its value, or none where it is unset, as they lie in the bytes of a body.
#[derive(Clone, Copy)]
pub struct Entry<'a> {
    /// The key.
    pub key: &'a [u8],
    /// The value.
    pub value: Option<&'a [u8]>,
}
