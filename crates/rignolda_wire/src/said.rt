/// What may come next on a connection.
#[derive(Clone, Copy, Debug, PartialEq, Eq)]
pub enum Expect {
    /// The first message.
    Hello,
    /// The way of a candidate.
    Way,
    /// The same, from version 5 on.
    NumberedWay,
    /// The messages of a parent.
    Frames,
    /// The same, from version 5 on.
    SignedFrames,
    /// Those of a child.
    Acks,
}

/// What an end says first.
#[derive(Clone, Copy)]
pub struct Greeting<'a> {
    /// Which version of the protocol the end speaks here.
    pub version: u8,
    /// A number that the process drew when it began. A look has the rank of a root instead, or 0.
    pub life: u64,
    /// What the receiver remembers; or, in a look and when a parent begins, a range of versions.
    pub label: u16,
    /// The end's own name.
    pub from: &'a [u8],
    /// The other end's, or nothing.
    pub to: &'a [u8],
}

/// A way from a root.
#[derive(Clone, Copy)]
pub struct Way<'a> {
    /// What it costs.
    pub cost: u16,
    /// The names on it, with a line feed between two.
    pub names: &'a [u8],
}

/// A frame.
#[derive(Clone, Copy)]
pub struct Frame<'a> {
    /// Its label.
    pub label: u16,
    /// Its item.
    pub item: u32,
    /// The body beside the item.
    pub body: &'a [u8],
}

/// What a frame has before its body.
#[derive(Clone, Copy, Debug, PartialEq, Eq)]
pub struct FrameHead {
    /// Its label.
    pub label: u16,
    /// Its item.
    pub item: u32,
    /// The length of the body, which need not be within the limit.
    pub len: u32,
}

/// A frame without its body, of which it says what the child may know it by.
#[derive(Clone, Copy)]
pub struct Reference<'a> {
    /// The label of the frame.
    pub label: u16,
    /// Its item.
    pub item: u32,
    /// The length of the body.
    pub len: u32,
    /// How the body begins: 9 bytes.
    pub head: &'a [u8],
    /// The SHA-256 of the body: 32 bytes.
    pub digest: &'a [u8],
}

/// A way, from version 5 on.
#[derive(Clone, Copy)]
pub struct NumberedWay<'a> {
    /// The number of the last whole table of whoever says it, or 0.
    pub number: u64,
    /// The way.
    pub way: Way<'a>,
}

/// A frame, from version 5 on.
#[derive(Clone, Copy)]
pub struct SignedFrame<'a> {
    /// Its label.
    pub label: u16,
    /// Its item.
    pub item: u32,
    /// What vouches for the body, at most 1,024 bytes; nothing, where nobody does.
    pub signature: &'a [u8],
    /// The body beside the item.
    pub body: &'a [u8],
}

/// A frame without its body, from version 5 on.
#[derive(Clone, Copy)]
pub struct SignedReference<'a> {
    /// What the child may know the body by.
    pub reference: Reference<'a>,
    /// What vouches for the body, as in a [`SignedFrame`].
    pub signature: &'a [u8],
}

/// What a connection brings, as it lies in the bytes that came.
#[derive(Clone, Copy)]
pub enum Message<'a> {
    /// What an end says first.
    Hello(Greeting<'a>),
    /// What an end says first that looks at a candidate, or answers: no link begins.
    Look(Greeting<'a>),
    /// A parent's way.
    Way(Way<'a>),
    /// A frame.
    Frame(Frame<'a>),
    /// A frame without its body.
    Reference(Reference<'a>),
    /// A parent asks for a whole report.
    ReportRequest,
    /// An acknowledgement: its label.
    Ack(u16),
    /// A child cannot make the body of the frame with this label.
    Lacks(u16),
    /// What a child reports.
    Report(&'a [u8]),
    /// A child takes another parent.
    Goodbye,
    /// A parent's way, from version 5 on.
    NumberedWay(NumberedWay<'a>),
    /// A frame, from version 5 on.
    SignedFrame(SignedFrame<'a>),
    /// A frame without its body, from version 5 on.
    SignedReference(SignedReference<'a>),
    /// A frame of the link alone: its label. It is acknowledged, and brings no item.
    Filler(u16),
}
