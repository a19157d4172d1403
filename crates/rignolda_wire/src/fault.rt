/// Why no message is in front of the bytes: more has to come, or the first fault that is met, from
/// left to right.
#[derive(Clone, Copy, Debug, PartialEq, Eq)]
pub enum Fault {
    /// More has to come.
    More,
    /// It does not begin as a hello.
    NoHello,
    /// A hello has a version that nobody speaks.
    NoVersion,
    /// A name of a hello is none of an agent, or its length says that it is too long.
    NoName,
    /// It is none of the messages that may come next.
    NoMessage,
    /// A body has more than 16 MiB.
    LongBody,
    /// A way has too many bytes or names.
    LongWay,
    /// A name of a way is none of an agent.
    NoNameOfWay,
    /// A report has more than 1 MiB.
    LongReport,
    /// A signature has more than 1,024 bytes.
    LongSignature,
}
