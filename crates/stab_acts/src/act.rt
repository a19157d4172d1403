/// What befalls a frame or an acknowledgement that an end of a link sends.
#[derive(Clone, Copy, Debug, PartialEq, Eq, Hash)]
pub enum OutAct {
    /// It goes to the back of its queue, and is lost where that is full.
    Pass,
    /// It is lost.
    Drop,
    /// The front of its queue is lost, and then it goes to the back.
    Evict,
}

/// What befalls the front of a queue that an end of a link receives.
#[derive(Clone, Copy, Debug, PartialEq, Eq, Hash)]
pub enum InAct {
    /// It is received and gone.
    Take,
    /// It is received and stays at the front.
    Keep,
}
