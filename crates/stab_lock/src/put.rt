use stab_core::Event;

/// How something is put into a queue.
#[derive(Clone, Copy, Debug)]
pub(crate) struct Put {
    /// The event that puts it.
    pub(crate) put: Event,
    /// The event that loses the front of the queue.
    pub(crate) loss: Event,
    /// Whether the queue has a front.
    pub(crate) has_front: bool,
}
