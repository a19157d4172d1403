use stab_core::Event;

/// A run of equal events.
#[derive(Clone, Copy, Debug)]
pub(crate) struct Run {
    pub(crate) event: Event,
    pub(crate) count: u64,
}
