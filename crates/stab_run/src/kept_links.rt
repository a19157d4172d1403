use crate::any_link::AnyLink;
use std::snapshot::Snapshot;

/// The links of a run before they were settled, in file order of the children, as its report keeps
/// them. No link is kept: only contracts see of which kind each of them is.
///
/// It is dropped by code of its own, so that no crate that drops a report has to prove again how
/// links are dropped.
pub(crate) enum KeptLinks {
    /// No run made the report.
    None,
    /// These links.
    Kept(Snapshot<Vec<AnyLink>>),
}

impl Drop for KeptLinks {
    fn drop(self) {
        match self {
            KeptLinks::None => {}
            KeptLinks::Kept(_) => {}
        }
    }
}
