/// What one worker begins with: its node, the upper end of the link into it, which the root has
/// not, and the lower ends of the links to its children, in their file order.
#[derive(Debug, Drop)]
pub(crate) struct WorkerEnds<U: Drop, D: Drop> {
    pub(crate) node: u16,
    pub(crate) up: Option<U>,
    pub(crate) downs: Vec<D>,
}
