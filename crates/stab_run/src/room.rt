use stab_job::Job;

/// For how many items the lists of a run are given room before it begins, so that none of them has
/// to grow while the workers run.
///
/// By the link law a list has at most the published items and the strays of the starts and of the
/// openings, and a turn adds at most one item to it. One place more is for the look that finds
/// nothing: its place is made before it. There is at most as much room for strays as for items, so
/// that short lists take little memory. A list that gets longer grows.
pub(crate) fn room_of(job: &Job) -> usize {
    let hold = usize::from(job.openings().hold());
    let mut strays = hold.saturating_mul(usize::from(job.tree().len()));
    for start in job.starts() {
        strays = strays.saturating_add(start.frames.len());
    }
    let items = job.items().len();
    let most = items.saturating_add(strays.min(items));
    most.saturating_add(1).min(job.turns() as usize)
}
