ghost use Rattle.std.specs.Prelude.{◌≡◌, ◌≤◌, [], length};
ghost use Rattle.stab_frames.specs.Queue.{queue as queue_of};

use stab_frames::FrameQueue;

/// A queue is emptied, and these entries, which fit, are put into it.
pub fn refill<T: Copy + Eq>(queue: &mut FrameQueue<T>, entries: &[T])
    requires fit { length entries.now ≤ queue.old.capacity }
    ensures { queue.new ≡ queue_of entries.now queue.old.capacity }
{
    empty(queue);
    for entry in entries {
        queue.put(*entry);
    }
}

/// A queue is emptied.
fn empty<T: Copy + Eq>(queue: &mut FrameQueue<T>)
    ensures { queue.new ≡ queue_of [] queue.old.capacity }
{
    for _ in 0..queue.len() {
        queue.take();
    }
}
