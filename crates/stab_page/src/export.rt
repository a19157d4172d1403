//! What a page calls.

ghost use Rattle.std.specs.Prelude.{◌≡◌, ◌≤◌, length, map, take};
ghost use Rattle.stab_frames.specs.Parameters.{AreLawful};
ghost use Rattle.stab_core.specs.LinkLaw.{LinkLaw};
ghost use Rattle.stab_core.specs.Replay.{IsLawful, start_items};
ghost use Rattle.stab_core.specs.Trace.{traced_initial, traced_replay};
ghost use Rattle.stab_page.specs.Codes.{event_of, start_of};
ghost use Rattle.stab_page.specs.Effects.{effects};
ghost use Rattle.stab_page.specs.PageLink.{parameters};
ghost use Rattle.stab_page.specs.Report.{answer, is_accepted, report};
ghost use Rattle.stab_page.specs.Standing.{strays_in};

use crate::code::{EventCode, FrameCode};
use crate::laws;
use crate::link::{MAX_EVENTS, MAX_QUEUED, PageLink};
use crate::numbers::{self, MAX_NUMBERS, Numbers};
use crate::run::run;
use stab_frames::Label;

/// The report of one link after these events, from this start: how many numbers there are, and the
/// numbers. None where the capacity is not 1 to 64 or the number of labels not 2 to 1000, the start
/// has more frames or acknowledgements than the capacity, there are more than 4096 events, or room
/// for fewer than 32768 numbers. So there may be too few labels: a page shows what then goes wrong.
///
/// The state is that of the replay of the events, and the law of every replay holds of it. To see a
/// run go on, a page asks for the report of its first events, one more each time.
#[unsafe(no_mangle)]
pub extern "C" fn stab_page_report(
    capacity: u16,
    labels: u16,
    send_label: u16,
    recv_label: u16,
    frames: &[FrameCode],
    acks: &[u16],
    events: &[EventCode],
    numbers: &mut [u64],
) -> usize
    ensures count { result ≡ length (answer capacity labels
        (start_of frames.now acks.now send_label recv_label)
        (map event_of events.now) (length numbers.old)) }
    ensures numbers { take result numbers.new ≡ answer capacity labels
        (start_of frames.now acks.now send_label recv_label)
        (map event_of events.now) (length numbers.old) }
    ensures law { let p = parameters capacity labels in
        let start = start_of frames.now acks.now send_label recv_label in
        let s = (traced_replay p (traced_initial start) (map event_of events.now)).state in
        AreLawful p → IsLawful p start
        → LinkLaw capacity (start_items start) s.offered s.acked s.delivered }
    ensures few_strays { let p = parameters capacity labels in
        let start = start_of frames.now acks.now send_label recv_label in
        let origins = (traced_replay p (traced_initial start) (map event_of events.now)).origins in
        strays_in origins ≤ length start.frames }
{
    laws::every_state_obeys_the_link_law();
    let room = numbers.len();
    if !is_accepted(capacity, labels, frames, acks, events, room) {
        return 0;
    }
    let report = report_of(
        capacity, labels, frames, acks, send_label, recv_label, events,
    );
    let count = report.len();
    numbers[..count].copy_from_slice(report.as_slice());
    count
}

/// Whether there is room for all of this.
fn is_accepted(
    capacity: u16,
    labels: u16,
    frames: &[FrameCode],
    acks: &[Label],
    events: &[EventCode],
    room: usize,
) -> bool
    ensures { result ≡ is_accepted capacity labels (start_of frames.now acks.now 0 0)
        (map event_of events.now) room }
{
    let fits = usize::from(capacity);
    (1..=64).contains(&capacity)
        && (2..=1000).contains(&labels)
        && frames.len() <= fits
        && acks.len() <= fits
        && events.len() <= MAX_EVENTS
        && MAX_NUMBERS <= room
}

/// The report of a start that fits, after these events.
fn report_of(
    capacity: u16,
    labels: u16,
    frames: &[FrameCode],
    acks: &[Label],
    send_label: Label,
    recv_label: Label,
    events: &[EventCode],
) -> Numbers
    requires capacity { capacity ≤ MAX_QUEUED }
    requires labels { 1 ≤ labels }
    requires frames { length frames.now ≤ capacity }
    requires acks { length acks.now ≤ capacity }
    requires events { length events.now ≤ MAX_EVENTS }
    ensures { let p = parameters capacity labels in
        let start = start_of frames.now acks.now send_label recv_label in
        let events = map event_of events.now in
        result.items ≡ report (traced_replay p (traced_initial start) events)
        (effects p (traced_initial start) events) }
{
    let mut link = PageLink::new(capacity, labels, frames, acks, send_label, recv_label);
    let had = run(&mut link, events);
    numbers::report(&link, had.as_slice())
}
