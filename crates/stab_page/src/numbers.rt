//! The report of a link, as numbers.

ghost use Rattle.std.specs.Prelude.{◌≡◌, ◌+◌, ◌*◌, ◌≤◌, ◌++◌, length, map};
ghost use Rattle.std.specs.List.{flat_map};
ghost use Rattle.stab_page.specs.Report.{frame_numbers, origin_numbers, effect_number, bit};
ghost use Rattle.stab_page.specs.Report.{single_numbers, length_numbers, queue_numbers};
ghost use Rattle.stab_page.specs.Report.{item_numbers, report};

use crate::entry::{EffectEntry, FrameEntry, OriginEntry};
use crate::link::PageLink;
use crate::standing;
use arrayvec::ArrayVec;
use stab_core::{Effect, Origin};
use stab_frames::{Item, Label};

/// The most numbers of a report: more than those of full queues and of lists of 4096 entries.
pub const MAX_NUMBERS: usize = 32768;

/// The numbers of a report.
pub type Numbers = ArrayVec<u64, MAX_NUMBERS>;

/// The report of a link and of the effects so far.
pub fn report(link: &PageLink, had: &[EffectEntry]) -> Numbers
    requires { length had.now ≤ 4096 }
    ensures { result.items ≡ report link.now.traced had.now }
{
    let mut out = Numbers::new();
    let _offered = link.offered();
    let _delivered = link.delivered();
    let _origins = link.origins();
    push_report(&mut out, link, had);
    out
}

/// Adds the report of a link and of these effects.
pub fn push_report(out: &mut Numbers, link: &PageLink, had: &[EffectEntry])
    requires room { length out.old.items + 333 + length link.now.traced.state.offered
        + 3 * length link.now.traced.state.delivered + length had.now ≤ MAX_NUMBERS }
    ensures numbers { out.new.items ≡ out.old.items ++ report link.now.traced had.now }
    ensures len { length out.new.items ≤ length out.old.items + 333
        + length link.now.traced.state.offered + 3 * length link.now.traced.state.delivered
        + length had.now }
{
    push_single(out, link);
    push_lengths(out, link, had);
    push_queues(out, link);
    push_items(out, link);
    push_effects(out, had);
}

/// Adds the numbers that are no list.
fn push_single(out: &mut Numbers, link: &PageLink)
    requires { length out.old.items + 6 ≤ MAX_NUMBERS }
    ensures numbers { out.new.items ≡ out.old.items ++ single_numbers link.now.traced }
    ensures len { length out.new.items ≡ length out.old.items + 6 }
{
    let missing = standing::missing_of(link.acked(), link.origins());
    out.push(u64::from(link.send_label()));
    out.push(u64::from(link.recv_label()));
    out.push(link.acked() as u64);
    out.push(bit(link.is_closed()));
    out.push(standing::strays_in(link.origins()));
    out.push(missing);
}

/// One for true.
fn bit(is: bool) -> u64
    ensures { result ≡ bit is }
{
    if is { 1 } else { 0 }
}

/// Adds the lengths of the lists.
fn push_lengths(out: &mut Numbers, link: &PageLink, had: &[EffectEntry])
    requires { length out.old.items + 7 ≤ MAX_NUMBERS }
    ensures numbers { out.new.items ≡ out.old.items ++ length_numbers link.now.traced had.now }
    ensures len { length out.new.items ≡ length out.old.items + 7 }
{
    out.push(link.frames().len() as u64);
    out.push(link.queued().len() as u64);
    out.push(link.acks().len() as u64);
    out.push(link.offered().len() as u64);
    out.push(link.delivered().len() as u64);
    out.push(link.origins().len() as u64);
    out.push(had.len() as u64);
}

/// Adds what is queued.
fn push_queues(out: &mut Numbers, link: &PageLink)
    requires { length out.old.items + 320 ≤ MAX_NUMBERS }
    ensures numbers { out.new.items ≡ out.old.items ++ queue_numbers link.now.traced }
    ensures len { length out.new.items ≤ length out.old.items + 320 }
{
    push_frames(out, link.frames());
    push_origins(out, link.queued());
    push_labels(out, link.acks());
}

/// Adds what was offered and delivered.
fn push_items(out: &mut Numbers, link: &PageLink)
    requires { length out.old.items + length link.now.traced.state.offered
        + 3 * length link.now.traced.state.delivered ≤ MAX_NUMBERS }
    ensures numbers { out.new.items ≡ out.old.items ++ item_numbers link.now.traced }
    ensures len { length out.new.items ≡ length out.old.items
        + length link.now.traced.state.offered + 3 * length link.now.traced.state.delivered }
{
    let origins = link.origins();
    push_list(out, link.offered());
    push_list(out, link.delivered());
    push_origins(out, origins);
}

/// Adds frames.
fn push_frames(out: &mut Numbers, frames: &[FrameEntry])
    requires { length out.old.items + 2 * length frames.now ≤ MAX_NUMBERS }
    ensures numbers { out.new.items ≡ out.old.items ++ flat_map frame_numbers frames.now }
    ensures len { length out.new.items ≡ length out.old.items + 2 * length frames.now }
{
    for entry in frames {
        let frame = entry.frame;
        out.push(u64::from(frame.label));
        out.push(u64::from(frame.item));
    }
}

/// Adds origins.
pub fn push_origins(out: &mut Numbers, origins: &[OriginEntry])
    requires { length out.old.items + 2 * length origins.now ≤ MAX_NUMBERS }
    ensures numbers { out.new.items ≡ out.old.items ++ flat_map origin_numbers origins.now }
    ensures len { length out.new.items ≡ length out.old.items + 2 * length origins.now }
{
    for entry in origins {
        push_origin(out, *entry);
    }
}

/// Adds an origin.
fn push_origin(out: &mut Numbers, entry: OriginEntry)
    requires { length out.old.items + 2 ≤ MAX_NUMBERS }
    ensures numbers { out.new.items ≡ out.old.items ++ origin_numbers entry }
    ensures len { length out.new.items ≡ length out.old.items + 2 }
{
    match entry.origin {
        Origin::Stray(place) => {
            out.push(0);
            out.push(u64::from(place));
        }
        Origin::Sent(place) => {
            out.push(1);
            out.push(place);
        }
    }
}

/// Adds labels.
fn push_labels(out: &mut Numbers, labels: &[Label])
    requires { length out.old.items + length labels.now ≤ MAX_NUMBERS }
    ensures numbers { out.new.items ≡ out.old.items ++ labels.now }
    ensures len { length out.new.items ≡ length out.old.items + length labels.now }
{
    for label in labels {
        out.push(u64::from(*label));
    }
}

/// Adds items.
fn push_list(out: &mut Numbers, items: &[Item])
    requires { length out.old.items + length items.now ≤ MAX_NUMBERS }
    ensures numbers { out.new.items ≡ out.old.items ++ items.now }
    ensures len { length out.new.items ≡ length out.old.items + length items.now }
{
    for item in items {
        out.push(u64::from(*item));
    }
}

/// Adds effects.
pub fn push_effects(out: &mut Numbers, had: &[EffectEntry])
    requires { length out.old.items + length had.now ≤ MAX_NUMBERS }
    ensures numbers { out.new.items ≡ out.old.items ++ map effect_number had.now }
    ensures len { length out.new.items ≡ length out.old.items + length had.now }
{
    for entry in had {
        out.push(effect_number(*entry));
    }
}

/// The number of an effect.
fn effect_number(entry: EffectEntry) -> u64
    ensures { result ≡ effect_number entry }
{
    match entry.effect {
        Effect::Nothing => 0,
        Effect::Held => 1,
        Effect::Sent => 2,
        Effect::Fresh(_) => 3,
        Effect::Old => 4,
        Effect::Acked => 5,
        Effect::Ignored => 6,
        Effect::Lost => 7,
        Effect::Closed => 8,
    }
}
