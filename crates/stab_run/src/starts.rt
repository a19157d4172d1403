//! The links of a job at their starts.

ghost use Rattle.std.specs.Prelude.{◌≡◌, All, IfNone, IfOk, IfErr, IfSome, OnOk, length, map};
ghost use Rattle.std.specs.List.{AllZip};
ghost use Rattle.stab_core.specs.Link.{IsReason};
ghost use Rattle.stab_core.specs.LinkSetup.{CanBegin, setups};
ghost use Rattle.stab_core.specs.Replay.{IsLawful};
ghost use Rattle.stab_frames.specs.Parameters.{AreLawful};
ghost use Rattle.stab_run.specs.AnyLinks.{IsOneOf, IsOpenedBy, IsScriptOf, given_to, kind_of};
ghost use Rattle.stab_run.specs.LinkKinds.{HaveOnePlace, kind_for};
ghost use Rattle.stab_run.specs.RunFaults.{IsStartReason};
ghost use Rattle.stab_tree.specs.Links.{links_of};

use crate::any_link::{AnyLink, AnyOpening};
use crate::links::Links;
use crate::run_fault::RunFault;
use stab_acts::Script;
use stab_core::{Start, StartFault};
use stab_frames::Params;
use stab_tree::Tree;
use std::alloc::{AllocError, Global};

/// Why a link cannot begin from a start, where it cannot.
fn unlawful(params: Params, start: &Start) -> Option<StartFault>
    ensures lawful_params { AreLawful params }
    ensures lawful { IfNone result (IsLawful params start.now) }
    ensures unlawful { IfSome result (λ fault. ¬ IsLawful params start.now) }
    ensures reason { IfSome result (IsReason params start.now) }
{
    let capacity = usize::from(params.capacity());
    if start.frames.len() > capacity {
        return Some(StartFault::TooManyFrames);
    }
    if start.acks.len() > capacity {
        return Some(StartFault::TooManyAcks);
    }
    None
}

/// Refuses the first start that its link cannot begin from. It takes no memory.
#[tactic(auto, using(crate::proofs::Unlawful::first_unlawful))]
pub(crate) fn check_starts(params: &[Params], tree: &Tree, starts: &[Start]) -> Result<(), RunFault>
    requires one_params_each { length params.now ≡ length (links_of tree.now.parents) }
    requires one_start_each { length starts.now ≡ length (links_of tree.now.parents) }
    ensures can_begin { OnOk result (All CanBegin (setups params.now starts.now)) }
    ensures refused { IfErr result
        (IsStartReason tree.now.parents (setups params.now starts.now)) }
{
    for place in 0..tree.link_count() {
        let link = usize::from(place);
        match unlawful(params[link], &starts[link]) {
            None => {}
            Some(fault) => return Err(RunFault::Start(tree.link_child(place), fault)),
        }
    }
    Ok(())
}

/// Each link with its parameters at its start, those with a lock with their script and with room
/// for `room` items in each of their lists, and what splits it.
pub(crate) fn make_links(
    alloc: Global,
    which: Links,
    params: &[Params],
    starts: &[Start],
    scripts: &[Script],
    room: usize,
) -> Result<(Vec<AnyLink>, Vec<AnyOpening>), AllocError>
    requires one_place { HaveOnePlace which params.now }
    requires one_each { length params.now ≡ length starts.now }
    requires one_script_each { length scripts.now ≡ length starts.now }
    requires can_begin { All CanBegin (setups params.now starts.now) }
    ensures links { IfOk result (λ made.
        map given_to made.0.items ≡ setups params.now starts.now) }
    ensures scripts { IfOk result (λ made. AllZip IsScriptOf scripts.now made.0.items) }
    ensures one_link_each { IfOk result (λ made. length made.0.items ≡ length starts.now) }
    ensures one_of { IfOk result (λ made. All (IsOneOf which) made.0.items) }
    ensures kinds { IfOk result (λ made.
        map kind_of made.0.items ≡ map (kind_for which) params.now) }
    ensures openings { IfOk result (λ made. AllZip IsOpenedBy made.0.items made.1.items) }
{
    let mut links = Vec::with_capacity(alloc, starts.len())?;
    let mut openings = Vec::with_capacity(alloc, starts.len())?;
    'links: for place in 0..starts.len() {
        let (link, opening) = AnyLink::make(
            alloc,
            which,
            params[place],
            &starts[place],
            &scripts[place],
            room,
        )?;
        links.push_reserved(link);
        openings.push_reserved(opening);
    }
    Ok((links, openings))
}
