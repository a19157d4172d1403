ghost use Rattle.std.specs.Prelude.{◌≡◌, ◌≢◌, ◌<◌, ℕ, false, true, length, replicate};
ghost use Rattle.std.specs.Prelude.{Some, get_or, slice_get};
ghost use Rattle.std.specs.Prelude.{IfErr, IfOk, MatchResult, Ok, Err};
ghost use Rattle.stab_core.specs.Replay.{clean_start};
ghost use Rattle.stab_acts.specs.Scripts.{no_acts};
ghost use Rattle.stab_job.specs.JobLinks.{all_made, are_miscounted, scripts_of, starts_of};
ghost use Rattle.stab_job.specs.JobValues.{links};
ghost use Rattle.stab_job.specs.LinkParams.{all_params, params_into, params_of};
ghost use Rattle.stab_job.specs.Refusals.{is_of_value};
ghost use Rattle.stab_tree.specs.Links.{links_of};

use crate::fault::JobFault;
use crate::link_entry::LinkEntry;
use stab_core::Start;
use stab_frames::{Params, Sequence};
use stab_script::{Script, ScriptEntry, ScriptFault};
use stab_tree::Tree;
use std::alloc::{AllocError, Global};

/// A clean start for each of that many links.
#[tactic(auto, using(crate::proofs::Linked::one_more_alike))]
fn clean_starts(alloc: Global, links: u16) -> Result<Sequence<Start>, AllocError>
    ensures { IfOk result (λ starts. starts ≡ replicate links clean_start) }
{
    let mut starts = Sequence::with_capacity(alloc, usize::from(links))?;
    'links: for _ in 0..links {
        starts.push(Start::clean(alloc))?;
    }
    Ok(starts)
}

/// The starts of that many links, which are clean where none are given.
pub(crate) fn starts_of(
    alloc: Global,
    links: u16,
    starts: Option<Sequence<Start>>,
) -> Result<Sequence<Start>, AllocError>
    ensures { IfOk result (λ its_starts. its_starts ≡ starts_of links starts) }
{
    match starts {
        Some(starts) => Ok(starts),
        None => clean_starts(alloc, links),
    }
}

/// An empty script for each of that many links.
#[tactic(auto, using(crate::proofs::Linked::one_more_alike))]
fn empty_scripts(alloc: Global, links: u16) -> Result<Sequence<Script>, AllocError>
    ensures { IfOk result (λ scripts. scripts ≡ replicate links no_acts) }
{
    let mut scripts = Sequence::with_capacity(alloc, usize::from(links))?;
    'links: for _ in 0..links {
        scripts.push(Script::none(alloc))?;
    }
    Ok(scripts)
}

/// The scripts that these entries make, or the fault of the first that makes none.
#[tactic(auto, using(crate::proofs::Linked::made_at_first, crate::proofs::Linked::made_more, crate::proofs::Linked::made_at_end))]
fn make_all(alloc: Global, entries: Vec<ScriptEntry>) -> Result<Sequence<Script>, ScriptFault>
    ensures { MatchResult result
        (λ scripts. all_made entries.items ≡ Ok scripts)
        (λ fault. fault ≢ ScriptFault.Memory → all_made entries.items ≡ Err fault) }
{
    let mut scripts = Sequence::with_capacity(alloc, entries.len())?;
    for entry in entries {
        scripts.push(entry.make(alloc)?.share()?)?;
    }
    Ok(scripts)
}

/// The scripts of that many links, which are empty where no entries are given, or the fault of the
/// first entry that makes none.
pub(crate) fn make_scripts(
    alloc: Global,
    links: u16,
    entries: Option<Sequence<ScriptEntry>>,
) -> Result<Sequence<Script>, ScriptFault>
    ensures { MatchResult result
        (λ scripts. scripts_of links entries ≡ Ok scripts)
        (λ fault. fault ≢ ScriptFault.Memory → scripts_of links entries ≡ Err fault) }
{
    match entries {
        Some(entries) => make_all(alloc, entries.into_vec()),
        None => Ok(empty_scripts(alloc, links)?),
    }
}

/// The same parameters for each of that many links.
#[tactic(auto, using(crate::proofs::Linked::one_more_alike))]
fn same_params(alloc: Global, links: u16, of_job: Params) -> Result<Sequence<Params>, AllocError>
    ensures { IfOk result (λ params. params ≡ replicate links of_job) }
{
    let mut params = Sequence::with_capacity(alloc, usize::from(links))?;
    'links: for _ in 0..links {
        params.push(of_job)?;
    }
    Ok(params)
}

/// The parameters of the link at this place by its entry, or the fault with the link's child.
fn params_at(
    tree: &Tree,
    of_job: Params,
    entries: &[LinkEntry],
    place: u16,
) -> Result<Params, JobFault>
    requires link { place < length (links_of tree.now.parents) }
    requires entry { place < length entries.now }
    ensures params { (child : ℕ) → slice_get (links_of tree.now.parents) place ≡ Some child
        → result ≡ params_into of_job child (get_or entries.now place LinkEntry.OfJob) }
    ensures reported { IfErr result (λ fault. is_of_value fault ≡ true) }
{
    match entries[usize::from(place)].params(of_job) {
        Ok(params) => Ok(params),
        Err(fault) => Err(JobFault::LinkParams(tree.link_child(place), fault)),
    }
}

/// The parameters of each link, one entry for each, or the fault of the first entry whose numbers
/// are none.
fn all_params(
    alloc: Global,
    tree: &Tree,
    of_job: Params,
    entries: &[LinkEntry],
) -> Result<Sequence<Params>, JobFault>
    requires one_entry_each { length entries.now ≡ length (links_of tree.now.parents) }
    ensures params { MatchResult result
        (λ params. all_params of_job (links_of tree.now.parents) entries.now ≡ Ok params)
        (λ fault. fault ≢ JobFault.Memory
        → all_params of_job (links_of tree.now.parents) entries.now ≡ Err fault) }
    ensures reported { IfErr result (λ fault. is_of_value fault ≡ true) }
{
    let mut params = Sequence::with_capacity(alloc, entries.len())?;
    for place in 0..tree.link_count() {
        params.push(params_at(tree, of_job, entries, place)?)?;
    }
    Ok(params)
}

/// The parameters of each link, which are the job's own where no entries are given, or the fault of
/// the first entry whose numbers are none.
pub(crate) fn params_of(
    alloc: Global,
    tree: &Tree,
    of_job: Params,
    entries: &Option<Sequence<LinkEntry>>,
) -> Result<Sequence<Params>, JobFault>
    requires counted { are_miscounted (links tree.now) entries.now ≡ false }
    ensures params { MatchResult result
        (λ params. params_of tree.now of_job entries.now ≡ Ok params)
        (λ fault. fault ≢ JobFault.Memory → params_of tree.now of_job entries.now ≡ Err fault) }
    ensures reported { IfErr result (λ fault. is_of_value fault ≡ true) }
{
    match entries {
        Some(entries) => all_params(alloc, tree, of_job, entries.as_slice()),
        None => Ok(same_params(alloc, tree.link_count(), of_job)?),
    }
}
