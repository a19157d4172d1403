//! What is wrong with a job of a tree.

use crate::backlogs::look_at_backlogs;
use crate::links::{
    look_at_count, look_at_link_params, look_at_lists_of_links, look_at_members_of_links,
    look_at_starts,
};
use crate::logs::look_at_logs;
use crate::openings::{look_at_opening_lists, look_at_openings};
use crate::schedule::{look_at_root_steps, look_at_schedule};
use crate::scripts::look_at_made_scripts;
use crate::steps::look_at_steps;
use crate::strikes::look_at_members_of_strikes;
use crate::tree::{look_at_nodes, look_at_tree};
use rignolda_findings::{
    Known, Notes, Piece, Place, count_of, list_of, list_or_absent, look_at_items, look_at_members,
    look_at_numbers, look_at_params, look_at_whole,
};
use serde_json::Value;
use stab_job::JobFault;
use stab_script::MAX_EVENTS;
use stab_tree::Tree;
use std::alloc::AllocError;

/// The most items that a job may have.
const MAX_ITEMS: usize = 10_000;

/// The most turns that a job may name.
const MAX_TURNS: u64 = 1_000_000;

/// What a job is.
const JOB: &str = "a job is an object with \"capacity\", \"labels\", \"tree\" and \"items\"";

/// What the versions are.
const VERSIONS: &str = "; the versions are the whole numbers 1 and 2";

/// What the tree is.
const TREE: &str = "a job has a tree, a list of nodes";

/// What the items are.
const ITEMS: &str = "the items are a list of at most 10000 items, which the root publishes";

/// What the turns are.
const TURNS: &str = "the turns are a whole number from 1 to 1000000";

/// What the schedule is.
const SCHEDULE: &str = "the schedule is a list of at most 1000000 steps";

/// The members of a job of the first version.
const FIRST_MEMBERS: Known = Known {
    what: "a job",
    names: &[
        "version", "capacity", "labels", "tree", "items", "links", "starts", "scripts", "turns",
        "schedule", "steps", "backlogs", "received", "from",
    ],
    idle: &["h", "openings"],
    reason: "without \"version\": 2",
};

/// The members of a job of the second version.
const SECOND_MEMBERS: Known = Known {
    what: "a job",
    names: &[
        "version", "capacity", "labels", "tree", "items", "links", "starts", "scripts", "turns",
        "schedule", "steps", "backlogs", "received", "from", "h", "openings",
    ],
    idle: &[],
    reason: "",
};

/// Looks at a job: its checks in their order, and then for members that are not known.
pub(crate) fn look_at_job(notes: &mut Notes, value: &Value) -> Result<(), AllocError> {
    if !value.is_object() {
        return notes.wrong(&Place::whole(), value, JOB);
    }
    let has_openings = look_at_version(notes, value)?;
    look_at_shapes(notes, value, has_openings)?;
    look_at_params(notes, Place::whole(), value, None)?;
    match look_at_tree(notes, value.get("tree"))? {
        Some(tree) => look_over_tree(notes, value, &tree, has_openings)?,
        None => {}
    }
    look_at_nodes(notes, value.get("tree"))?;
    look_at_members_of_links(notes, value)?;
    look_at_members_of_strikes(notes, value.get("steps"))?;
    look_at_members(
        notes,
        Place::whole(),
        value,
        if has_openings {
            SECOND_MEMBERS
        } else {
            FIRST_MEMBERS
        },
    )
}

/// Looks at the version, and answers whether it is one in which nodes have openings. A version that
/// is not known counts as such a one where the job has the member `h`.
fn look_at_version(notes: &mut Notes, value: &Value) -> Result<bool, AllocError> {
    let Some(version) = value.get("version") else {
        return Ok(false);
    };
    match version.as_u64() {
        Some(1) => Ok(false),
        Some(2) => Ok(true),
        _ => {
            notes.refuse(
                JobFault::Version,
                &Place::member("version"),
                &[Piece::Found(version), Piece::Words(VERSIONS)],
            )?;
            Ok(value.get("h").is_some())
        }
    }
}

/// Looks at the shapes of all members.
fn look_at_shapes(notes: &mut Notes, value: &Value, has_openings: bool) -> Result<(), AllocError> {
    look_at_numbers(notes, Place::whole(), value)?;
    look_at_needed(notes, value)?;
    look_at_turns_and_schedule(notes, value)?;
    if has_openings {
        look_at_opening_lists(notes, value)?;
    }
    look_at_lists_of_links(notes, value)
}

/// Looks whether the tree and the items are there, and the items have their shape.
fn look_at_needed(notes: &mut Notes, value: &Value) -> Result<(), AllocError> {
    if value.get("tree").is_none() {
        notes.missing(&Place::member("tree"), TREE)?;
    }
    let place = Place::member("items");
    match value.get("items") {
        None => notes.missing(&place, ITEMS),
        Some(items) => {
            let items = list_of(notes, &place, items, ITEMS)?;
            look_at_items(notes, place, items)
        }
    }
}

/// Looks at the shapes of the turns and of the schedule, whose entries are looked at later.
fn look_at_turns_and_schedule(notes: &mut Notes, value: &Value) -> Result<(), AllocError> {
    if let Some(turns) = value.get("turns") {
        look_at_whole(notes, &Place::member("turns"), Some(turns), TURNS)?;
    }
    let schedule = value.get("schedule");
    list_or_absent(notes, &Place::member("schedule"), schedule, SCHEDULE)?;
    Ok(())
}

/// Looks at the checks that are made over a tree.
fn look_over_tree(
    notes: &mut Notes,
    value: &Value,
    tree: &Tree,
    has_openings: bool,
) -> Result<(), AllocError> {
    look_at_lengths(notes, value)?;
    look_at_count(notes, "starts", value, tree, JobFault::StartCount)?;
    look_at_count(notes, "scripts", value, tree, JobFault::ScriptCount)?;
    look_at_made_scripts(notes, value.get("scripts"), tree)?;
    look_at_turns(notes, value.get("turns"))?;
    look_at_schedule(notes, value.get("schedule"), tree)?;
    look_at_count(notes, "links", value, tree, JobFault::LinkCount)?;
    look_at_link_params(notes, value.get("links"), tree)?;
    if has_openings {
        look_at_openings(notes, value, tree)?;
    }
    look_at_starts(notes, value, tree)?;
    look_at_root_steps(notes, value.get("schedule"), tree)?;
    look_at_steps(notes, value, tree)?;
    look_at_backlogs(notes, value.get("backlogs"), tree)?;
    look_at_logs(notes, value, tree)
}

/// Looks at how many items and steps there are.
fn look_at_lengths(notes: &mut Notes, value: &Value) -> Result<(), AllocError> {
    let items = count_of(value.get("items"));
    if items > MAX_ITEMS {
        notes.refuse(
            JobFault::TooManyItems,
            &Place::member("items"),
            &[
                Piece::Number(items as u64),
                Piece::Words(" are too many; "),
                Piece::Words(ITEMS),
            ],
        )?;
    }
    let steps = count_of(value.get("schedule"));
    if steps > MAX_EVENTS {
        notes.refuse(
            JobFault::TooManyEvents,
            &Place::member("schedule"),
            &[
                Piece::Number(steps as u64),
                Piece::Words(" are too many; "),
                Piece::Words(SCHEDULE),
            ],
        )?;
    }
    Ok(())
}

/// Looks whether the turns are in their range.
fn look_at_turns(notes: &mut Notes, turns: Option<&Value>) -> Result<(), AllocError> {
    let Some(turns) = whole_of(turns) else {
        return Ok(());
    };
    if turns >= 1 && turns <= MAX_TURNS {
        return Ok(());
    }
    notes.refuse(
        JobFault::TurnsOutOfRange,
        &Place::member("turns"),
        &[
            Piece::Number(turns),
            Piece::Words("; "),
            Piece::Words(TURNS),
        ],
    )
}

/// The whole number that a value is.
fn whole_of(value: Option<&Value>) -> Option<u64> {
    value?.as_u64()
}
