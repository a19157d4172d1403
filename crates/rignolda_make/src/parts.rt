ghost use Rattle.std.specs.Prelude.{◌≡◌, ◌++◌, ◌≤◌, ◌<◌, length, string_bytes, IfOk, None, OnOk};
ghost use Rattle.rignolda_make.specs.Options.{options_fault};
ghost use Rattle.rignolda_make.specs.DrawnTexts.{drawn_text, text_by, numbers_text, parent_text};
ghost use Rattle.rignolda_make.specs.DrawnTexts.{node_text, tree_text, params_text, link_text};
ghost use Rattle.rignolda_make.specs.DrawnTexts.{links_text, items_piece, script_text};
ghost use Rattle.rignolda_make.specs.DrawnTexts.{both_text, seed_text, rates_text};
ghost use Rattle.rignolda_make.specs.DrawnTexts.{scripts_piece, held};
ghost use Rattle.rignolda_make.specs.DrawnTexts.{opening_piece, openings_piece, members_piece};
ghost use Rattle.rignolda_make.specs.DrawnTexts.{params_of};

use crate::options::DrawOptions;
use crate::schedule::push_schedule;
use crate::shape::{DrawnLink, below, draw_links, draw_parents, is_inner};
use crate::starts::push_starts;
use crate::text::{begin_list, push_member, push_numbered, push_numbers_below, separate};
use rand_core::Rng;
use rand_pcg::Pcg32;
use stab_frames::Params;
use std::alloc::{AllocError, Global};

/// The stream of the generator.
const STREAM: u64 = 54;

/// How many acts each list of a drawn script has.
const ACTS: u64 = 200;

/// Items are drawn below this number.
pub(crate) const ITEMS: u32 = 1000;

/// The text of a random job by these options, whose links without parameters of their own have
/// these.
#[tactic(auto, unfolding(crate::specs::DrawnTexts::drawn_text))]
pub(crate) fn job_text(
    alloc: Global,
    options: &DrawOptions,
    params: Params,
) -> Result<String, AllocError>
    requires lawful { options_fault options.now ≡ None }
    requires params { params ≡ params_of options.now }
    ensures { IfOk result (λ text. string_bytes text ≡ drawn_text options.now) }
{
    let mut rng = Pcg32::new(options.seed, STREAM);
    text_by(alloc, &mut rng, options, params)
}

/// The text by the words of a generator.
#[tactic(auto, unfolding(crate::specs::DrawnTexts::text_by))]
fn text_by<R: Rng>(
    alloc: Global,
    rng: &mut R,
    options: &DrawOptions,
    params: Params,
) -> Result<String, AllocError>
    requires lawful { options_fault options.now ≡ None }
    requires params { params ≡ params_of options.now }
    ensures { IfOk result (λ text. string_bytes text ≡ text_by options.now (R.stream rng.old)) }
{
    let parents = draw_parents(alloc, rng, options.nodes)?;
    let are_drawn = options.labels.is_none();
    let links = draw_links(alloc, rng, parents.as_slice(), params, are_drawn)?;
    let mut text = String::new(alloc);
    push_numbers(&mut text, options, params)?;
    push_tree(&mut text, parents.as_slice())?;
    push_links(&mut text, links.as_slice())?;
    push_members(
        &mut text,
        rng,
        options,
        parents.as_slice(),
        links.as_slice(),
    )?;
    Ok(text)
}

/// Adds the members that are numbers.
#[tactic(auto, unfolding(crate::specs::DrawnTexts::numbers_text))]
fn push_numbers(text: &mut String, options: &DrawOptions, params: Params) -> Result<(), AllocError>
    ensures { OnOk result (string_bytes text.new
        ≡ string_bytes text.old ++ numbers_text options.now params) }
{
    push_member(text, "{", "version", 2)?;
    push_both(text, ", ", params)?;
    push_member(text, ", ", "h", u64::from(options.hold))?;
    push_member(text, ", ", "turns", u64::from(options.turns))?;
    text.push_str(",\n")
}

/// Adds the two parameters of a link, or of a job, and what is before them.
#[tactic(auto, unfolding(crate::specs::DrawnTexts::both_text))]
fn push_both(text: &mut String, lead: &str, params: Params) -> Result<(), AllocError>
    ensures { OnOk result
        (string_bytes text.new ≡ string_bytes text.old ++ both_text lead.now params) }
{
    push_member(text, lead, "capacity", u64::from(params.capacity()))?;
    push_member(text, ", ", "labels", u64::from(params.labels()))
}

/// Adds the tree: the node at place `p` is called `n` and `p`.
#[tactic(auto, unfolding(crate::specs::DrawnTexts::tree_text))]
fn push_tree(text: &mut String, parents: &[Option<usize>]) -> Result<(), AllocError>
    ensures { OnOk result (string_bytes text.new
        ≡ string_bytes text.old ++ tree_text parents.now) }
{
    begin_list(text, "tree")?;
    for place in 0..parents.len() {
        push_node(text, parents, place)?;
    }
    text.push_str("],\n")
}

/// Adds the node at this place, and what is before it.
#[tactic(auto, unfolding(crate::specs::DrawnTexts::node_text))]
fn push_node(text: &mut String, parents: &[Option<usize>], place: usize) -> Result<(), AllocError>
    requires { place < length parents.now }
    ensures { OnOk result (string_bytes text.new
        ≡ string_bytes text.old ++ node_text parents.now place) }
{
    separate(text, 2, place)?;
    push_numbered(text, "{\"name\": \"n", place as u64)?;
    push_parent(text, parents[place])
}

/// Adds the parent of a node, where it has one, and the end of its entry.
fn push_parent(text: &mut String, parent: Option<usize>) -> Result<(), AllocError>
    ensures { OnOk result (string_bytes text.new ≡ string_bytes text.old ++ parent_text parent) }
{
    match parent {
        None => text.push_str("\"}"),
        Some(its_parent) => {
            push_numbered(text, "\", \"parent\": \"n", its_parent as u64)?;
            text.push_str("\"}")
        }
    }
}

/// Adds the parameters of each link.
#[tactic(auto, unfolding(crate::specs::DrawnTexts::links_text))]
fn push_links(text: &mut String, links: &[DrawnLink]) -> Result<(), AllocError>
    ensures { OnOk result (string_bytes text.new ≡ string_bytes text.old ++ links_text links.now) }
{
    begin_list(text, "links")?;
    for place in 0..links.len() {
        push_link(text, links, place)?;
    }
    text.push_str("],\n")
}

/// Adds the entry of the link at this place, and what is before it.
#[tactic(auto, unfolding(crate::specs::DrawnTexts::link_text))]
fn push_link(text: &mut String, links: &[DrawnLink], place: usize) -> Result<(), AllocError>
    requires { place < length links.now }
    ensures { OnOk result (string_bytes text.new
        ≡ string_bytes text.old ++ link_text links.now place) }
{
    separate(text, 2, place)?;
    push_params(text, links[place])
}

/// Adds the parameters of a link, or that they are those of the job.
fn push_params(text: &mut String, link: DrawnLink) -> Result<(), AllocError>
    ensures { OnOk result (string_bytes text.new ≡ string_bytes text.old ++ params_text link) }
{
    if !link.are_own {
        return text.push_str("null");
    }
    push_both(text, "{", link.params)?;
    text.push_str("}")
}

/// Adds the members that are drawn on the tree and its links.
#[tactic(auto, unfolding(crate::specs::DrawnTexts::members_piece))]
fn push_members<R: Rng>(
    text: &mut String,
    rng: &mut R,
    options: &DrawOptions,
    parents: &[Option<usize>],
    links: &[DrawnLink],
) -> Result<(), AllocError>
    requires { options.now.hold ≤ 64 }
    ensures { OnOk result (string_bytes text.new ≡ string_bytes text.old
        ++ (members_piece options.now parents.now links.now (R.stream rng.old)).0) }
{
    text.push_str("\"items\": ")?;
    push_items(text, rng, options.items)?;
    text.push_str(",\n")?;
    push_starts(text, rng, links)?;
    push_scripts(text, rng, options, links.len())?;
    push_openings(text, rng, options.hold, parents)?;
    push_schedule(text, rng, options.steps, links)
}

/// Adds a list of `count` items.
#[tactic(auto, unfolding(crate::specs::DrawnTexts::items_piece))]
fn push_items<R: Rng>(text: &mut String, rng: &mut R, count: u32) -> Result<(), AllocError>
    ensures text { OnOk result (string_bytes text.new
        ≡ string_bytes text.old ++ (items_piece count (R.stream rng.old)).0) }
    ensures words { OnOk result (R.stream rng.new ≡ (items_piece count (R.stream rng.old)).1) }
{
    text.push_str("[")?;
    push_numbers_below(text, rng, ITEMS, count)?;
    text.push_str("]")
}

/// Adds a drawn script for each of so many links.
#[tactic(auto, unfolding(crate::specs::DrawnTexts::scripts_piece))]
fn push_scripts<R: Rng>(
    text: &mut String,
    rng: &mut R,
    options: &DrawOptions,
    links: usize,
) -> Result<(), AllocError>
    ensures text { OnOk result (string_bytes text.new
        ≡ string_bytes text.old ++ (scripts_piece options.now links (R.stream rng.old)).0) }
    ensures words { OnOk result (R.stream rng.new
        ≡ (scripts_piece options.now links (R.stream rng.old)).1) }
{
    begin_list(text, "scripts")?;
    for place in 0..links {
        push_script(text, options, rng.next_u32(), place)?;
    }
    text.push_str("],\n")
}

/// Adds a script that is drawn from this word, and what is before it.
#[tactic(auto, unfolding(crate::specs::DrawnTexts::script_text))]
fn push_script(
    text: &mut String,
    options: &DrawOptions,
    word: u32,
    place: usize,
) -> Result<(), AllocError>
    ensures { OnOk result (string_bytes text.new
        ≡ string_bytes text.old ++ script_text options.now word place) }
{
    separate(text, 1, place)?;
    push_seed(text, word, place)?;
    push_rates(text, options)
}

/// Adds the seed of a script.
#[tactic(auto, unfolding(crate::specs::DrawnTexts::seed_text))]
fn push_seed(text: &mut String, word: u32, place: usize) -> Result<(), AllocError>
    ensures { OnOk result (string_bytes text.new ≡ string_bytes text.old ++ seed_text word place) }
{
    push_numbered(text, "{\"seed\": [", u64::from(word))?;
    push_numbered(text, ", ", place as u64)?;
    text.push_str("]")
}

/// Adds the length and the rates of a script.
#[tactic(auto, unfolding(crate::specs::DrawnTexts::rates_text))]
fn push_rates(text: &mut String, options: &DrawOptions) -> Result<(), AllocError>
    ensures { OnOk result (string_bytes text.new
        ≡ string_bytes text.old ++ rates_text options.now.loss options.now.repeat) }
{
    push_member(text, ", ", "length", ACTS)?;
    push_member(text, ", ", "loss", u64::from(options.loss))?;
    push_member(text, ", ", "repeat", u64::from(options.repeat))?;
    text.push_str("}")
}

/// Adds an opening for each node, which has items at inner nodes alone.
#[tactic(auto, unfolding(crate::specs::DrawnTexts::openings_piece))]
fn push_openings<R: Rng>(
    text: &mut String,
    rng: &mut R,
    hold: u16,
    parents: &[Option<usize>],
) -> Result<(), AllocError>
    requires { hold ≤ 64 }
    ensures text { OnOk result (string_bytes text.new ≡ string_bytes text.old
        ++ (openings_piece parents.now hold (R.stream rng.old)).0) }
    ensures words { OnOk result (R.stream rng.new
        ≡ (openings_piece parents.now hold (R.stream rng.old)).1) }
{
    begin_list(text, "openings")?;
    for place in 0..parents.len() {
        push_opening(text, rng, hold, parents, place)?;
    }
    text.push_str("],\n")
}

/// Adds the opening of a node, and what is before it.
#[tactic(auto, unfolding(crate::specs::DrawnTexts::opening_piece))]
fn push_opening<R: Rng>(
    text: &mut String,
    rng: &mut R,
    hold: u16,
    parents: &[Option<usize>],
    place: usize,
) -> Result<(), AllocError>
    requires { hold ≤ 64 }
    ensures text { OnOk result (string_bytes text.new ≡ string_bytes text.old
        ++ (opening_piece parents.now hold place (R.stream rng.old)).0) }
    ensures words { OnOk result (R.stream rng.new
        ≡ (opening_piece parents.now hold place (R.stream rng.old)).1) }
{
    separate(text, 1, place)?;
    let count = draw_count(rng, hold, parents, place);
    push_items(text, rng, count)
}

/// How many items the opening of a node has: none but at an inner node.
#[tactic(auto, unfolding(crate::specs::DrawnTexts::held))]
fn draw_count<R: Rng>(rng: &mut R, hold: u16, parents: &[Option<usize>], place: usize) -> u32
    requires { hold ≤ 64 }
    ensures { (result, R.stream rng.new) ≡ held parents.now hold place (R.stream rng.old) }
{
    if is_inner(parents, place) {
        below(rng, u32::from(hold) + 1)
    } else {
        0
    }
}
