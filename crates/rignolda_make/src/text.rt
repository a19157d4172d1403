//! What the parts of a drawn text are written by. How many entries of a list are on a line goes by
//! their places, so that no line is longer than 100 columns.

ghost use Rattle.std.specs.Prelude.{◌≡◌, ◌++◌, ◌≤◌, codes, decimal, string_bytes, OnOk};
ghost use Rattle.rignolda_make.specs.DrawnTexts.{separator, numbered, member, list_head};
ghost use Rattle.rignolda_make.specs.DrawnTexts.{number_piece, number_text};
ghost use Rattle.rignolda_make.specs.DrawnTrees.{pieces};

use crate::shape::below;
use itoa::Buffer;
use rand_core::Rng;
use std::alloc::AllocError;

/// Adds words and then a number.
#[tactic(auto, unfolding(crate::specs::DrawnTexts::numbered))]
pub(crate) fn push_numbered(text: &mut String, words: &str, number: u64) -> Result<(), AllocError>
    ensures { OnOk result
        (string_bytes text.new ≡ string_bytes text.old ++ numbered words.now number) }
{
    text.push_str(words)?;
    push_number(text, number)
}

/// Adds what is before the entry at this place of a list, of which so many are on a line.
pub(crate) fn separate(text: &mut String, a_line: usize, place: usize) -> Result<(), AllocError>
    requires { 1 ≤ a_line }
    ensures { OnOk result
        (string_bytes text.new ≡ string_bytes text.old ++ separator a_line place) }
{
    text.push_str(separator_of(a_line, place))
}

/// What is before the entry at this place of a list, of which so many are on a line.
fn separator_of(a_line: usize, place: usize) -> &'static str
    requires { 1 ≤ a_line }
    ensures { result.now ≡ separator a_line place }
{
    if place == 0 {
        ""
    } else if place % a_line == 0 {
        ",\n"
    } else {
        ", "
    }
}

/// Adds a member that is a number, and what is before it.
#[tactic(auto, unfolding(crate::specs::DrawnTexts::member))]
pub(crate) fn push_member(
    text: &mut String,
    lead: &str,
    name: &str,
    number: u64,
) -> Result<(), AllocError>
    ensures { OnOk result
        (string_bytes text.new ≡ string_bytes text.old ++ member lead.now name.now number) }
{
    text.push_str(lead)?;
    text.push_str("\"")?;
    text.push_str(name)?;
    text.push_str("\": ")?;
    push_number(text, number)
}

/// Adds the name of a member that is a list, and the beginning of the list.
#[tactic(auto, unfolding(crate::specs::DrawnTexts::list_head))]
pub(crate) fn begin_list(text: &mut String, name: &str) -> Result<(), AllocError>
    ensures { OnOk result (string_bytes text.new ≡ string_bytes text.old ++ list_head name.now) }
{
    text.push_str("\"")?;
    text.push_str(name)?;
    text.push_str("\": [")
}

/// Adds a number.
pub(crate) fn push_number(text: &mut String, number: u64) -> Result<(), AllocError>
    ensures { OnOk result (string_bytes text.new ≡ string_bytes text.old ++ decimal number) }
{
    let mut buffer = Buffer::new();
    text.push_str(buffer.format(number))
}

/// Adds so many drawn numbers below a limit.
pub(crate) fn push_numbers_below<R: Rng>(
    text: &mut String,
    rng: &mut R,
    limit: u32,
    count: u32,
) -> Result<(), AllocError>
    requires { 1 ≤ limit }
    ensures text { OnOk result (string_bytes text.new
        ≡ string_bytes text.old ++ (pieces (number_piece limit) count (R.stream rng.old)).0) }
    ensures words { OnOk result (R.stream rng.new
        ≡ (pieces (number_piece limit) count (R.stream rng.old)).1) }
{
    for place in 0..count {
        push_entry(text, place as usize, below(rng, limit))?;
    }
    Ok(())
}

/// Adds a number, and what is before it.
fn push_entry(text: &mut String, place: usize, number: u32) -> Result<(), AllocError>
    ensures { OnOk result
        (string_bytes text.new ≡ string_bytes text.old ++ number_text place number) }
{
    separate(text, 14, place)?;
    push_number(text, u64::from(number))
}
