//! The scripts of a drawn text, which are read back: whether each is drawn at the rates that the
//! options ask for.

ghost use Rattle.std.specs.Prelude.{◌≡◌, ◌≢◌, ◌↔◌, All, Err, IfOk, IsTrue, OnOk, option_map};
ghost use Rattle.rignolda_make.specs.RandomJobs.{AreDrawnAt, IsDrawnAt, scripts_in};
ghost use Rattle.rignolda_make.specs.declared.checked.RandomFault.TheVariants as random;

use crate::checked::RandomFault;
use crate::options::{DrawOptions, OptionsFault};
use stab_json::{read_list, read_value};
use stab_script::ScriptEntry;
use std::alloc::{AllocError, Global};

/// Refuses a text without scripts, or of which one is not drawn at the rates of the options.
pub(crate) fn check_scripts(
    alloc: Global,
    options: &DrawOptions,
    text: &[u8],
) -> Result<(), RandomFault>
    ensures drawn { OnOk result (AreDrawnAt options.now text.now) }
    ensures unlike { result ≡ Err random.Unlike → ¬ AreDrawnAt options.now text.now }
    ensures fault { (fault : OptionsFault) → result ≢ Err (random.Options fault) }
{
    match read_scripts(alloc, text)? {
        Some(scripts) if are_drawn_at(options, &scripts) => Ok(()),
        _ => Err(RandomFault::Unlike),
    }
}

/// What a text says of the scripts of its links, where it has any.
fn read_scripts(alloc: Global, text: &[u8]) -> Result<Option<Vec<ScriptEntry>>, AllocError>
    ensures { IfOk result (λ scripts. option_map (λ its. its.items) scripts
        ≡ scripts_in text.now) }
{
    let Some(value) = read_value(alloc, text)? else {
        return Ok(None);
    };
    match value.get("scripts") {
        None => Ok(None),
        Some(scripts) => read_list::<ScriptEntry>(alloc, Some(scripts)),
    }
}

/// Whether each of these scripts is drawn at the rates of the options.
fn are_drawn_at(options: &DrawOptions, scripts: &[ScriptEntry]) -> bool
    ensures { IsTrue result ↔ All (IsDrawnAt options.now) scripts.now }
{
    scripts.iter().all(|entry| is_drawn_at(options, entry))
}

/// Whether a script is drawn at the rates of the options.
fn is_drawn_at(options: &DrawOptions, entry: &ScriptEntry) -> bool
    ensures { IsTrue result ↔ IsDrawnAt options.now entry.now }
{
    match entry {
        ScriptEntry::Lists { .. } => false,
        ScriptEntry::Draw { loss, repeat, .. } => {
            *loss == options.loss && *repeat == options.repeat
        }
    }
}
