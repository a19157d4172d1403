//! The command `random`: its options.

use crate::command::{Request, mistake, mistake_of};
use clap::error::ErrorKind;
use clap::{ArgMatches, Error};
use rignolda_make::{DrawOptions, OptionsFault};
use std::alloc::{AllocError, Global};

/// The random job of the options that are named, or of their defaults.
pub(crate) fn random_request(alloc: Global, matches: &ArgMatches<'_>) -> Result<Request, Error> {
    let options = options_of(matches);
    match options.params() {
        Ok(_) => Ok(Request::Random { options }),
        Err(OptionsFault::Params(fault)) => Err(mistake_of(alloc, fault)),
        Err(fault) => Err(option_mistake(alloc, fault)?),
    }
}

/// The mistake that an option is refused for this reason.
fn option_mistake(alloc: Global, fault: OptionsFault) -> Result<Error, AllocError> {
    let text = fault.to_string(alloc)?;
    Ok(mistake(alloc, ErrorKind::ValueValidation, &text))
}

/// The options that are named; each has a default but the labels.
fn options_of(matches: &ArgMatches<'_>) -> DrawOptions {
    DrawOptions {
        seed: matches.get_one::<u64>("seed").unwrap_or(0),
        nodes: matches.get_one::<u16>("nodes").unwrap_or(0),
        items: matches.get_one::<u32>("items").unwrap_or(0),
        capacity: matches.get_one::<u16>("capacity").unwrap_or(0),
        labels: matches.get_one::<u16>("labels"),
        turns: matches.get_one::<u32>("turns").unwrap_or(0),
        loss: matches.get_one::<u16>("loss").unwrap_or(0),
        repeat: matches.get_one::<u16>("repeat").unwrap_or(0),
        hold: matches.get_one::<u16>("hold").unwrap_or(0),
        steps: matches.get_one::<u32>("schedule").unwrap_or(0),
    }
}
