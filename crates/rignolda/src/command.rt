use crate::check::check_request;
use crate::line::{Word, rignolda, word_of};
use crate::random::random_request;
use clap::error::ErrorKind;
use clap::{ArgMatches, Error};
use rignolda_make::DrawOptions;
use stab_frames::{Params, ParamsFault};
use std::alloc::{AllocError, Global};

/// What the program is to do.
#[derive(Debug, Drop)]
pub(crate) enum Request {
    /// Print the worst link job of these parameters.
    Worst {
        params: Params,
    },
    /// Print a random job of a tree by these options.
    Random {
        options: DrawOptions,
    },
    /// Do this with a job, which is read from standard input where no file is named.
    Read {
        reading: Reading,
        file: Option<String>,
    },
    /// Say whether a report of a job obeys; where no file is named, that one is on standard input.
    Check {
        job: Option<String>,
        report: Option<String>,
    },
}

/// What the program is to do with a job that it reads.
#[derive(Clone, Copy, Debug)]
pub(crate) enum Reading {
    /// Draw its run: as a picture, or as text.
    Draw { svg: bool },
    /// Say what is wrong with it and where.
    Explain,
    /// Print the bounds of its nodes.
    Bounds,
    /// Print what its steps come to at each node.
    Scenario,
    /// Say whether its logs obey.
    Judge,
}

/// What the words of a command line ask for, the program's name first. Otherwise the text that
/// answers them: help, the version, or a mistake with a line on the usage.
pub(crate) fn parse(alloc: Global, words: &[String]) -> Result<Request, Error> {
    let matches = matches_of(alloc, words)?;
    request_of(alloc, matches.subcommand())
}

/// What `clap` finds in the words.
fn matches_of<'a>(alloc: Global, words: &'a [String]) -> Result<ArgMatches<'a>, Error> {
    match rignolda(alloc) {
        Ok(command) => command.try_get_matches_from(words),
        Err(refused) => Err(Error::from(refused)),
    }
}

/// What a command and its words ask for.
fn request_of(alloc: Global, named: Option<(&str, &ArgMatches<'_>)>) -> Result<Request, Error> {
    if let Some((name, matches)) = named {
        if let Some(word) = word_of(name) {
            return request_by(alloc, word, matches);
        }
    }
    Err(mistake(alloc, ErrorKind::MissingSubcommand, "no command is named"))
}

/// What this command asks for.
fn request_by(alloc: Global, word: Word, matches: &ArgMatches<'_>) -> Result<Request, Error> {
    match word {
        Word::Worst => worst_request(alloc, matches),
        Word::Random => random_request(alloc, matches),
        Word::Check => check_request(alloc, matches),
        Word::Draw => {
            let svg = matches.get_flag("svg");
            read_request(alloc, Reading::Draw { svg }, matches)
        }
        Word::Explain => read_request(alloc, Reading::Explain, matches),
        Word::Bounds => read_request(alloc, Reading::Bounds, matches),
        Word::Judge => read_request(alloc, Reading::Judge, matches),
        Word::Scenario => read_request(alloc, Reading::Scenario, matches),
    }
}

/// What to do with the job in the file that is named, or in standard input.
fn read_request(
    alloc: Global,
    reading: Reading,
    matches: &ArgMatches<'_>,
) -> Result<Request, Error> {
    let file = match matches.get_str("FILE") {
        None => None,
        Some(path) => Some(String::from_str(alloc, path)?),
    };
    Ok(Request::Read { reading, file })
}

/// The worst job of the capacity and the labels that are named.
fn worst_request(alloc: Global, matches: &ArgMatches<'_>) -> Result<Request, Error> {
    let capacity = matches.get_one::<u16>("capacity").unwrap_or(0);
    let labels = matches.get_one::<u16>("labels").unwrap_or(0);
    match Params::new(capacity, labels) {
        Ok(params) => Ok(Request::Worst { params }),
        Err(fault) => Err(mistake_of(alloc, fault)),
    }
}

/// The mistake that two numbers are no parameters of a link.
pub(crate) fn mistake_of(alloc: Global, fault: ParamsFault) -> Error {
    let text = match fault {
        ParamsFault::CapacityOutOfRange => "the capacity of a link is 1 to 64",
        ParamsFault::LabelsTooFew => "a link has at least twice its capacity and two labels",
        ParamsFault::LabelsTooMany => "a link has at most 1000 labels",
    };
    mistake(alloc, ErrorKind::ValueValidation, text)
}

/// The mistake of this kind with this text; or the fault that memory was refused for it.
pub(crate) fn mistake(alloc: Global, kind: ErrorKind, text: &str) -> Error {
    match made_mistake(alloc, kind, text) {
        Ok(mistake) => mistake,
        Err(refused) => Error::from(refused),
    }
}

/// The mistake of this kind with this text.
fn made_mistake(alloc: Global, kind: ErrorKind, text: &str) -> Result<Error, AllocError> {
    rignolda(alloc)?.error(kind, text)
}
