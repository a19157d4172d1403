//! The command line of the program, as a table.

use clap::builder::ValueParser;
use clap::{Arg, ArgAction, Command, value_parser};
use std::alloc::{AllocError, Global};

/// The version of the program.
const VERSION: &str = "0.7.0";

/// A command of the program.
#[derive(Clone, Copy)]
pub(crate) enum Word {
    Bounds,
    Check,
    Draw,
    Explain,
    Judge,
    Random,
    Scenario,
    Worst,
}

/// A command: which it is, its name, what help says of it, and its arguments in their order.
struct Line {
    word: Word,
    name: &'static str,
    about: &'static str,
    arguments: &'static [Argument],
}

/// An argument of a command: its name, what it is, and what help says of it.
struct Argument {
    id: &'static str,
    is_required: bool,
    kind: Kind,
    help: &'static str,
}

/// What an argument is.
enum Kind {
    /// A file.
    File,
    /// An option without a value.
    Flag,
    /// An option with a number, by the bits that it has at most, the name of its value and its
    /// defaults.
    Number(Bits, &'static str, &'static [&'static str]),
}

/// How many bits a number has at most.
enum Bits {
    Sixteen,
    ThirtyTwo,
    SixtyFour,
}

/// The file of a job.
const JOB: Argument = Argument {
    id: "FILE",
    is_required: false,
    kind: Kind::File,
    help: "The job; standard input where it is left out",
};

/// The commands of the program, in the order of its help.
const LINES: &[Line] = &[
    Line {
        word: Word::Bounds,
        name: "bounds",
        about: "Says what the laws allow each node of a job: strays, and missing items",
        arguments: &[JOB],
    },
    Line {
        word: Word::Check,
        name: "check",
        about: "Says whether a report of a job obeys the laws, or which part of it is broken",
        arguments: &[
            Argument {
                id: "JOB",
                is_required: true,
                kind: Kind::File,
                help: "The job; - is standard input",
            },
            Argument {
                id: "REPORT",
                is_required: true,
                kind: Kind::File,
                help: "The text of stab run, tree or link; - is standard input",
            },
        ],
    },
    Line {
        word: Word::Draw,
        name: "draw",
        about: "Draws the run of a link job, a schedule or a scenario, a line for each event",
        arguments: &[
            Argument {
                id: "svg",
                is_required: false,
                kind: Kind::Flag,
                help: "Draw a picture instead, as one file of SVG",
            },
            JOB,
        ],
    },
    Line {
        word: Word::Explain,
        name: "explain",
        about: "Says what is wrong with a link job or a job of a tree, and where",
        arguments: &[JOB],
    },
    Line {
        word: Word::Judge,
        name: "judge",
        about: "Says whether logs since a fault obey the laws, or at which node they do not",
        arguments: &[JOB],
    },
    Line {
        word: Word::Random,
        name: "random",
        about: "Prints a job of a tree with random garbage in it, the same for the same options",
        arguments: &[
            Argument {
                id: "seed",
                is_required: false,
                kind: Kind::Number(Bits::SixtyFour, "N", &["1"]),
                help: "Where the generator begins",
            },
            Argument {
                id: "items",
                is_required: false,
                kind: Kind::Number(Bits::ThirtyTwo, "N", &["10"]),
                help: "How many items the root publishes, up to 10000",
            },
            Argument {
                id: "turns",
                is_required: false,
                kind: Kind::Number(Bits::ThirtyTwo, "N", &["100000"]),
                help: "How many turns each worker of a run has, 1 to 1000000",
            },
            Argument {
                id: "schedule",
                is_required: false,
                kind: Kind::Number(Bits::ThirtyTwo, "N", &["200"]),
                help: "How many steps the schedule has, up to 500000",
            },
            Argument {
                id: "nodes",
                is_required: false,
                kind: Kind::Number(Bits::Sixteen, "N", &["8"]),
                help: "How many nodes the tree has, 1 to 64",
            },
            Argument {
                id: "capacity",
                is_required: false,
                kind: Kind::Number(Bits::Sixteen, "N", &["2"]),
                help: "The greatest capacity of a link, 1 to 64",
            },
            Argument {
                id: "loss",
                is_required: false,
                kind: Kind::Number(Bits::Sixteen, "N", &["100"]),
                help: "Of a thousand sent messages, how many a script drops",
            },
            Argument {
                id: "repeat",
                is_required: false,
                kind: Kind::Number(Bits::Sixteen, "N", &["100"]),
                help: "Of a thousand received messages, how many a script keeps",
            },
            Argument {
                id: "hold",
                is_required: false,
                kind: Kind::Number(Bits::Sixteen, "N", &["2"]),
                help: "How many items a node may begin with, up to 64",
            },
            Argument {
                id: "labels",
                is_required: false,
                kind: Kind::Number(Bits::Sixteen, "K", &[]),
                help: "How many labels each link has; drawn for each link where it is left out",
            },
        ],
    },
    Line {
        word: Word::Scenario,
        name: "scenario",
        about: "Says what a scenario of acts, rounds and faults makes of a tree",
        arguments: &[JOB],
    },
    Line {
        word: Word::Worst,
        name: "worst",
        about: "Prints a link job that delivers as many strays and misses as many items as can be",
        arguments: &[
            Argument {
                id: "capacity",
                is_required: true,
                kind: Kind::Number(Bits::Sixteen, "C", &[]),
                help: "How many entries each queue holds, 1 to 64",
            },
            Argument {
                id: "labels",
                is_required: true,
                kind: Kind::Number(Bits::Sixteen, "K", &[]),
                help: "How many labels there are, from twice the capacity and two to 1000",
            },
        ],
    },
];

/// The command of this name.
pub(crate) fn word_of(name: &str) -> Option<Word> {
    for line in LINES {
        if line.name == name {
            return Some(line.word);
        }
    }
    None
}

/// The command line of the program.
pub(crate) fn rignolda<'a>(alloc: Global) -> Result<Command<'a>, AllocError> {
    match commands(alloc) {
        Ok(commands) => bare(alloc).subcommands(commands),
        Err(refused) => Err(refused),
    }
}

/// The program without its commands.
fn bare<'a>(alloc: Global) -> Command<'a> {
    Command::new(alloc, "rignolda")
        .version(VERSION)
        .about("Makes and examines the jobs of stab")
        .subcommand_required(true)
        .arg_required_else_help(true)
}

/// The commands of the program.
fn commands<'a>(alloc: Global) -> Result<Vec<Command<'a>>, AllocError> {
    let mut commands = Vec::new(alloc);
    for line in LINES {
        add_command(alloc, &mut commands, line)?;
    }
    Ok(commands)
}

/// Adds the command of a line.
fn add_command<'a>(
    alloc: Global,
    commands: &mut Vec<Command<'a>>,
    line: &Line,
) -> Result<(), AllocError> {
    match command_of(alloc, line) {
        Ok(command) => Ok(commands.push(command)?),
        Err(refused) => Err(refused),
    }
}

/// The command of a line.
fn command_of<'a>(alloc: Global, line: &Line) -> Result<Command<'a>, AllocError> {
    match arguments_of(alloc, line.arguments) {
        Ok(arguments) => Command::new(alloc, line.name)
            .about(line.about)
            .args(arguments),
        Err(refused) => Err(refused),
    }
}

/// The arguments of a command.
fn arguments_of<'a>(alloc: Global, rows: &[Argument]) -> Result<Vec<Arg<'a>>, AllocError> {
    let mut arguments = Vec::new(alloc);
    for row in rows {
        arguments.push(argument_of(alloc, row))?;
    }
    Ok(arguments)
}

/// An argument of a command.
fn argument_of<'a>(alloc: Global, row: &Argument) -> Arg<'a> {
    let arg = Arg::new(alloc, row.id)
        .help(row.help)
        .required(row.is_required);
    match &row.kind {
        Kind::File => arg,
        Kind::Flag => arg.long(row.id).action(ArgAction::SetTrue),
        Kind::Number(bits, name, defaults) => arg
            .long(row.id)
            .value_name(name)
            .value_parser(parser_of(bits))
            .default_values(defaults),
    }
}

/// What reads a number of at most `bits` bits.
fn parser_of<'a>(bits: &Bits) -> ValueParser<'a> {
    match bits {
        Bits::Sixteen => value_parser!(u16),
        Bits::ThirtyTwo => value_parser!(u32),
        Bits::SixtyFour => value_parser!(u64),
    }
}
