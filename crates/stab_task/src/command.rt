ghost use Rattle.std.specs.Prelude.{◌≡◌, ◌≢◌, ◌≤◌, ◌⊎◌, [], codes, false, length, map, None};
ghost use Rattle.std.specs.Prelude.{option_map, string_bytes, true, IfOk, IfErr, IsOkAnd};
ghost use Rattle.clap.specs.Words.{App, app_of, with_rule, with_subcommand, fault_of, first_of};
ghost use Rattle.clap.specs.Words.{found_of, kind_of, rows_of, rule_of};
ghost use Rattle.clap.specs.Words.{subcommand_of, subcommand_rows_of};
ghost use Rattle.stab_task.specs.CommandLine.{HasLine, file_argument, flag_of, has_trace};
ghost use Rattle.stab_task.specs.CommandLine.{is_from_words, link_line, named_by};
ghost use Rattle.stab_task.specs.CommandLine.{stab_line, task_and_file, task_of, tree_line};
ghost use Rattle.stab_task.specs.CommandLine.{has_both_flags, has_mixed_flag, has_words_flag};
ghost use Rattle.stab_task.specs.CommandLine.{links_by_flags, run_line};
ghost use Rattle.stab_task.specs.CommandLine.{IsTaken, IsWordsFault};

use crate::fault::CliFault;
use clap::error::ErrorKind;
use clap::parser::ValueSource;
use clap::{Arg, ArgAction, ArgMatches, Command, Error};
use stab_run::Links;
use std::alloc::{AllocError, Global};

/// What the program is to do.
#[derive(Clone, Copy, Debug, PartialEq, Eq, Hash)]
pub enum Task {
    /// Replay a link job, and with `trace` print the origins of what it delivers.
    Link { trace: bool },
    /// Run a job's schedule over its whole tree.
    Tree,
    /// Run a job by one worker per node, over these links.
    Run { links: Links },
}

/// The task that these words name, the program's name first, and its file where there is one.
///
/// Words that name no command are `link` without a file. Whatever `clap` refuses is a refused
/// command line, a request for help included, and so are `--words` and `--mixed` together.
pub fn parse(alloc: Global, words: &[String]) -> Result<(Task, Option<String>), CliFault>
    ensures no_words { length words.now ≤ 1
        → IsOkAnd result (λ r. (r.0 ≡ Task.Link false) × (r.1 ≡ None)) }
    ensures taken { IfOk result (λ r. IsTaken (map string_bytes words.now)) }
    ensures named { IfOk result (λ r.
        (r.0, option_map string_bytes r.1) ≡ named_by (map string_bytes words.now)) }
    ensures fault { IfErr result (IsWordsFault (map string_bytes words.now)) }
{
    if words.len() <= 1 {
        return Ok((Task::Link { trace: false }, None));
    }
    let matches = matches_of(alloc, words)?;
    named(alloc, &matches)
}

/// The task and the file that these matches name, unless both flags of `run` are among the words.
fn named(alloc: Global, matches: &ArgMatches<'_>) -> Result<(Task, Option<String>), CliFault>
    ensures taken { IfOk result (λ r. has_both_flags (subcommand_rows_of matches.now) ≡ false) }
    ensures named { IfOk result (λ r. (r.0, option_map string_bytes r.1)
        ≡ task_and_file (subcommand_rows_of matches.now)) }
    ensures fault { IfErr result (λ fault. (fault ≡ CliFault.Memory)
        ⊎ ((fault ≡ CliFault.CommandLine)
        × (has_both_flags (subcommand_rows_of matches.now) ≡ true))) }
{
    match matches.subcommand() {
        None => Ok((Task::Link { trace: false }, None)),
        Some((_, inner)) if has_words(inner) && has_mixed(inner) => Err(CliFault::CommandLine),
        Some((word, inner)) => Ok((named_task(word, inner), file_of(alloc, inner)?)),
    }
}

/// What `clap` finds in the words.
fn matches_of<'a>(alloc: Global, words: &'a [String]) -> Result<ArgMatches<'a>, CliFault>
    ensures matched { IfOk result (λ matches.
        fault_of stab_line (map string_bytes words.entry.now) ≡ []) }
    ensures subcommand { IfOk result (λ matches.
        subcommand_rows_of matches ≡ subcommand_of stab_line (map string_bytes words.entry.now)) }
    ensures fault { IfErr result (IsWordsFault (map string_bytes words.entry.now)) }
{
    let command = stab(alloc)?;
    match command.try_get_matches_from(words) {
        Ok(matches) => Ok(matches),
        Err(error) => Err(refusal(&error)),
    }
}

/// The command `stab` with its three subcommands. It has no subcommand `help`.
fn stab<'a>(alloc: Global) -> Result<Command<'a>, AllocError>
    ensures { IfOk result (λ command. app_of command ≡ stab_line) }
{
    let bare = Command::new(alloc, "stab").disable_help_subcommand(true);
    let with_link = add_to(bare, link(alloc))?;
    let with_tree = add_to(with_link, tree(alloc))?;
    add_to(with_tree, run(alloc))
}

/// The command with this subcommand, where that could be made.
fn add_to<'a>(
    command: Command<'a>,
    subcommand: Result<Command<'a>, AllocError>,
) -> Result<Command<'a>, AllocError>
    ensures { (line : App) → (added : App)
        → app_of command.entry ≡ line → IfOk subcommand.entry (HasLine added)
        → IfOk result (λ whole. app_of whole ≡ with_subcommand line added.top) }
{
    match subcommand {
        Ok(subcommand) => command.subcommand(subcommand),
        Err(refused) => Err(refused),
    }
}

/// The subcommand `link [--trace] [FILE]`.
fn link<'a>(alloc: Global) -> Result<Command<'a>, AllocError>
    ensures { IfOk result (HasLine link_line) }
{
    let link = Ok(Command::new(alloc, "link"));
    with_file(alloc, with_flag(alloc, link, "trace"))
}

/// The subcommand `tree [FILE]`.
fn tree<'a>(alloc: Global) -> Result<Command<'a>, AllocError>
    ensures { IfOk result (HasLine tree_line) }
{
    with_file(alloc, Ok(Command::new(alloc, "tree")))
}

/// The subcommand `run [--words | --mixed] [FILE]`. `clap` is told no rule about both flags
/// together, since its model says exactly which words match only where no argument has such a rule.
fn run<'a>(alloc: Global) -> Result<Command<'a>, AllocError>
    ensures { IfOk result (HasLine run_line) }
{
    let run = Ok(Command::new(alloc, "run"));
    let with_words = with_flag(alloc, run, "words");
    with_file(alloc, with_flag(alloc, with_words, "mixed"))
}

/// The command with a flag of this name, where the command could be made.
fn with_flag<'a>(
    alloc: Global,
    command: Result<Command<'a>, AllocError>,
    name: &'a str,
) -> Result<Command<'a>, AllocError>
    ensures { (line : App) → IfOk command.entry (HasLine line)
        → IfOk result (HasLine (with_rule line (flag_of name.entry.now))) }
{
    match command {
        Ok(command) => command.arg(flag(alloc, name)),
        Err(refused) => Err(refused),
    }
}

/// The flag of this name.
fn flag<'a>(alloc: Global, name: &'a str) -> Arg<'a>
    ensures rule { rule_of result ≡ flag_of name.entry.now }
    ensures local { result.global ≡ false }
{
    Arg::new(alloc, name).long(name).action(ArgAction::SetTrue)
}

/// The command with the argument `FILE`, where the command could be made.
fn with_file<'a>(
    alloc: Global,
    command: Result<Command<'a>, AllocError>,
) -> Result<Command<'a>, AllocError>
    ensures { (line : App) → IfOk command.entry (HasLine line)
        → IfOk result (HasLine (with_rule line file_argument)) }
{
    match command {
        Ok(command) => command.arg(Arg::new(alloc, "FILE")),
        Err(refused) => Err(refused),
    }
}

/// The task of a command word, which is `link`, `tree` or `run`.
fn named_task(word: &str, matches: &ArgMatches<'_>) -> Task
    ensures { result ≡ task_of word.now (rows_of (found_of matches.now)) }
{
    if word == "link" {
        let trace = is_traced(matches);
        Task::Link { trace }
    } else if word == "tree" {
        Task::Tree
    } else {
        let links = named_links(matches);
        Task::Run { links }
    }
}

/// The links that the flags of `run` name.
fn named_links(matches: &ArgMatches<'_>) -> Links
    ensures { result ≡ links_by_flags (rows_of (found_of matches.now)) }
{
    if has_words(matches) {
        Links::Words
    } else if has_mixed(matches) {
        Links::Mixed
    } else {
        Links::Locked
    }
}

/// Whether `--trace` is among the words of a subcommand.
fn is_traced(matches: &ArgMatches<'_>) -> bool
    ensures { result ≡ has_trace (rows_of (found_of matches.now)) }
{
    is_written(matches.value_source("trace"))
}

/// Whether `--words` is among the words of a subcommand.
fn has_words(matches: &ArgMatches<'_>) -> bool
    ensures { result ≡ has_words_flag (rows_of (found_of matches.now)) }
{
    is_written(matches.value_source("words"))
}

/// Whether `--mixed` is among the words of a subcommand.
fn has_mixed(matches: &ArgMatches<'_>) -> bool
    ensures { result ≡ has_mixed_flag (rows_of (found_of matches.now)) }
{
    is_written(matches.value_source("mixed"))
}

/// Whether a value came from the words, and is no default.
fn is_written(source: Option<ValueSource>) -> bool
    ensures { result ≡ is_from_words source }
{
    match source {
        Some(ValueSource::CommandLine) => true,
        Some(ValueSource::DefaultValue) | None => false,
    }
}

/// The file that a subcommand names.
fn file_of(alloc: Global, matches: &ArgMatches<'_>) -> Result<Option<String>, CliFault>
    ensures file { IfOk result (λ file. option_map string_bytes file
        ≡ first_of (codes "FILE") (rows_of (found_of matches.now))) }
    ensures memory { IfErr result (λ fault. fault ≡ CliFault.Memory) }
{
    match matches.get_str("FILE") {
        None => Ok(None),
        Some(path) => Ok(Some(String::from_str(alloc, path)?)),
    }
}

/// The fault of words that `clap` refuses: memory was refused, or the words are no command line.
fn refusal(error: &Error) -> CliFault
    ensures fault { (result ≡ CliFault.Memory)
        ⊎ ((result ≡ CliFault.CommandLine) × (kind_of error.now ≢ ErrorKind.OutOfMemory)) }
    ensures words { kind_of error.now ≢ ErrorKind.OutOfMemory → result ≡ CliFault.CommandLine }
{
    if error.kind() == ErrorKind::OutOfMemory {
        CliFault::Memory
    } else {
        CliFault::CommandLine
    }
}
