//! Parsing of the command line (PROFILE.md, The command).
ghost use Rattle.std.specs.Prelude.{◌≡◌, ◌≢◌, ◌⊎◌, Bool, false, IfErr, IfOk, MatchOption, Some, codes, decimal, map, string_bytes};
ghost use Rattle.clap.specs.Words.{app_of, found_of, kind_of, new_app, one_of, rows_of, rule_of};
ghost use Rattle.clap.specs.declared.builder.command.Command.TheViews.{out-Command as fields_of};
ghost use Rattle.nap_reader.specs.Budgets.{usual_budget};
ghost use Rattle.nap_cli.specs.CommandLine.{Chooses, ChoosesJob, ChoosesStream, IsFault, SaysJob, action_name, budget_rule, canon_app, command_app, command_line_by, flag_rule, option_text, job_name, make_app};

use clap::error::ErrorKind;
use clap::{Arg, ArgAction, ArgMatches, Error, value_parser};
use nap_command::{Action, Command};
use nap_reader::Budget;
use std::alloc::{AllocError, Global};

const PROGRAM: &str = "naplps";

const HEX: &str = "hex";

const BUDGET: &str = "budget";

const STREAM: &str = "stream";

const LIST: &str = "list";

const CHECK: &str = "check";

const CANON: &str = "canon";

const MAKE: &str = "make";

const BATCH: &str = "batch";

/// The version of the program, which is that of the file VERSION at the top, and the form of the canonical streams that it
/// prints.
const VERSION: &str = "0.4.4, canonical form 2";

const USAGE: &str = "naplps COMMAND [OPTIONS] < PAGE";

const ABOUT: &str = "Reads NAPLPS pages and rewrites them in one canonical spelling.

A page is read from standard input, as bytes or as hexadecimal text; without '< PAGE' or a pipe
the program waits for one to be typed. What comes of it goes to standard output, and what goes wrong
to standard error; 'check' prints a refusal as its answer.";

const STATUSES: &str = "Statuses:
  0  accepted
  1  refused, as 'refused 10 Outside at 5': the number and the name of the fault,
     and the place of the byte, from 0.
  2  a wrong command line
  3  a fault of reading or writing, bad hexadecimal text,
     or no memory outside the reading of the page

Example:
  echo '0E 26 52 40 40' | naplps list --hex
prints
  POINT 4194304,4194304 pel=0,0 colour=own-start";

const HEX_HELP: &str =
    "The page is hexadecimal digits, with spaces, tabs and line ends as you like";

const LIST_USAGE: &str = "naplps list [--hex] [--budget N] < PAGE";

const LIST_HELP: &str =
    "Prints one line for each point, line, character or reset that the page draws";

const LIST_EXAMPLE: &str =
    "A refused page prints nothing; standard error says why. Statuses are those of 'naplps --help'.

Example:
  echo '0E 26 52 40 40' | naplps list --hex
prints
  POINT 4194304,4194304 pel=0,0 colour=own-start";

const CHECK_USAGE: &str = "naplps check [--hex] [--budget N] < PAGE";

const CHECK_HELP: &str =
    "Says whether the page is accepted, and with how many entries, or why it is refused";

const CHECK_EXAMPLE: &str =
    "A refusal is printed too, with the status 1. Statuses are those of 'naplps --help'.

Example:
  echo '0E 26 52 40 40' | naplps check --hex
prints
  accepted 1 entries";

const CANON_USAGE: &str = "naplps canon [--hex | --stream] [--budget N] < PAGE";

const CANON_HELP: &str =
    "Prints the page's canonical stream: two pages draw the same acts exactly if these are equal";

const CANON_EXAMPLE: &str =
    "With --hex the canonical stream is printed as lower-case digits. A refused page prints nothing;
standard error says why. With --stream, which goes without --hex, a refused page prints the
canonical text of what comes before the refusal. Statuses are those of 'naplps --help'.

Example:
  echo '0E 26 52 40 40' | naplps canon --hex
prints
  0e215f265240404040404040";

const CANON_STREAM_HELP: &str =
    "Prints while it reads, up to 64 KiB at a time, and keeps no entry,\nso memory doesn't grow with the page";

const MAKE_USAGE: &str = "naplps make [--stream] < LINES";

const MAKE_HELP: &str = "Makes the page of lines as 'list' prints them: its canonical stream";

const MAKE_EXAMPLE: &str =
    "Lines that are no page's print nothing; standard error says the first that is wrong, with the
status 1. With --stream the canonical text of the lines before it is printed.
Statuses are those of 'naplps --help'.

Example:
  echo 'POINT 4194304,4194304 pel=0,0 colour=own-start' | naplps make | naplps list
prints
  POINT 4194304,4194304 pel=0,0 colour=own-start";

const MAKE_STREAM_HELP: &str =
    "Prints while it reads, and keeps one line at most,\nso memory doesn't grow with the page";

const BATCH_USAGE: &str = "naplps batch < REQUESTS";

const BATCH_HELP: &str = "Answers requests, one after another: many pages through one process";

const BATCH_EXAMPLE: &str =
    "A request is a line 'COMMAND BUDGET LENGTH' and then LENGTH bytes, the page.
COMMAND is check, list, canon or places; or make, with lines in place of a page.
An answer is the line of 'check', a line with a number, and so many bytes.
The manual page has all of it.
The status is 0 where the input ends between two requests, else 3.

Example:
  printf 'check 1048576 5\\n\\016\\046\\122\\100\\100' | naplps batch
prints
  accepted 1 entries
  0";

/// What a command line asks for.
#[derive(Clone, Copy, PartialEq, Eq, Drop)]
pub enum Job {
    /// A command on one page.
    Page(Command),
    /// `make`, which prints as it reads or at the end.
    Make(bool),
    /// `batch`.
    Batch,
}

/// The texts of `--budget` with its limits.
#[derive(Drop)]
struct BudgetTexts {
    usual: String,
    help: String,
}

impl BudgetTexts {
    fn new(alloc: Global) -> Result<BudgetTexts, AllocError>
        ensures { IfOk result (λ texts. string_bytes texts.usual ≡ decimal usual_budget) }
    {
        Ok(BudgetTexts {
            usual: Budget::USUAL.to_string(alloc)?,
            help: format!(in alloc;
                "How many bytes of macro bodies the page may be charged with,\nfrom 0 to {}",
                Budget::MOST
            )?,
        })
    }
}

/// Returns a command without options, with its texts of help.
fn described<'a>(
    alloc: Global,
    name: &'a str,
    usage: &'a str,
    about: &'a str,
    example: &'a str,
) -> clap::Command<'a>
    ensures app { app_of result ≡ new_app name.entry.now }
    ensures local { (fields_of result).has_globals ≡ false }
{
    clap::Command::new(alloc, name)
        .override_usage(usage)
        .about(about)
        .after_help(example)
}

/// Returns an option without a value.
fn flag<'a>(alloc: Global, name: &'a str, help: &'a str) -> Arg<'a>
    ensures rule { rule_of result ≡ flag_rule name.entry.now }
    ensures local { result.global ≡ false }
{
    Arg::new(alloc, name)
        .long(name)
        .action(ArgAction::SetTrue)
        .help(help)
}

/// Returns `--budget`.
fn budget_option<'a>(alloc: Global, texts: &'a BudgetTexts) -> Arg<'a>
    ensures rule { rule_of result ≡ budget_rule (string_bytes texts.entry.now.usual) }
    ensures local { result.global ≡ false }
{
    Arg::new(alloc, BUDGET)
        .long(BUDGET)
        .value_name("N")
        .value_parser(value_parser!(u32).range(0..=i64::from(Budget::MOST)))
        .default_value(texts.usual.as_str())
        .help(texts.help.as_str())
}

/// Returns a command with the options that all on one page have.
fn subcommand<'a>(
    alloc: Global,
    texts: &'a BudgetTexts,
    name: &'a str,
    usage: &'a str,
    about: &'a str,
    example: &'a str,
) -> Result<clap::Command<'a>, AllocError>
    ensures app { IfOk result (λ c. app_of c ≡ command_app (string_bytes texts.entry.now.usual) name.entry.now) }
    ensures local { IfOk result (λ c. (fields_of c).has_globals ≡ false) }
{
    described(alloc, name, usage, about, example)
        .arg(flag(alloc, HEX, HEX_HELP))?
        .arg(budget_option(alloc, texts))
}

/// Returns `canon`, which has one more option.
fn canon_command<'a>(alloc: Global, texts: &'a BudgetTexts) -> Result<clap::Command<'a>, AllocError>
    ensures app { IfOk result (λ c. app_of c ≡ canon_app (string_bytes texts.entry.now.usual)) }
    ensures local { IfOk result (λ c. (fields_of c).has_globals ≡ false) }
{
    subcommand(alloc, texts, CANON, CANON_USAGE, CANON_HELP, CANON_EXAMPLE)?.arg(flag(
        alloc,
        STREAM,
        CANON_STREAM_HELP,
    ))
}

/// Returns `make`, which has one option.
fn make_command<'a>(alloc: Global) -> Result<clap::Command<'a>, AllocError>
    ensures { IfOk result (λ c. (app_of c ≡ make_app) × ((fields_of c).has_globals ≡ false)) }
{
    described(alloc, MAKE, MAKE_USAGE, MAKE_HELP, MAKE_EXAMPLE).arg(flag(
        alloc,
        STREAM,
        MAKE_STREAM_HELP,
    ))
}

/// Returns the command line of the program.
fn program<'a>(alloc: Global, texts: &'a BudgetTexts) -> Result<clap::Command<'a>, AllocError>
    ensures { IfOk result (λ c. app_of c ≡ command_line_by (string_bytes texts.entry.now.usual)) }
{
    described(alloc, PROGRAM, USAGE, ABOUT, STATUSES)
        .bin_name(PROGRAM)?
        .version(VERSION)
        .no_binary_name(true)
        .subcommand_required(true)
        .subcommand(subcommand(alloc, texts, LIST, LIST_USAGE, LIST_HELP, LIST_EXAMPLE)?)?
        .subcommand(subcommand(alloc, texts, CHECK, CHECK_USAGE, CHECK_HELP, CHECK_EXAMPLE)?)?
        .subcommand(canon_command(alloc, texts)?)?
        .subcommand(make_command(alloc)?)?
        // `batch` has no option.
        .subcommand(described(alloc, BATCH, BATCH_USAGE, BATCH_HELP, BATCH_EXAMPLE))
}

/// Returns clap's error for words without a command.
fn no_command(program: &mut clap::Command<'_>) -> Error
    ensures { (kind_of result ≡ ErrorKind.OutOfMemory) ⊎ (kind_of result ≡ ErrorKind.MissingSubcommand) }
{
    match program.error(ErrorKind::MissingSubcommand, "there is no such command") {
        Ok(error) => error,
        Err(error) => Error::from(error),
    }
}

/// Returns the job that the words ask for, or clap's error: help, or what is wrong.
pub fn parse(alloc: Global, words: &[String]) -> Result<Job, Error>
    ensures said { IfOk result (λ j. SaysJob (map string_bytes words.now) j) }
    ensures fault { IfErr result (λ e. IsFault (map string_bytes words.now) (kind_of e)) }
{
    let texts = BudgetTexts::new(alloc)?;
    let mut program = program(alloc, &texts)?;
    let matches = program.try_get_matches_from_mut(words)?;
    let said = match matches.subcommand() {
        Some((name, options)) => job_named(name, options),
        None => None,
    };
    match said {
        Some(job) => Ok(job),
        None => Err(no_command(&mut program)),
    }
}

/// Returns the job with this name and these options, which clap has checked.
fn job_named(name: &str, options: &ArgMatches<'_>) -> Option<Job>
    ensures { MatchOption result
        ((j : Job) → job_name j ≡ name.now → ChoosesJob (rows_of (found_of options.now)) j → ⊥)
        (λ j. (job_name j ≡ name.now) × ChoosesJob (rows_of (found_of options.now)) j) }
{
    if name == BATCH {
        return Some(Job::Batch);
    }
    if name == MAKE {
        return Some(Job::Make(stream_chosen(options)?));
    }
    Some(Job::Page(command_named(name, options)?))
}

/// Returns the command with this name and these options, which clap has checked.
fn command_named(name: &str, options: &ArgMatches<'_>) -> Option<Command>
    ensures { MatchOption result
        ((c : Command) → action_name c.action ≡ name.now → Chooses (rows_of (found_of options.now)) c → ⊥)
        (λ c. (action_name c.action ≡ name.now) × Chooses (rows_of (found_of options.now)) c) }
{
    let action = action_named(name)?;
    Some(Command {
        action,
        hex: options.get_one(HEX)?,
        budget: Budget::new(options.get_one(BUDGET)?)?,
        stream: streams(action, options)?,
    })
}

/// Returns the action of the command with this name.
fn action_named(name: &str) -> Option<Action>
    ensures { MatchOption result ((a : Action) → action_name a ≢ name.now) (λ a. action_name a ≡ name.now) }
{
    match name {
        LIST => Some(Action::List),
        CHECK => Some(Action::Check),
        CANON => Some(Action::Canon),
        _ => None,
    }
}

/// Returns whether `--stream` is among the options.
fn stream_chosen(options: &ArgMatches<'_>) -> Option<bool>
    ensures { MatchOption result ((stream : Bool) → one_of (codes "stream") (rows_of (found_of options.now)) ≡ Some (option_text stream) → ⊥)
        (λ stream. one_of (codes "stream") (rows_of (found_of options.now)) ≡ Some (option_text stream)) }
{
    let stream = options.get_one(STREAM)?;
    Some(stream)
}

/// Returns whether an action prints as it reads, by the options of its command.
fn streams(action: Action, options: &ArgMatches<'_>) -> Option<bool>
    ensures { MatchOption result ((stream : Bool) → ChoosesStream action (rows_of (found_of options.now)) stream → ⊥)
        (λ stream. ChoosesStream action (rows_of (found_of options.now)) stream) }
{
    match action {
        Action::Canon => stream_chosen(options),
        _ => Some(false),
    }
}
