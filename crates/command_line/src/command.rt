//! The program and its subcommands, as `clap` reads them.
ghost use Rattle.std.specs.Prelude.{◌≡◌, IfOk, false, fold};
ghost use Rattle.clap.specs.Words.{app_of, rule_of, with_rule, with_subcommand};
ghost use Rattle.clap.specs.declared.builder.Command.TheViews.{out-Command};
ghost use Rattle.command_line.specs.Program.{cache_rule, checker_app, files_rule, flag_rule, key_rule, number_rule};
ghost use Rattle.command_line.specs.Program.{options_app, profile_rule, program_app, required_app, option_rules, source_rule, subcommand_app};

use crate::asked::Subcommand;
use crate::help;
use crate::help::{PURPOSE, STATUSES, files, outcome, purpose, value_name};
use clap::{Arg, ArgAction, Command, value_parser};
use std::alloc::{AllocError, Global};
use version::VERSION;

/// The program's name, which stands for the first argument if there is none.
pub(crate) const PROGRAM: &str = "mjrg";

/// The positional that has the names of the files, and of `explain` the codes.
pub(crate) const FILE: &str = "FILE";

/// The option that has the folder of the cache.
pub(crate) const CACHE: &str = "cache";

/// The option that has the number of workers.
pub(crate) const JOBS: &str = "jobs";

/// The option that has the number of the profile.
pub(crate) const PROFILE: &str = "profile";

/// The option that has the number of the form.
pub(crate) const FORM: &str = "form";

/// The flag for the sentences of diagnostics.
pub(crate) const MESSAGES: &str = "messages";

/// The flag for a line of each session that an audit takes.
pub(crate) const PROGRESS: &str = "progress";

/// The flag for the graph of a session.
pub(crate) const DOT: &str = "dot";

/// The option that has the key of a record.
pub(crate) const OF: &str = "of";

/// The option that has the source files of the last session.
pub(crate) const SOURCE: &str = "source";

/// The most workers that `check` can have.
pub(crate) const MOST_JOBS: u8 = 64;

/// The last profile.
pub(crate) const MOST_PROFILE: u8 = 2;

/// The last form.
pub(crate) const MOST_FORM: u8 = 2;

/// The program with its subcommands.
pub(crate) fn program<'a>(alloc: Global) -> Result<Command<'a>, AllocError>
    ensures { IfOk result (λ command. app_of command ≡ program_app) }
{
    let program = checker(alloc)?;
    let program = with_command(alloc, program, Subcommand::Audit)?;
    let program = with_command(alloc, program, Subcommand::Show)?;
    let program = with_command(alloc, program, Subcommand::Why)?;
    with_command(alloc, program, Subcommand::Explain)
}

// The program with `scratch` and `check`.
fn checker<'a>(alloc: Global) -> Result<Command<'a>, AllocError>
    ensures { IfOk result (λ command. app_of command ≡ checker_app) }
{
    let program = named(alloc)?;
    let program = with_command(alloc, program, Subcommand::Scratch)?;
    with_command(alloc, program, Subcommand::Check)
}

// The program before its subcommands.
fn named<'a>(alloc: Global) -> Result<Command<'a>, AllocError>
    ensures { IfOk result (λ command. app_of command ≡ required_app) }
{
    let program = Command::new(alloc, PROGRAM).bin_name(PROGRAM)?;
    Ok(
        program
            .about(PURPOSE)
            .version(VERSION)
            .after_help(STATUSES)
            .subcommand_required(true),
    )
}

// The program with a subcommand.
fn with_command<'a>(
    alloc: Global,
    program: Command<'a>,
    which: Subcommand,
) -> Result<Command<'a>, AllocError>
    ensures { IfOk result (λ command.
        app_of command ≡ with_subcommand (app_of program.entry) (subcommand_app which).top) }
{
    program.subcommand(command_of(alloc, which)?)
}

fn command_of<'a>(alloc: Global, which: Subcommand) -> Result<Command<'a>, AllocError>
    ensures app { IfOk result (λ command. app_of command ≡ subcommand_app which) }
    ensures local { IfOk result (λ command. (out-Command command).has_globals ≡ false) }
{
    options_of(alloc, which)?.arg(files_of(alloc, which))
}

// A subcommand with its options, before its FILEs.
fn options_of<'a>(alloc: Global, which: Subcommand) -> Result<Command<'a>, AllocError>
    ensures app { IfOk result (λ command. app_of command ≡ options_app which) }
    ensures local { IfOk result (λ command. (out-Command command).has_globals ≡ false) }
{
    let command = Command::new(alloc, which.name())
        .about(purpose(which))
        .after_help(outcome(which));
    match which {
        Subcommand::Scratch => scratch_options(alloc, command),
        Subcommand::Check => check_options(alloc, command),
        Subcommand::Audit => command
            .arg(source(alloc))?
            .arg(flag(alloc, PROGRESS, help::PROGRESS)),
        Subcommand::Show => command
            .arg(key(alloc, help::DOT_OF))?
            .arg(flag(alloc, DOT, help::DOT)),
        Subcommand::Why => command.arg(key(alloc, help::WHY_OF)),
        Subcommand::Explain => Ok(command),
    }
}

// A command with the options of `check`.
fn check_options<'a>(alloc: Global, command: Command<'a>) -> Result<Command<'a>, AllocError>
    requires { (out-Command command).has_globals ≡ false }
    ensures app { IfOk result (λ made.
        app_of made ≡ fold with_rule (app_of command.entry) (option_rules Subcommand.Check)) }
    ensures local { IfOk result (λ made. (out-Command made).has_globals ≡ false) }
{
    let command = command
        .arg(cache(alloc))?
        .arg(number(alloc, JOBS, MOST_JOBS, help::JOBS))?
        .arg(number(alloc, FORM, MOST_FORM, help::FORM))?;
    scratch_options(alloc, command)
}

// A command with the options of `scratch`.
fn scratch_options<'a>(alloc: Global, command: Command<'a>) -> Result<Command<'a>, AllocError>
    requires { (out-Command command).has_globals ≡ false }
    ensures app { IfOk result (λ made.
        app_of made ≡ fold with_rule (app_of command.entry) (option_rules Subcommand.Scratch)) }
    ensures local { IfOk result (λ made. (out-Command made).has_globals ≡ false) }
{
    command
        .arg(profile(alloc))?
        .arg(flag(alloc, MESSAGES, help::MESSAGES))
}

fn cache<'a>(alloc: Global) -> Arg<'a>
    ensures rule { rule_of result ≡ cache_rule }
    ensures local { result.global ≡ false }
{
    Arg::new(alloc, CACHE)
        .long(CACHE)
        .value_name("DIR")
        .required(true)
        .help(help::CACHE)
}

fn profile<'a>(alloc: Global) -> Arg<'a>
    ensures rule { rule_of result ≡ profile_rule }
    ensures local { result.global ≡ false }
{
    number(alloc, PROFILE, MOST_PROFILE, help::PROFILE)
}

// An option that has a number from 1 on. (That it is 1 if it is left out is said by the help and made by the
// reader: a default of `clap`'s would be a match like one that was given.)
fn number<'a>(alloc: Global, name: &'a str, most: u8, help: &'a str) -> Arg<'a>
    ensures rule { rule_of result ≡ number_rule name.entry.now most }
    ensures local { result.global ≡ false }
{
    Arg::new(alloc, name)
        .long(name)
        .value_name("N")
        .value_parser(value_parser!(u8).range(1..=most as i64))
        .help(help)
}

// An option without a value.
fn flag<'a>(alloc: Global, name: &'a str, help: &'a str) -> Arg<'a>
    ensures rule { rule_of result ≡ flag_rule name.entry.now }
    ensures local { result.global ≡ false }
{
    Arg::new(alloc, name)
        .long(name)
        .action(ArgAction::SetTrue)
        .help(help)
}

fn key<'a>(alloc: Global, help: &'a str) -> Arg<'a>
    ensures rule { rule_of result ≡ key_rule }
    ensures local { result.global ≡ false }
{
    Arg::new(alloc, OF).long(OF).value_name("KEY").help(help)
}

fn source<'a>(alloc: Global) -> Arg<'a>
    ensures rule { rule_of result ≡ source_rule }
    ensures local { result.global ≡ false }
{
    Arg::new(alloc, SOURCE)
        .long(SOURCE)
        .value_name("FILE")
        .action(ArgAction::Append)
        .help(help::SOURCE)
}

// The last positional, with one value or more.
fn files_of<'a>(alloc: Global, which: Subcommand) -> Arg<'a>
    ensures rule { rule_of result ≡ files_rule }
    ensures local { result.global ≡ false }
{
    Arg::new(alloc, FILE)
        .value_name(value_name(which))
        .required(true)
        .num_args(1..)
        .action(ArgAction::Append)
        .help(files(which))
}
