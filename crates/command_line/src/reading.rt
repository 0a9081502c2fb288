//! The command line as `clap` reads it.
ghost use Rattle.std.specs.Prelude.{◌≡◌, ◌<◌, Some, None, IfOk, IfErr, IfSome, IsOkUnless, IsTrue};
ghost use Rattle.std.specs.Prelude.{List, codes, map, string_bytes, vec_len};
ghost use Rattle.clap.specs.Words.{first_of, found_of, kind_of, rows_of, subcommand_name_of};
ghost use Rattle.command_line.specs.CommandLine.{Asks};
ghost use Rattle.command_line.specs.Matches.{AreEnough, AreMet, AreWordsOf, files_in, has_flag, met_rows};
ghost use Rattle.command_line.specs.Plain.{IsPlain, asks_plainly, files_for};
ghost use Rattle.command_line.specs.Requests.{IsHelpAsked, IsHelpIf, IsNoHelp};
ghost use Rattle.command_line.specs.Runnable.{IsRunnable};
ghost use Rattle.command_line.specs.Subcommands.{Text, word_for};

use crate::asked::{
    AuditWords, CheckWords, ScratchWords, ShowWords, Subcommand, WhyWords, Words, WordsFault,
};
use crate::command::{
    CACHE, DOT, FILE, FORM, JOBS, MESSAGES, MOST_FORM, MOST_JOBS, MOST_PROFILE, OF, PROFILE,
    PROGRAM, PROGRESS, SOURCE, program,
};
use crate::given::{first, flag, number, text, values};
use crate::requests::is_help_asked;
use clap::error::ErrorKind;
use clap::{ArgMatches, Error};
use std::alloc::Global;

/// Reads a command line, whose first argument is the program's name. An empty list is read as the name
/// alone. The options have the values that the arguments give them, a number that isn't given is 1, and the
/// files or codes are all other arguments. `--of` without `--dot` is refused at `show`. Which other ones are refused,
/// and which ask for help or for the version, is `clap`'s to say.
pub fn words(alloc: Global, list: Vec<String>) -> Result<Words, WordsFault>
    ensures runnable { IfOk result IsRunnable }
    ensures asked { IfOk result (Asks (map string_bytes list.items)) }
    ensures plain { (subcommand : Subcommand) (files : List Text)
        → files_for subcommand (map string_bytes list.items) ≡ Some files
        → IfOk result (IsPlain subcommand files) }
    ensures taken { (subcommand : Subcommand)
        → IsTrue (asks_plainly subcommand (map string_bytes list.items))
        → IsOkUnless result WordsFault.OutOfMemory }
    ensures help { IfErr result (IsHelpAsked (map string_bytes list.items)) }
{
    let mut list = list;
    if list.is_empty() {
        list.push(String::from_str(alloc, PROGRAM)?)?;
    }
    read(alloc, list.as_slice())
}

fn read(alloc: Global, list: &[String]) -> Result<Words, WordsFault>
    ensures runnable { IfOk result IsRunnable }
    ensures asked { IfOk result (Asks (map string_bytes list.now)) }
    ensures plain { (subcommand : Subcommand) (files : List Text)
        → files_for subcommand (map string_bytes list.now) ≡ Some files
        → IfOk result (IsPlain subcommand files) }
    ensures taken { (subcommand : Subcommand)
        → IsTrue (asks_plainly subcommand (map string_bytes list.now))
        → IsOkUnless result WordsFault.OutOfMemory }
    ensures help { IfErr result (IsHelpAsked (map string_bytes list.now)) }
{
    let program = program(alloc)?;
    match program.try_get_matches_from(list) {
        Ok(matches) => choose(alloc, &matches),
        Err(error) => Err(refusal(alloc, &error, is_help_asked(list))),
    }
}

// What the matches ask for. Each test that fails here is one that `clap` has made already, but that of `show --of`.
fn choose(alloc: Global, matches: &ArgMatches<'_>) -> Result<Words, WordsFault>
    ensures runnable { IfOk result IsRunnable }
    ensures met { IfOk result (AreMet matches.now) }
    ensures taken { (subcommand : Subcommand)
        → subcommand_name_of matches.now ≡ Some (word_for subcommand)
        → AreEnough subcommand (met_rows matches.now)
        → IsOkUnless result WordsFault.OutOfMemory }
    ensures refused { IfErr result IsNoHelp }
{
    let Some((name, given)) = matches.subcommand() else {
        return Err(unreadable(alloc));
    };
    match Subcommand::of_word(name) {
        Some(subcommand) => words_of(alloc, subcommand, given),
        None => Err(unreadable(alloc)),
    }
}

// The subcommand with what its matches have.
fn words_of(
    alloc: Global,
    subcommand: Subcommand,
    given: &ArgMatches<'_>,
) -> Result<Words, WordsFault>
    ensures words { IfOk result (AreWordsOf subcommand (files_in (rows_of (found_of given.now)))
        (rows_of (found_of given.now))) }
    ensures taken { AreEnough subcommand (rows_of (found_of given.now))
        → IsOkUnless result WordsFault.OutOfMemory }
    ensures refused { IfErr result IsNoHelp }
{
    let files = values(alloc, given, FILE)?;
    if files.is_empty() {
        return Err(unreadable(alloc));
    }
    match subcommand {
        Subcommand::Scratch => scratch_words(alloc, given, files),
        Subcommand::Check => check_words(alloc, given, files),
        Subcommand::Audit => audit_words(alloc, given, files),
        Subcommand::Show => show_words(alloc, given, files),
        Subcommand::Why => why_words(alloc, given, files),
        Subcommand::Explain => Ok(Words::Explain(files)),
    }
}

// The arguments of `scratch` on these files.
fn scratch_words(
    alloc: Global,
    given: &ArgMatches<'_>,
    files: Vec<String>,
) -> Result<Words, WordsFault>
    requires { 0 < vec_len files }
    ensures words { IfOk result (AreWordsOf Subcommand.Scratch (map string_bytes files.items)
        (rows_of (found_of given.now))) }
    ensures taken { first_of (codes "profile") (rows_of (found_of given.now)) ≡ None
        → IsOkUnless result WordsFault.OutOfMemory }
    ensures refused { IfErr result IsNoHelp }
{
    match number(given, PROFILE, MOST_PROFILE) {
        Some(profile) => Ok(Words::Scratch(ScratchWords {
            profile,
            messages: flag(given, MESSAGES),
            files,
        })),
        None => Err(unreadable(alloc)),
    }
}

// The arguments of `check` on these files.
fn check_words(
    alloc: Global,
    given: &ArgMatches<'_>,
    files: Vec<String>,
) -> Result<Words, WordsFault>
    requires { 0 < vec_len files }
    ensures words { IfOk result (AreWordsOf Subcommand.Check (map string_bytes files.items)
        (rows_of (found_of given.now))) }
    ensures refused { IfErr result IsNoHelp }
{
    let (Some(cache), Some(jobs)) = (first(given, CACHE), number(given, JOBS, MOST_JOBS)) else {
        return Err(unreadable(alloc));
    };
    let (Some(profile), Some(form)) = (
        number(given, PROFILE, MOST_PROFILE),
        number(given, FORM, MOST_FORM),
    ) else {
        return Err(unreadable(alloc));
    };
    Ok(Words::Check(CheckWords {
        cache: String::from_str(alloc, cache)?,
        jobs: usize::from(jobs),
        profile,
        form,
        messages: flag(given, MESSAGES),
        files,
    }))
}

// The arguments of `audit` on these files.
fn audit_words(
    alloc: Global,
    given: &ArgMatches<'_>,
    files: Vec<String>,
) -> Result<Words, WordsFault>
    requires { 0 < vec_len files }
    ensures words { IfOk result (AreWordsOf Subcommand.Audit (map string_bytes files.items)
        (rows_of (found_of given.now))) }
    ensures taken { IsOkUnless result WordsFault.OutOfMemory }
    ensures refused { IfErr result IsNoHelp }
{
    let sources = values(alloc, given, SOURCE)?;
    Ok(Words::Audit(AuditWords {
        sources,
        progress: flag(given, PROGRESS),
        files,
    }))
}

// The arguments of `show` on these files. A record is asked for only of the graph.
fn show_words(
    alloc: Global,
    given: &ArgMatches<'_>,
    files: Vec<String>,
) -> Result<Words, WordsFault>
    requires { 0 < vec_len files }
    ensures words { IfOk result (AreWordsOf Subcommand.Show (map string_bytes files.items)
        (rows_of (found_of given.now))) }
    ensures taken { IfSome (first_of (codes "of") (rows_of (found_of given.now)))
        (λ key. IsTrue (has_flag (codes "dot") (rows_of (found_of given.now))))
        → IsOkUnless result WordsFault.OutOfMemory }
    ensures refused { IfErr result IsNoHelp }
{
    let dot = flag(given, DOT);
    let of = text(alloc, given, OF)?;
    if of.is_some() && !dot {
        return Err(refused(alloc, "error: --of needs --dot\n"));
    }
    Ok(Words::Show(ShowWords { dot, of, files }))
}

// The arguments of `why` on these files.
fn why_words(alloc: Global, given: &ArgMatches<'_>, files: Vec<String>) -> Result<Words, WordsFault>
    requires { 0 < vec_len files }
    ensures words { IfOk result (AreWordsOf Subcommand.Why (map string_bytes files.items)
        (rows_of (found_of given.now))) }
    ensures taken { IsOkUnless result WordsFault.OutOfMemory }
    ensures refused { IfErr result IsNoHelp }
{
    let of = text(alloc, given, OF)?;
    Ok(Words::Why(WhyWords { of, files }))
}

fn unreadable(alloc: Global) -> WordsFault
    ensures { IsNoHelp result }
{
    refused(alloc, "error: the arguments were not read\n")
}

// The arguments are refused with this text.
fn refused(alloc: Global, why: &str) -> WordsFault
    ensures { IsNoHelp result }
{
    match String::from_str(alloc, why) {
        Ok(text) => WordsFault::Refused(text),
        Err(_) => WordsFault::OutOfMemory,
    }
}

// What the program answers if `clap` answers with this error. A text is help only if help is asked for.
fn refusal(alloc: Global, error: &Error, is_asked: bool) -> WordsFault
    ensures memory { kind_of error.now ≡ ErrorKind.OutOfMemory → result ≡ WordsFault.OutOfMemory }
    ensures help { IsHelpIf is_asked result }
{
    let kind = error.kind();
    if kind == ErrorKind::OutOfMemory {
        return WordsFault::OutOfMemory;
    }
    let is_help = kind == ErrorKind::DisplayHelp || kind == ErrorKind::DisplayVersion;
    match format!(in alloc; "{error}") {
        Ok(text) if is_help && is_asked => WordsFault::Help(text),
        Ok(text) => WordsFault::Refused(text),
        Err(_) => WordsFault::OutOfMemory,
    }
}
