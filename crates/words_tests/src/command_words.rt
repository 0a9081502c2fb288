//! Arguments that no shell gives: another name of the program, and none.
use command_line::{Subcommand, Words, WordsFault, words};
use std::alloc::{AllocError, Global};
use std::test::Fail;

/// The arguments of a command line.
fn list(alloc: Global, texts: &[&str]) -> Result<Vec<String>, Fail> {
    let mut list = Vec::new(alloc);
    for text in texts {
        list.push(String::from_str(alloc, text)?)?;
    }
    Ok(list)
}

/// Command lines, the subcommand that they ask for, and the files that they name.
const FILES: &[(&[&str], Subcommand, &[&str])] = &[
    (
        &["mjrg", "scratch", "M.java"],
        Subcommand::Scratch,
        &["M.java"],
    ),
    (
        &["another", "scratch", "b", "a", "", "b"],
        Subcommand::Scratch,
        &["b", "a", "", "b"],
    ),
    (
        &["mjrg", "scratch", "--", "-h", "--"],
        Subcommand::Scratch,
        &["-h", "--"],
    ),
    (
        &["mjrg", "scratch", "scratch", "-", "--", "--help"],
        Subcommand::Scratch,
        &["scratch", "-", "--help"],
    ),
    (
        &["mjrg", "audit", "b", "audit", "", "b"],
        Subcommand::Audit,
        &["b", "audit", "", "b"],
    ),
    (&["mjrg", "show", ""], Subcommand::Show, &[""]),
    (
        &["mjrg", "show", "a", "--", "b", "--"],
        Subcommand::Show,
        &["a", "b", "--"],
    ),
    (
        &["mjrg", "why", "s0", "s1", "s0"],
        Subcommand::Why,
        &["s0", "s1", "s0"],
    ),
    (
        &["mjrg", "explain", "E318", "--", "14.9"],
        Subcommand::Explain,
        &["E318", "14.9"],
    ),
];

/// Whether the texts are these.
fn are_texts(texts: &[String], want: &[&str]) -> bool {
    texts.len() == want.len()
        && texts
            .iter()
            .zip(want)
            .all(|(text, word)| text.as_str() == *word)
}

/// Whether these arguments ask for the subcommand with these files, and for nothing else.
fn are_asked(words: &Words, subcommand: Subcommand, want: &[&str]) -> bool {
    match words {
        Words::Scratch(asked) => {
            subcommand == Subcommand::Scratch
                && asked.profile == 1
                && !asked.messages
                && are_texts(asked.files.as_slice(), want)
        }
        Words::Audit(asked) => {
            subcommand == Subcommand::Audit
                && asked.sources.is_empty()
                && !asked.progress
                && are_texts(asked.files.as_slice(), want)
        }
        Words::Check(_) => false,
        Words::Show(asked) => {
            subcommand == Subcommand::Show
                && !asked.dot
                && asked.of.is_none()
                && are_texts(asked.files.as_slice(), want)
        }
        Words::Why(asked) => {
            subcommand == Subcommand::Why
                && asked.of.is_none()
                && are_texts(asked.files.as_slice(), want)
        }
        Words::Explain(codes) => {
            subcommand == Subcommand::Explain && are_texts(codes.as_slice(), want)
        }
    }
}

/// Whether this command line asks for the subcommand with these files.
fn name_files(
    alloc: Global,
    given: &[&str],
    subcommand: Subcommand,
    want: &[&str],
) -> Result<bool, Fail> {
    let words = words(alloc, list(alloc, given)?)?;
    Ok(are_asked(&words, subcommand, want))
}

#[test]
fn reads_the_files(rt: HostRuntime) -> Result<(), Fail> {
    for (given, subcommand, want) in FILES {
        assert!(rt;
            name_files(rt.alloc(), given, *subcommand, want)?,
            "{given:?}"
        );
    }
    Ok(())
}

/// Command lines of `scratch`, the profile that they give, whether they want sentences, and the files.
const SCRATCHES: &[(&[&str], u8, bool, &[&str])] = &[
    (
        &["mjrg", "scratch", "--profile", "2", "M.java"],
        2,
        false,
        &["M.java"],
    ),
    (
        &["mjrg", "scratch", "b", "--profile=+01", "--messages", "a"],
        1,
        true,
        &["b", "a"],
    ),
    (
        &[
            "mjrg",
            "scratch",
            "2",
            "--profile=2",
            "--",
            "--profile",
            "--messages",
        ],
        2,
        false,
        &["2", "--profile", "--messages"],
    ),
];

/// Whether this command line asks to check these files from scratch so.
fn name_scratch(
    alloc: Global,
    given: &[&str],
    profile: u8,
    messages: bool,
    want: &[&str],
) -> Result<bool, Fail> {
    match words(alloc, list(alloc, given)?)? {
        Words::Scratch(asked) => Ok(
            asked.profile == profile
                && asked.messages == messages
                && are_texts(asked.files.as_slice(), want),
        ),
        _ => Ok(false),
    }
}

#[test]
fn reads_the_options_of_a_scratch(rt: HostRuntime) -> Result<(), Fail> {
    for (given, profile, messages, want) in SCRATCHES {
        assert!(rt;
            name_scratch(rt.alloc(), given, *profile, *messages, want)?,
            "{given:?}"
        );
    }
    Ok(())
}

/// Command lines of `audit`, the sources that they give, whether they want lines of progress, and the session files.
const AUDITS: &[(&[&str], &[&str], bool, &[&str])] = &[
    (
        &[
            "mjrg",
            "audit",
            "s0",
            "--source",
            "b",
            "s1",
            "--source=a",
            "--source=",
        ],
        &["b", "a", ""],
        false,
        &["s0", "s1"],
    ),
    (
        &[
            "mjrg",
            "audit",
            "--progress",
            "--source=--source",
            "--",
            "--source",
            "a",
        ],
        &["--source"],
        true,
        &["--source", "a"],
    ),
    (&["mjrg", "audit", "a", "--progress"], &[], true, &["a"]),
];

/// Whether this command line asks for an audit of these session files over these sources.
fn name_audit(
    alloc: Global,
    given: &[&str],
    sources: &[&str],
    progress: bool,
    want: &[&str],
) -> Result<bool, Fail> {
    match words(alloc, list(alloc, given)?)? {
        Words::Audit(asked) => Ok(
            are_texts(asked.sources.as_slice(), sources)
                && asked.progress == progress
                && are_texts(asked.files.as_slice(), want),
        ),
        _ => Ok(false),
    }
}

#[test]
fn reads_the_options_of_an_audit(rt: HostRuntime) -> Result<(), Fail> {
    for (given, sources, progress, want) in AUDITS {
        assert!(rt;
            name_audit(rt.alloc(), given, sources, *progress, want)?,
            "{given:?}"
        );
    }
    Ok(())
}

/// Command lines of `show` and `why` with options, whether they want the graph, the key of the record that they ask
/// about, and the session files.
const KEYS: &[(&[&str], bool, Option<&str>, &[&str])] = &[
    (
        &["mjrg", "show", "--dot", "s0", "s1"],
        true,
        None,
        &["s0", "s1"],
    ),
    (
        &["mjrg", "show", "s0", "--of", "CheckBody M main", "--dot"],
        true,
        Some("CheckBody M main"),
        &["s0"],
    ),
    (
        &["mjrg", "show", "--dot", "--of=--dot", "--", "--of"],
        true,
        Some("--dot"),
        &["--of"],
    ),
    (
        &["mjrg", "show", "s0", "--of=", "--dot"],
        true,
        Some(""),
        &["s0"],
    ),
    (
        &["mjrg", "why", "--of", "Answer", "s0", "s1"],
        false,
        Some("Answer"),
        &["s0", "s1"],
    ),
    (
        &["mjrg", "why", "s0", "--of=Tree a.java", "--", "--dot"],
        false,
        Some("Tree a.java"),
        &["s0", "--dot"],
    ),
];

/// Whether the key is this one, or is missing as this one is.
fn is_key(key: &Option<String>, want: Option<&str>) -> bool {
    match (key, want) {
        (Some(key), Some(text)) => key.as_str() == text,
        (None, None) => true,
        _ => false,
    }
}

/// Whether this command line asks for the graph, or why, of this record in these session files.
fn name_key(
    alloc: Global,
    given: &[&str],
    dot: bool,
    key: Option<&str>,
    want: &[&str],
) -> Result<bool, Fail> {
    match words(alloc, list(alloc, given)?)? {
        Words::Show(asked) => Ok(
            asked.dot == dot && is_key(&asked.of, key) && are_texts(asked.files.as_slice(), want),
        ),
        Words::Why(asked) => {
            Ok(!dot && is_key(&asked.of, key) && are_texts(asked.files.as_slice(), want))
        }
        _ => Ok(false),
    }
}

#[test]
fn reads_the_keys_of_show_and_why(rt: HostRuntime) -> Result<(), Fail> {
    for (given, dot, key, want) in KEYS {
        assert!(rt; name_key(rt.alloc(), given, *dot, *key, want)?, "{given:?}");
    }
    Ok(())
}

/// What a command line of `check` gives.
struct Check {
    given: &'static [&'static str],
    cache: &'static str,
    jobs: usize,
    profile: u8,
    form: u8,
    messages: bool,
    files: &'static [&'static str],
}

const CHECKS: &[Check] = &[
    Check {
        given: &["mjrg", "check", "--cache", "c", "M.java"],
        cache: "c",
        jobs: 1,
        profile: 1,
        form: 1,
        messages: false,
        files: &["M.java"],
    },
    Check {
        given: &["mjrg", "check", "b", "--jobs", "64", "a", "--cache=", "b"],
        cache: "",
        jobs: 64,
        profile: 1,
        form: 1,
        messages: false,
        files: &["b", "a", "b"],
    },
    Check {
        given: &["mjrg", "check", "--jobs=+07", "--cache=--jobs=8=", "-"],
        cache: "--jobs=8=",
        jobs: 7,
        profile: 1,
        form: 1,
        messages: false,
        files: &["-"],
    },
    Check {
        given: &["mjrg", "check", "--cache", "-", "a", "--", "--jobs", "--"],
        cache: "-",
        jobs: 1,
        profile: 1,
        form: 1,
        messages: false,
        files: &["a", "--jobs", "--"],
    },
    Check {
        given: &[
            "mjrg",
            "check",
            "--form",
            "2",
            "--cache",
            "check",
            "--profile=1",
            "check",
        ],
        cache: "check",
        jobs: 1,
        profile: 1,
        form: 2,
        messages: false,
        files: &["check"],
    },
    Check {
        given: &[
            "mjrg",
            "check",
            "--profile",
            "2",
            "a",
            "--cache=--form",
            "--form=1",
            "--messages",
            "--jobs=2",
        ],
        cache: "--form",
        jobs: 2,
        profile: 2,
        form: 1,
        messages: true,
        files: &["a"],
    },
];

/// Whether these arguments ask for this check.
fn is_check(words: &Words, want: &Check) -> bool {
    match words {
        Words::Check(asked) => {
            asked.cache.as_str() == want.cache
                && asked.jobs == want.jobs
                && asked.profile == want.profile
                && asked.form == want.form
                && asked.messages == want.messages
                && are_texts(asked.files.as_slice(), want.files)
        }
        _ => false,
    }
}

/// Whether its command line asks for this check.
fn name_check(alloc: Global, want: &Check) -> Result<bool, Fail> {
    let words = words(alloc, list(alloc, want.given)?)?;
    Ok(is_check(&words, want))
}

#[test]
fn reads_the_options_of_a_check(rt: HostRuntime) -> Result<(), Fail> {
    for want in CHECKS {
        assert!(rt; name_check(rt.alloc(), want)?, "{:?}", want.given);
    }
    Ok(())
}

/// Command lines that are refused: a number that there isn't, one given twice, an option of another subcommand.
const REFUSED: &[&[&str]] = &[
    &["mjrg", "scratch", "--profile", "3", "M.java"],
    &["mjrg", "scratch", "--profile=0", "M.java"],
    &["mjrg", "scratch", "--profile", "M.java"],
    &["mjrg", "scratch", "--profile=1", "--profile=1", "M.java"],
    &["mjrg", "scratch", "--form=1", "M.java"],
    &["mjrg", "check", "--cache=c", "--form=3", "M.java"],
    &["mjrg", "check", "--profile=2", "M.java"],
    &["mjrg", "audit", "--profile=1", "a"],
    &["mjrg", "show", "--form=1", "a"],
    &["mjrg", "show"],
    &["mjrg", "scratch", "--messages", "--messages", "M.java"],
    &["mjrg", "scratch", "--messages=true", "M.java"],
    &["mjrg", "audit", "--messages", "a"],
    &["mjrg", "audit", "--source", "a"],
    &["mjrg", "audit", "--progress", "--progress", "a"],
    &["mjrg", "audit", "--progress=true", "a"],
    &["mjrg", "audit", "--of", "Answer", "a"],
    &["mjrg", "show", "--dot", "--dot", "a"],
    &["mjrg", "show", "--dot=true", "a"],
    &["mjrg", "show", "--dot", "--of"],
    &["mjrg", "show", "--dot", "--of", "a"],
    &[
        "mjrg",
        "show",
        "--dot",
        "--of",
        "Answer",
        "--of=Answer",
        "a",
    ],
    &["mjrg", "show", "--of", "Answer", "a"],
    &["mjrg", "why"],
    &["mjrg", "why", "--of", "Answer", "--of=Answer", "a"],
    &["mjrg", "why", "--dot", "a"],
    &["mjrg", "why", "a", "--of"],
    &["mjrg", "explain"],
    &["mjrg", "explain", "--messages", "E318"],
];

/// Whether a command line is refused with a text.
fn is_refused(alloc: Global, given: &[&str]) -> Result<bool, Fail> {
    match words(alloc, list(alloc, given)?) {
        Err(WordsFault::Refused(text)) => Ok(text.starts_with("error: ")),
        _ => Ok(false),
    }
}

#[test]
fn refuses_other_options(rt: HostRuntime) -> Result<(), Fail> {
    for given in REFUSED {
        assert!(rt; is_refused(rt.alloc(), given)?, "{given:?}");
    }
    Ok(())
}

/// Command lines that give no files, how the text given instead begins, and whether it is help.
const TOLD: &[(&[&str], bool, &str)] = &[
    (
        &["another", "--help"],
        true,
        "Check MiniJava projects, from scratch or session by session, and audit chains of session files\n\nUsage: mjrg <COMMAND>\n",
    ),
    (
        &[],
        false,
        "error: 'mjrg' requires a subcommand but one was not provided\n",
    ),
    (
        &["another"],
        false,
        "error: 'mjrg' requires a subcommand but one was not provided\n",
    ),
    (
        &["mjrg", "show", "--of", "Answer", "s0"],
        false,
        "error: --of needs --dot\n",
    ),
    (
        &["mjrg", "show", "--of=", "s0"],
        false,
        "error: --of needs --dot\n",
    ),
];

/// Whether a help begins so and has the exit statuses to the last.
fn is_whole_help(text: &str, want: &str) -> bool {
    text.starts_with(want)
        && text.contains("Exit status:\n  0  no diag")
        && text.ends_with("  4  out of memory\n")
}

/// Whether a text that begins like this is given instead of files.
fn is_told(alloc: Global, given: &[&str], is_help: bool, want: &str) -> Result<bool, Fail> {
    match words(alloc, list(alloc, given)?) {
        Err(WordsFault::Help(text)) => Ok(is_help && is_whole_help(text.as_str(), want)),
        Err(WordsFault::Refused(text)) => Ok(!is_help && text.starts_with(want)),
        _ => Ok(false),
    }
}

#[test]
fn tells_of_other_words(rt: HostRuntime) -> Result<(), Fail> {
    for (given, is_help, want) in TOLD {
        assert!(rt; is_told(rt.alloc(), given, *is_help, want)?, "{given:?}");
    }
    Ok(())
}

/// The text on the version, under whatever name the program runs.
const VERSION: &str = "mjrg 0.1.0\nsession files: forms 1 and 2\nlanguage: profiles 1 and 2\n";

/// Command lines that ask for the version.
const VERSIONS: &[&[&str]] = &[
    &["another", "--version"],
    &["mjrg", "-V"],
    &["mjrg", "-Vh"],
    &["mjrg", "--version", "scratch", "M.java"],
];

/// Whether the version is given instead of files.
fn is_version(alloc: Global, given: &[&str]) -> Result<bool, Fail> {
    match words(alloc, list(alloc, given)?) {
        Err(WordsFault::Help(text)) => Ok(text.as_str() == VERSION),
        _ => Ok(false),
    }
}

#[test]
fn tells_the_version(rt: HostRuntime) -> Result<(), Fail> {
    for given in VERSIONS {
        assert!(rt; is_version(rt.alloc(), given)?, "{given:?}");
    }
    Ok(())
}

/// Whether the fault is shown so.
fn is_shown(alloc: Global, fault: &WordsFault, want: &str) -> Result<bool, AllocError> {
    Ok(format!(in alloc; "{fault}")?.as_str() == want)
}

#[test]
fn shows_each_fault(rt: HostRuntime) -> Result<(), Fail> {
    let alloc = rt.alloc();
    let help = WordsFault::Help(String::from_str(alloc, "Usage\n")?);
    assert!(rt; is_shown(alloc, &help, "Usage\n")?);
    let refused = WordsFault::Refused(String::from_str(alloc, "error\n")?);
    assert!(rt; is_shown(alloc, &refused, "error\n")?);
    assert!(rt; is_shown(alloc, &WordsFault::OutOfMemory, "out of memory")?);
    Ok(())
}
