//! What a command line asks for.
ghost use Rattle.std.specs.Prelude.{◌≡◌, IfSome};
ghost use Rattle.command_line.specs.Subcommands.{word_for};
ghost use Rattle.command_line.specs.declared.asked.WordsFault.TheVariants as fault;

use std::alloc::{AllocError, AllocFailed};
use thiserror::Error;

/// What the program can do.
#[derive(Clone, Copy, Debug, PartialEq, Eq)]
pub enum Subcommand {
    /// Check a project from its files alone.
    Scratch,
    /// Check a project over the last session of a cache.
    Check,
    /// Audit a chain of session files.
    Audit,
    /// Print the last session of a chain.
    Show,
    /// Say why the queries of the last session of a chain were executed.
    Why,
    /// Say what codes mean.
    Explain,
}

impl Subcommand {
    /// The argument that asks for it.
    pub fn name<'a>(self) -> &'a str
        ensures { result.now ≡ word_for self }
    {
        match self {
            Subcommand::Scratch => "scratch",
            Subcommand::Check => "check",
            Subcommand::Audit => "audit",
            Subcommand::Show => "show",
            Subcommand::Why => "why",
            Subcommand::Explain => "explain",
        }
    }

    /// The subcommand that this argument asks for.
    pub(crate) fn of_word(word: &str) -> Option<Subcommand>
        ensures found { IfSome result (λ subcommand. word_for subcommand ≡ word.now) }
        ensures known { (subcommand : Subcommand) → word.now ≡ word_for subcommand
            → result ≡ Some subcommand }
    {
        match word {
            "scratch" => Some(Subcommand::Scratch),
            "check" => Some(Subcommand::Check),
            "audit" => Some(Subcommand::Audit),
            "show" => Some(Subcommand::Show),
            "why" => Some(Subcommand::Why),
            "explain" => Some(Subcommand::Explain),
            _ => None,
        }
    }
}

/// The values of `scratch`.
#[derive(Drop)]
pub struct ScratchWords {
    /// The number of the language's profile, 1 or 2.
    pub profile: u8,
    /// Whether a diagnostic's line has its sentence.
    pub messages: bool,
    /// The source files of the project.
    pub files: Vec<String>,
}

/// The values of `check`.
#[derive(Drop)]
pub struct CheckWords {
    /// The folder of the chains of session files.
    pub cache: String,
    /// How many workers run the queries, 1 to 64.
    pub jobs: usize,
    /// The number of the language's profile, 1 or 2.
    pub profile: u8,
    /// The number of the form in which the session is written, 1 or 2.
    pub form: u8,
    /// Whether a diagnostic's line has its sentence.
    pub messages: bool,
    /// The source files of the project.
    pub files: Vec<String>,
}

/// The values of `audit`.
#[derive(Drop)]
pub struct AuditWords {
    /// The source files of which the last session has to be. If there are none it may be of any.
    pub sources: Vec<String>,
    /// Whether a line is written for each session as soon as it is taken.
    pub progress: bool,
    /// The files of the chain.
    pub files: Vec<String>,
}

/// The values of `show`.
#[derive(Drop)]
pub struct ShowWords {
    /// Whether the session is printed as a graph.
    pub dot: bool,
    /// The key of the record to which the graph is cut down, in its text.
    pub of: Option<String>,
    /// The files of the chain.
    pub files: Vec<String>,
}

/// The values of `why`.
#[derive(Drop)]
pub struct WhyWords {
    /// The key of the one record that is asked about, in its text.
    pub of: Option<String>,
    /// The files of the chain.
    pub files: Vec<String>,
}

/// A subcommand with its values.
#[derive(Drop)]
pub enum Words {
    /// Check the project of these files from scratch.
    Scratch(ScratchWords),
    /// Check the project of these files over the last session of the cache.
    Check(CheckWords),
    /// Audit the chain of these session files.
    Audit(AuditWords),
    /// Print the last session of the chain of these session files.
    Show(ShowWords),
    /// Say why the queries of the last session of the chain of these session files were executed.
    Why(WhyWords),
    /// Say what these codes mean.
    Explain(Vec<String>),
}

/// Why the arguments ask for no subcommand.
#[derive(Debug, Drop, Error)]
pub enum WordsFault {
    /// Help was asked for, or the version. This is its text, which is for standard output.
    #[error("{0}")]
    Help(String),
    /// The arguments are refused. This says why, and is for standard error.
    #[error("{0}")]
    Refused(String),
    /// Memory ran out.
    #[error("out of memory")]
    OutOfMemory,
}

impl From<AllocError> for WordsFault {
    ghost from_gives = { λ _ e. e ≡ fault.OutOfMemory };

    fn from(_error: AllocError) -> WordsFault {
        WordsFault::OutOfMemory
    }
}

impl<T: Drop> From<AllocFailed<T>> for WordsFault {
    ghost from_gives = { λ _ e. e ≡ fault.OutOfMemory };

    fn from(_error: AllocFailed<T>) -> WordsFault {
        WordsFault::OutOfMemory
    }
}
