//! The help texts of the program and its subcommands.
use crate::asked::Subcommand;
use crate::chain_help::{AUDIT, SHOW, WHY};
use code_words::concat_sentences;

/// What the program is for.
pub(crate) const PURPOSE: &str =
    "Check MiniJava projects, from scratch or session by session, and audit chains of session files";

/// What stands below the program's help.
pub(crate) const STATUSES: &str = "\
Standard output has the answer. Standard error has the diagnostics and the counts, or why there is
no answer. 'mjrg help COMMAND' says more of each command.

Examples:
  mjrg scratch src/*.java               check the project of these files
  mjrg check --cache DIR src/*.java     check it over the last session in DIR, and keep the next one
  mjrg audit DIR/c0000/*.mjrg           audit the chain of sessions that is kept there
  mjrg show DIR/c0000/s0000.mjrg        list the records of its first session
  mjrg why DIR/c0000/*.mjrg             say why its last session executed what it executed
  mjrg explain E318                     say what a code means

Exit status:
  0  no diagnostics, an accepted chain, a session that is shown, codes that are explained, help or the
     version
  1  diagnostics
  2  an invalid command line, a file, folder or stream that can't be read or written, a refused
     project, a session file refused by show or why, or an unknown key or code
  3  a chain refused by audit
  4  out of memory";

// The help of scratch and of check, from its parts: the beginning, what standard error begins with, the line on the
// session, what else can't be read or written, and the end.
macro_rules! help_of_project {
    ($front:tt, $notes:tt, $session:tt, $refusals:tt, $behind:tt) => {
        concat_sentences!(
            $front,
            "
Standard output:
  the diagnostics of the project, and then each class with its members and its diagnostics

Standard error:
",
            $notes,
            "  FILE:LINE:COL: CODE               a diagnostic, with the place of its token; COL counts bytes
  FILE: CODE                        one for which there is no token: the file is too long or too deep
  project: CODE                     one of the project as a whole
",
            $session,
            "  or why there is no answer:
  error: WHY                        the command line is invalid
  cannot read FILE                  the source file can't be read
  refused: 3.1 RepeatedFile(N)      file N, counted from 0, has the name of an earlier one
  refused: 3.3 TooManyFiles         there are more than 4,096 files
  refused: 3.4 BadFileName(N)       the name of file N is empty or has over 255 bytes
",
            $refusals,
            "  cannot write standard output      the answer, or the rest of it, can't be written there
  out of memory                     the system refused memory

With --messages the sentence of each diagnostic stands behind its code. Below stands the line of the
source file with the place, and a caret below the place, both behind 4 spaces:

  M.java:3:7: E306: 'this' stands in main
        x = this;
            ^

A tab counts as one column, and a byte that isn't printable ASCII is shown as '?'. Of a line longer
than 200 bytes only what lies within 100 bytes of the place is shown, with '...' where it is cut.

Codes of a project:
  E101  ",
            E101,
            "
  E102  ",
            E102,
            "
  E103  ",
            E103,
            "
  E104  ",
            E104,
            "

Codes of a declaration:
  E201  ",
            E201,
            "
  E202  ",
            E202,
            "
  E203  ",
            E203,
            "
  E204  ",
            E204,
            "
  E205  ",
            E205,
            "; in profile 2
        its return type may be a subclass of the other's
  E206  ",
            E206,
            "
  E207  ",
            E207,
            "

Codes of a body:
  E301  ",
            E301,
            "
  E302  ",
            E302,
            "
  E303  ",
            E303,
            "
  E304  ",
            E304,
            "
  E305  ",
            E305,
            "
  E306  ",
            E306,
            "
  E307  ",
            E307,
            "
  E308  ",
            E308,
            "
  E309  ",
            E309,
            "
  E310  ",
            E310,
            "
  E311  ",
            E311,
            "
  E312  ",
            E312,
            "
  E313  ",
            E313,
            "
  E314  ",
            E314,
            "
  E315  ",
            E315,
            "
  E316  ",
            E316,
            "
  E317  ",
            E317,
            "
  E318  ",
            E318,
            "
  E319  ",
            E319,
            "

",
            $behind,
        )
    };
}

const SCRATCH: &str = help_of_project!(
    "Nothing but the files is read, and nothing is kept.
",
    "",
    "",
    "",
    "
Examples:
  mjrg scratch M.java
  mjrg scratch --profile 2 --messages M.java
  mjrg scratch $(find src -name '*.java' | LC_ALL=C sort)

Exit status:
  0  no diagnostics, or help was asked for
  1  diagnostics
  2  an invalid command line, a file that can't be read, a refused project, or a stream that can't be
     written
  4  out of memory"
);

/// What the DIR of `check` is.
pub(crate) const CACHE: &str = "The folder of the cache; it is made if it is missing";

/// What the N of `--jobs` is.
pub(crate) const JOBS: &str =
    "How many workers run the queries, 1 to 64; no more than files have changed [default: 1]";

/// What the N of `--profile` is.
pub(crate) const PROFILE: &str = "The profile of the language, 1 or 2 [default: 1]";

/// What the N of `--form` is.
pub(crate) const FORM: &str = "The form in which the session is written, 1 or 2 [default: 1]";

/// What `--messages` is.
pub(crate) const MESSAGES: &str =
    "Write each diagnostic's sentence behind its code, and below it its source line with a caret";

/// What the FILE of `--source` is.
pub(crate) const SOURCE: &str =
    "A source file; the last session has to be of just the files given so, in this order";

/// What `--progress` is.
pub(crate) const PROGRESS: &str = "Write a line for each session file as soon as it is taken";

/// What `--dot` is.
pub(crate) const DOT: &str = "Print the graph of the session for Graphviz";

/// What the KEY of `show --of` is.
pub(crate) const DOT_OF: &str =
    "Print only this record, what it reads, what that reads, and so on; needs --dot";

/// What the KEY of `why --of` is.
pub(crate) const WHY_OF: &str = "Say only why this record was executed, down to an input";

const CHECK: &str = help_of_project!(
    "\
The project is checked over the previous session, which is the last one in the cache: a result is
taken over as green if no result that it was made from has changed, and all else is executed. The
new session is written to the cache. What is taken over is believed; 'mjrg audit' tests a cache that
you don't trust. A cache may be deleted at any time. If the previous session is of the other profile
the declarations of each class are checked again, and everything else is compared as ever.

The sessions stand in chains, DIR/c0000/s0000.mjrg, DIR/c0000/s0001.mjrg and so on. The last one of
the highest chain is read; other names are passed over, and what is missing is made. If that file is
refused, or its chain is full, the check has no previous session and begins the next chain, DIR/c0001;
the last one is DIR/c9999. A session's file has all results in form 1. In form 2 it leaves out those
that are green, and is read after the files before it, from the last one of form 1 on.

Several workers run in a thread each and share one table behind a lock; one alone needs neither.
Several make a first check somewhat faster, but not a check with few changes. Over an empty or an
audited cache the session is the same, however many there are, unless two different results share a
fingerprint.
",
    "  note: PATH refused: REFUSAL       a file that is read is refused, as 11.4 BadDigest;
                                    'mjrg help show' lists each REFUSAL
  note: PATH refused: number        the session's number isn't that of the file's name
  note: PATH full                   the chain has no place for another session
  and then
",
    "  session K: E executed, G green    session K was written, with E executed records and G green ones
",
    "  cannot read PATH                  a session's file can't be read
  cannot read DIR                   the cache, or the folder of a chain in it, can't be listed
  cannot write PATH                 the session's file can't be made, or can't be written to its end
  cannot write DIR                  the cache has no place for another chain
",
    "
Examples:
  mjrg check --cache .mjrg src/*.java
  mjrg check --cache .mjrg --jobs 4 src/*.java
  mjrg check --cache .mjrg --profile 2 --form 2 src/*.java

Exit status:
  0  no diagnostics, or help was asked for
  1  diagnostics
  2  an invalid command line, a file, folder or stream that can't be read or written, or a refused
     project
  4  out of memory"
);

const EXPLAIN: &str = "\
Standard output:
  of each CODE, in the order given, its sentence, its rule, an example and what to do

Standard error, if there is no answer:
  error: WHY                    the command line is invalid, or a CODE is unknown; then WHY names all
                                codes that there are, and nothing is printed
  cannot write standard output  the text is missing there, or the rest of it
  out of memory                 the system refused memory

Examples:
  mjrg explain E318
  mjrg explain E205 14.9

Exit status:
  0  the codes are explained, or help was asked for
  2  an invalid command line, an unknown code, or a stream that can't be written
  4  out of memory";

/// What a subcommand is for.
pub(crate) fn purpose<'a>(subcommand: Subcommand) -> &'a str {
    match subcommand {
        Subcommand::Scratch => "Check a project from its source files alone",
        Subcommand::Check => "Check a project over the last session of a cache",
        Subcommand::Audit => "Audit a chain of session files",
        Subcommand::Show => "Print the last session of a chain of session files",
        Subcommand::Why => "Say why each query of the last session of a chain was executed",
        Subcommand::Explain => "Say what the code of a diagnostic or the number of a refusal means",
    }
}

/// What stands below the help of a subcommand.
pub(crate) fn outcome<'a>(subcommand: Subcommand) -> &'a str {
    match subcommand {
        Subcommand::Scratch => SCRATCH,
        Subcommand::Check => CHECK,
        Subcommand::Audit => AUDIT,
        Subcommand::Show => SHOW,
        Subcommand::Why => WHY,
        Subcommand::Explain => EXPLAIN,
    }
}

/// What the FILEs of a subcommand are.
pub(crate) fn files<'a>(subcommand: Subcommand) -> &'a str {
    match subcommand {
        Subcommand::Scratch | Subcommand::Check => {
            "A source file of the project, under the name given here; the order counts"
        }
        Subcommand::Audit | Subcommand::Show | Subcommand::Why => {
            "A session file; the order is that of the chain"
        }
        Subcommand::Explain =>
            "The code of a diagnostic, as E318, or the number of a refusal, as 14.9",
    }
}

/// What the help calls them.
pub(crate) fn value_name<'a>(subcommand: Subcommand) -> &'a str {
    match subcommand {
        Subcommand::Explain => "CODE",
        Subcommand::Scratch
        | Subcommand::Check
        | Subcommand::Audit
        | Subcommand::Show
        | Subcommand::Why => "FILE",
    }
}
