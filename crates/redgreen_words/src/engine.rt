//! What an engine says.
ghost use Rattle.std.specs.Prelude.{◌++◌, List, ℕ, IfErr, IfOk};
ghost use Rattle.redgreen_words.specs.Words.{engine_takes};
ghost use Rattle.redgreen_words.specs.Messages.{engine_parts, spelled, Fits};
ghost use Rattle.redgreen_words.specs.Feeding.{CountsRead, Given, OfHeld};
ghost use Rattle.redgreen_words.specs.Faults.{IsWrong};
ghost use Rattle.redgreen_words.specs.Steps.{CountsWrite, Finishes, Reads, ReadsBack, Writes};
ghost use Rattle.redgreen_words.specs.declared.word.Word.TheVariants as words;
ghost use Rattle.redgreen_words.specs.declared.engine.FromEngine.TheVariants.{Run, Value};
ghost use Rattle.redgreen_words.specs.declared.engine.FromEngine.{FromEngine};

use crate::fault::{LineFault, ReadFault, WriteFault};
use crate::lines::head_of;
use crate::strings::ByteStrings;
use crate::taking::{take_line, take_lone, take_numbered, take_string, take_strings, wrong_count};
use crate::word::Word;
use crate::writing::{put_list, put_message};
use devices::{Feed, Sink};
use redgreen_sessions::Bytes;
use std::alloc::Global;

/// A message of an engine.
#[derive(Drop)]
pub enum FromEngine {
    /// The client is to run this key. The run has this number.
    Run {
        id: u64,
        key: Bytes,
    },
    /// The value that the run of this number read.
    Value {
        id: u64,
        bytes: Bytes,
    },
    /// It asks for the bytes of an input.
    Input {
        key: Bytes,
    },
    /// The chain is accepted, but the input of this key has other bytes now.
    Stale {
        key: Bytes,
    },
    /// The chain is accepted: how many sessions it has, how many runs were made, and the values of the roots.
    Accepted {
        sessions: u64,
        runs: u64,
        values: ByteStrings,
    },
    /// The chain is refused: the index of the session and of its entry, and the number and the text of the reason.
    Refused {
        session: u64,
        entry: u64,
        code: u64,
        text: Bytes,
    },
}

/// Appends the message that the client is to run this key, without a copy of the key.
pub fn write_run<W: Sink>(
    alloc: Global,
    sink: &mut W,
    id: u64,
    key: &[u8],
) -> Result<(), WriteFault>
    ensures written { Writes (W.holds sink.old) (W.holds sink.new) (engine_parts (Run id key.now)) result }
    ensures counted { CountsWrite result (W.failed sink.old) (W.failed sink.new) }
{
    put_message(alloc, sink, Word::Run, &[id], &[key])
}

/// Appends the message with the value that a run read, without a copy of the value.
pub fn write_value<W: Sink>(
    alloc: Global,
    sink: &mut W,
    id: u64,
    bytes: &[u8],
) -> Result<(), WriteFault>
    ensures written { Writes (W.holds sink.old) (W.holds sink.new) (engine_parts (Value id bytes.now)) result }
    ensures counted { CountsWrite result (W.failed sink.old) (W.failed sink.new) }
{
    put_message(alloc, sink, Word::Value, &[id], &[bytes])
}

impl FromEngine {
    /// Appends the message's bytes.
    pub fn write<W: Sink>(&self, alloc: Global, sink: &mut W) -> Result<(), WriteFault>
        ensures written { Writes (W.holds sink.old) (W.holds sink.new) (engine_parts self.now) result }
        ensures counted { CountsWrite result (W.failed sink.old) (W.failed sink.new) }
    {
        match self {
            FromEngine::Run { id, key } => write_run(alloc, sink, *id, key.as_slice()),
            FromEngine::Value { id, bytes } => write_value(alloc, sink, *id, bytes.as_slice()),
            FromEngine::Input { key } => {
                put_message(alloc, sink, Word::Input, &[], &[key.as_slice()])
            }
            FromEngine::Stale { key } => {
                put_message(alloc, sink, Word::Stale, &[], &[key.as_slice()])
            }
            FromEngine::Accepted {
                sessions,
                runs,
                values,
            } => put_list(alloc, sink, Word::Accepted, &[*sessions, *runs], values),
            FromEngine::Refused {
                session,
                entry,
                code,
                text,
            } => put_message(
                alloc,
                sink,
                Word::Refused,
                &[*session, *entry, *code],
                &[text.as_slice()],
            ),
        }
    }

    /// Takes a message from the front of what the feed holds, and nothing after it, however few bytes the feed gives at
    /// a time.
    pub fn read<F: Feed>(alloc: Global, feed: &mut F) -> Result<FromEngine, ReadFault>
        // Just the message's bytes were taken.
        ensures taken { IfOk result (λ message.
            Given (F.holds feed.old) (F.holds feed.new) (spelled (engine_parts message))) }
        // A message that was written is read.
        ensures again { (message : FromEngine) (rest : List ℕ) → Fits (engine_parts message)
            → F.holds feed.old (spelled (engine_parts message) ++ rest)
            → ReadsBack (F.holds feed.new) message rest result }
        // What is wrong, and where.
        ensures wrong { IfErr result (λ fault. OfHeld (F.holds feed.old) (IsWrong engine_takes fault)) }
        ensures counted { CountsRead result (F.failed feed.old) (F.failed feed.new) }
    {
        FromEngine::read_whole(alloc, feed)
    }

    /// Takes a message from the front of what the feed holds.
    fn read_whole<F: Feed>(alloc: Global, feed: &mut F) -> Result<FromEngine, ReadFault>
        ensures value { Reads engine_parts engine_takes (F.holds feed.old) (F.holds feed.new) result }
        ensures counted { CountsRead result (F.failed feed.old) (F.failed feed.new) }
    {
        match take_line(alloc, feed) {
            Ok(line) => match head_of(alloc, line.as_slice()) {
                Ok(head) => FromEngine::read_rest(alloc, feed, head.word, head.numbers.as_slice()),
                Err(fault) => Err(fault),
            },
            Err(fault) => Err(fault),
        }
    }

    /// Takes what comes after the line of a message.
    fn read_rest<F: Feed>(
        alloc: Global,
        feed: &mut F,
        word: Word,
        numbers: &[u64],
    ) -> Result<FromEngine, ReadFault>
        ensures value { Finishes engine_parts engine_takes (F.holds feed.old) (F.holds feed.new) word
            numbers.now result }
        ensures counted { CountsRead result (F.failed feed.old) (F.failed feed.new) }
    {
        match word {
            Word::Run => match take_numbered(alloc, feed, numbers) {
                Ok((id, key)) => Ok(FromEngine::Run { id, key }),
                Err(fault) => Err(fault),
            },
            Word::Value => match take_numbered(alloc, feed, numbers) {
                Ok((id, bytes)) => Ok(FromEngine::Value { id, bytes }),
                Err(fault) => Err(fault),
            },
            Word::Input => match take_lone(alloc, feed, numbers) {
                Ok(key) => Ok(FromEngine::Input { key }),
                Err(fault) => Err(fault),
            },
            Word::Stale => match take_lone(alloc, feed, numbers) {
                Ok(key) => Ok(FromEngine::Stale { key }),
                Err(fault) => Err(fault),
            },
            Word::Accepted => FromEngine::read_accepted(alloc, feed, numbers),
            Word::Refused => FromEngine::read_refused(alloc, feed, numbers),
            Word::Audit | Word::Read | Word::Done | Word::Fail | Word::Bytes | Word::Stop => Err(
                ReadFault::Line(LineFault::UnknownWord),
            ),
        }
    }

    /// Takes the values of an accepted chain's roots.
    fn read_accepted<F: Feed>(
        alloc: Global,
        feed: &mut F,
        numbers: &[u64],
    ) -> Result<FromEngine, ReadFault>
        ensures value { Finishes engine_parts engine_takes (F.holds feed.old) (F.holds feed.new) words.Accepted
            numbers.now result }
        ensures counted { CountsRead result (F.failed feed.old) (F.failed feed.new) }
    {
        let [sessions, runs, lengths @ ..] = numbers else {
            return Err(wrong_count(numbers));
        };
        match take_strings(alloc, feed, lengths) {
            Ok(values) => Ok(FromEngine::Accepted {
                sessions: *sessions,
                runs: *runs,
                values,
            }),
            Err(fault) => Err(fault),
        }
    }

    /// Takes the text of a refusal.
    fn read_refused<F: Feed>(
        alloc: Global,
        feed: &mut F,
        numbers: &[u64],
    ) -> Result<FromEngine, ReadFault>
        ensures value { Finishes engine_parts engine_takes (F.holds feed.old) (F.holds feed.new) words.Refused
            numbers.now result }
        ensures counted { CountsRead result (F.failed feed.old) (F.failed feed.new) }
    {
        let [session, entry, code, length] = numbers else {
            return Err(wrong_count(numbers));
        };
        match take_string(alloc, feed, *length, 0) {
            Ok(text) => Ok(FromEngine::Refused {
                session: *session,
                entry: *entry,
                code: *code,
                text,
            }),
            Err(fault) => Err(fault),
        }
    }
}
