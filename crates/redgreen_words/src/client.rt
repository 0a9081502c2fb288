//! What a client says.
ghost use Rattle.std.specs.Prelude.{◌++◌, List, ℕ, IfErr, IfOk};
ghost use Rattle.redgreen_words.specs.Words.{client_takes};
ghost use Rattle.redgreen_words.specs.Messages.{client_parts, spelled, Fits};
ghost use Rattle.redgreen_words.specs.Feeding.{CountsRead, Given, OfHeld};
ghost use Rattle.redgreen_words.specs.Faults.{IsWrong};
ghost use Rattle.redgreen_words.specs.Steps.{CountsWrite, Finishes, Reads, ReadsBack, Writes};
ghost use Rattle.redgreen_words.specs.declared.word.Word.TheVariants as words;
ghost use Rattle.redgreen_words.specs.declared.client.FromClient.{FromClient};

use crate::fault::{LineFault, ReadFault, WriteFault};
use crate::lines::head_of;
use crate::strings::ByteStrings;
use crate::taking::{take_line, take_numbered, take_string, take_strings, wrong_count};
use crate::word::Word;
use crate::writing::{put_list, put_message};
use devices::{Feed, Sink};
use redgreen_sessions::Bytes;
use std::alloc::Global;

/// A message of a client.
#[derive(Drop)]
pub enum FromClient {
    /// It asks for an audit of the files at these paths, the oldest first.
    Audit { paths: ByteStrings },
    /// The run of this number reads a key.
    Read { id: u64, key: Bytes },
    /// The run of this number gave these bytes.
    Done { id: u64, bytes: Bytes },
    /// The run of this number failed, for this reason.
    Fail { id: u64, text: Bytes },
    /// The bytes of the input that was asked for; none if there is no such input.
    Bytes { bytes: Option<Bytes> },
    /// It wants nothing more.
    Stop,
}

impl FromClient {
    /// Appends the message's bytes.
    pub fn write<W: Sink>(&self, alloc: Global, sink: &mut W) -> Result<(), WriteFault>
        ensures written { Writes (W.holds sink.old) (W.holds sink.new) (client_parts self.now) result }
        ensures counted { CountsWrite result (W.failed sink.old) (W.failed sink.new) }
    {
        match self {
            FromClient::Audit { paths } => put_list(alloc, sink, Word::Audit, &[], paths),
            FromClient::Read { id, key } => {
                put_message(alloc, sink, Word::Read, &[*id], &[key.as_slice()])
            }
            FromClient::Done { id, bytes } => {
                put_message(alloc, sink, Word::Done, &[*id], &[bytes.as_slice()])
            }
            FromClient::Fail { id, text } => {
                put_message(alloc, sink, Word::Fail, &[*id], &[text.as_slice()])
            }
            FromClient::Bytes { bytes: None } => put_message(alloc, sink, Word::Bytes, &[], &[]),
            FromClient::Bytes { bytes: Some(bytes) } => {
                put_message(alloc, sink, Word::Bytes, &[], &[bytes.as_slice()])
            }
            FromClient::Stop => put_message(alloc, sink, Word::Stop, &[], &[]),
        }
    }

    /// Takes a message from the front of what the feed holds, and nothing after it, however few bytes the feed gives at
    /// a time.
    pub fn read<F: Feed>(alloc: Global, feed: &mut F) -> Result<FromClient, ReadFault>
        // Just the message's bytes were taken.
        ensures taken { IfOk result (λ message.
            Given (F.holds feed.old) (F.holds feed.new) (spelled (client_parts message))) }
        // A message that was written is read.
        ensures again { (message : FromClient) (rest : List ℕ) → Fits (client_parts message)
            → F.holds feed.old (spelled (client_parts message) ++ rest)
            → ReadsBack (F.holds feed.new) message rest result }
        // What is wrong, and where.
        ensures wrong { IfErr result (λ fault. OfHeld (F.holds feed.old) (IsWrong client_takes fault)) }
        ensures counted { CountsRead result (F.failed feed.old) (F.failed feed.new) }
    {
        FromClient::read_whole(alloc, feed)
    }

    /// Takes a message from the front of what the feed holds.
    fn read_whole<F: Feed>(alloc: Global, feed: &mut F) -> Result<FromClient, ReadFault>
        ensures value { Reads client_parts client_takes (F.holds feed.old) (F.holds feed.new) result }
        ensures counted { CountsRead result (F.failed feed.old) (F.failed feed.new) }
    {
        match take_line(alloc, feed) {
            Ok(line) => match head_of(alloc, line.as_slice()) {
                Ok(head) => FromClient::read_rest(alloc, feed, head.word, head.numbers.as_slice()),
                Err(fault) => Err(fault),
            },
            Err(fault) => Err(fault),
        }
    }

    /// Takes what comes after the line of a message.
    fn read_rest<F: Feed>(
        alloc: Global,
        feed: &mut F,
        word: Word,
        numbers: &[u64],
    ) -> Result<FromClient, ReadFault>
        ensures value { Finishes client_parts client_takes (F.holds feed.old) (F.holds feed.new) word
            numbers.now result }
        ensures counted { CountsRead result (F.failed feed.old) (F.failed feed.new) }
    {
        match word {
            Word::Audit => match take_strings(alloc, feed, numbers) {
                Ok(paths) => Ok(FromClient::Audit { paths }),
                Err(fault) => Err(fault),
            },
            Word::Read => match take_numbered(alloc, feed, numbers) {
                Ok((id, key)) => Ok(FromClient::Read { id, key }),
                Err(fault) => Err(fault),
            },
            Word::Done => match take_numbered(alloc, feed, numbers) {
                Ok((id, bytes)) => Ok(FromClient::Done { id, bytes }),
                Err(fault) => Err(fault),
            },
            Word::Fail => match take_numbered(alloc, feed, numbers) {
                Ok((id, text)) => Ok(FromClient::Fail { id, text }),
                Err(fault) => Err(fault),
            },
            Word::Bytes => FromClient::read_bytes(alloc, feed, numbers),
            Word::Stop => {
                if numbers.is_empty() {
                    Ok(FromClient::Stop)
                } else {
                    Err(wrong_count(numbers))
                }
            }
            Word::Run | Word::Value | Word::Input | Word::Stale | Word::Accepted | Word::Refused =>
                Err(ReadFault::Line(LineFault::UnknownWord)),
        }
    }

    /// Takes the bytes of an input, if there are any.
    fn read_bytes<F: Feed>(
        alloc: Global,
        feed: &mut F,
        numbers: &[u64],
    ) -> Result<FromClient, ReadFault>
        ensures value { Finishes client_parts client_takes (F.holds feed.old) (F.holds feed.new) words.Bytes
            numbers.now result }
        ensures counted { CountsRead result (F.failed feed.old) (F.failed feed.new) }
    {
        match numbers {
            [] => Ok(FromClient::Bytes { bytes: None }),
            [length] => match take_string(alloc, feed, *length, 0) {
                Ok(bytes) => Ok(FromClient::Bytes { bytes: Some(bytes) }),
                Err(fault) => Err(fault),
            },
            _ => Err(wrong_count(numbers)),
        }
    }
}
