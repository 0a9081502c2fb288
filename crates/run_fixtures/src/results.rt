//! What a query's program does over a list of answers.
ghost use Rattle.std.specs.Prelude.{◌≡◌, ◌↔◌, IsTrue, IfOk};
ghost use Rattle.result_bytes.specs.Values.{canon};
ghost use Rattle.answer_fixtures.specs.Telling.{Tell};
ghost use Rattle.run_fixtures.specs.Reading.{EndsWithValue, Wants};

use crate::reads::{Given, are_reads};
use crate::refusals::{KeptReads, keeps};
use answer_fixtures::{Unfit, is_spelled};
use fingerprint::seal;
use recorder::{AnswerList, ReadFault, Recorder, RunFault};
use result_bytes::Value;
use std::alloc::Global;

/// Whether the digits spell the value.
fn has_digits(alloc: Global, value: Value, digits: &str) -> Result<bool, Unfit>
    ensures { IfOk result (λ b. IsTrue b ↔ Tell digits.now (canon value)) }
{
    let sealed = seal(alloc, value)?;
    is_spelled(alloc, &sealed, digits)
}

/// Whether the program came to the value that the digits spell, and the recorder read just these answers.
fn is_come_to(
    alloc: Global,
    end: Result<Value, RunFault>,
    recorder: &Recorder<AnswerList>,
    digits: &str,
    reads: &[Given],
) -> Result<bool, Unfit>
    ensures { IfOk result (λ b. IsTrue b
        ↔ EndsWithValue digits.now reads.now end recorder.now.told) }
{
    match end {
        Ok(value) => {
            Ok(has_digits(alloc, value, digits)? && are_reads(alloc, recorder.reads(), reads)?)
        }
        Err(_) => Ok(false),
    }
}

/// Whether the program came to the value that the digits spell, and read just these answers, in their order.
pub fn comes_to(
    alloc: Global,
    end: Result<Value, RunFault>,
    recorder: Recorder<AnswerList>,
    digits: &str,
    reads: &[Given],
) -> Result<bool, Unfit>
    ensures { IfOk result (λ b. IsTrue b ↔ EndsWithValue digits.now reads.now end recorder.told) }
{
    is_come_to(alloc, end, &recorder, digits, reads)
}

/// Whether the program gave up as an answer isn't held.
fn is_wanting(end: Result<Value, RunFault>) -> bool
    ensures { IsTrue result ↔ (end ≡ Err (RunFault.Read ReadFault.NotHeld)) }
{
    end.err() == Some(RunFault::Read(ReadFault::NotHeld))
}

/// Whether the program gave up as an answer isn't held, and the recorder keeps just this.
fn is_wanted(
    alloc: Global,
    end: Result<Value, RunFault>,
    recorder: &Recorder<AnswerList>,
    kept: KeptReads,
) -> Result<bool, Unfit>
    ensures { IfOk result (λ b. IsTrue b ↔ Wants kept.entry end recorder.now) }
{
    if is_wanting(end) {
        keeps(alloc, recorder, kept)
    } else {
        Ok(false)
    }
}

/// Whether the program gave up as an answer isn't held, and the recorder keeps just this.
pub fn wants(
    alloc: Global,
    end: Result<Value, RunFault>,
    recorder: Recorder<AnswerList>,
    kept: KeptReads,
) -> Result<bool, Unfit>
    ensures { IfOk result (λ b. IsTrue b ↔ Wants kept.entry end recorder) }
{
    is_wanted(alloc, end, &recorder, kept)
}
