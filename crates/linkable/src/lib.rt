//! The library for programs in other languages. `include/mjrg.h` declares its functions.
#![tactic(auto)]

ghost use Rattle.std.specs.Prelude.{◌≡◌, ◌≢◌, [], nat_lt};
ghost use Rattle.version.specs.Text.{text_of_version};
ghost use Rattle.linkable.specs.Auditing.{TellsAudit};
ghost use Rattle.linkable.specs.Checking.{TellsCheck, given};
ghost use Rattle.linkable.specs.Handing.{IsHandedOver, IsOutOfMemory, IsSessionOutOfMemory, Writes, WritesSession, buffers};
ghost use Rattle.linkable.specs.Scratching.{TellsScratch};
ghost use Rattle.linkable.specs.Telling.{text_alone};

mod auditing;
mod chains;
mod checking;
mod handing;
mod past;
mod projects;
mod scratching;
mod stopping;
mod terms;
mod told;

use auditing::audit;
use checking::check;
pub use handing::{Outcome, SessionOutcome};
use handing::{hand_over, hand_over_session, hand_over_text};
use scratching::scratch;
use std::alloc::{AllocError, Global};
use version::version_text;

/// Writes what `mjrg --version` prints.
#[unsafe(no_mangle)]
pub extern "C" fn mjrg_version(out: &mut [u8]) -> Outcome
    ensures { IsHandedOver (text_alone text_of_version) result out.old out.new [] [] }
{
    hand_over_text(version_text(), out)
}

/// Checks the project of the files that these bytes are, by the rules of the profile of this number, from scratch. `out`
/// and `err` get what `mjrg scratch` writes on its two streams, with `--messages` unless `messages` is 0.
#[unsafe(no_mangle)]
pub extern "C" fn mjrg_scratch(
    alloc: Global,
    files: &[u8],
    profile: u32,
    messages: u32,
    out: &mut [u8],
    err: &mut [u8],
) -> Outcome
    ensures told { result.status ≢ 4 → Writes (TellsScratch files.now profile (nat_lt 0 messages))
        result out.old out.new err.old err.new }
    ensures memory { result.status ≡ 4
        → IsOutOfMemory result out.old out.new err.old err.new }
{
    match scratch(alloc, files, profile, 0 < messages) {
        Ok(told) => hand_over(&told, out, err),
        Err(AllocError) => Outcome::out_of_memory(),
    }
}

/// Checks the project of the files that these bytes are, by the rules of the profile of this number, over the session of
/// the last of the files that `past` is, if there are any. `session` gets the file of the next session, in the form of this
/// number; `out` and `err` get what `mjrg check` writes on its two streams, with `--messages` unless `messages` is 0.
#[unsafe(no_mangle)]
pub extern "C" fn mjrg_check(
    alloc: Global,
    files: &[u8],
    past: &[u8],
    profile: u32,
    form: u32,
    messages: u32,
    session: &mut [u8],
    out: &mut [u8],
    err: &mut [u8],
) -> SessionOutcome
    ensures told { result.status ≢ 4
        → WritesSession (TellsCheck (given files.now past.now profile form) (nat_lt 0 messages))
        result (buffers session.old out.old err.old) (buffers session.new out.new err.new) }
    ensures memory { result.status ≡ 4
        → IsSessionOutOfMemory result
        (buffers session.old out.old err.old) (buffers session.new out.new err.new) }
{
    match check(alloc, files, past, profile, form, 0 < messages) {
        Ok(told) => hand_over_session(&told, session, out, err),
        Err(AllocError) => SessionOutcome::out_of_memory(),
    }
}

/// Audits the chain of the files that these bytes are, the first session's first; if `sources` has files, the last session
/// has to be one of just these. `out` and `err` get what `mjrg audit` writes on its two streams.
#[unsafe(no_mangle)]
pub extern "C" fn mjrg_audit(
    alloc: Global,
    chain: &[u8],
    sources: &[u8],
    out: &mut [u8],
    err: &mut [u8],
) -> Outcome
    ensures told { result.status ≢ 4 → Writes (TellsAudit chain.now sources.now)
        result out.old out.new err.old err.new }
    ensures memory { result.status ≡ 4
        → IsOutOfMemory result out.old out.new err.old err.new }
{
    match audit(alloc, chain, sources) {
        Ok(told) => hand_over(&told, out, err),
        Err(AllocError) => Outcome::out_of_memory(),
    }
}
