//! Headers and signatures.
ghost use Rattle.std.specs.Prelude.{◌≡◌, List, ℕ, IfOk, IfErr, Some, None, option_copied, option_map};
ghost use Rattle.std.specs.Arc.{arc_value};
ghost use Rattle.item_ids.specs.declared.key.Key.TheVariants as keys;
ghost use Rattle.recorder.specs.Programs.{Ask, Goes, GivesUp};
ghost use Rattle.run_fixtures.specs.Meaning.{header_value, signature_of};
ghost use Rattle.run_fixtures.specs.Programs.{header_steps, sig_steps, sig_both};

use fingerprint::Sealed;
use item_ids::Key;
use mj_tree::Ty;
use ordered_names::Name;
use recorder::{Reader, Recorder, RunFault, ask_key};
use result_bytes::{Header, Signature, Text, Value};
use std::alloc::{AllocError, Global};
use std::sync::Arc;

/// Asks a key, which is let go here.
fn ask<D: Reader>(recorder: &mut Recorder<D>, key: Key) -> Result<Arc<Sealed>, RunFault>
    ensures ok { IfOk result (λ a. Goes (Ask key) recorder.old (arc_value a) recorder.new) }
    ensures err { IfErr result (λ e. GivesUp (Ask key) recorder.old e recorder.new) }
    ensures follows { D.follows recorder.old.inner recorder.new.inner }
{
    ask_key(recorder, &key)
}

/// Asks the header of a file.
pub fn ask_header<D: Reader>(
    alloc: Global,
    recorder: &mut Recorder<D>,
    file: &Name,
) -> Result<Arc<Sealed>, RunFault>
    ensures ok { IfOk result (λ a. Goes (Ask (keys.Header file.now)) recorder.old (arc_value a)
        recorder.new) }
    ensures err { IfErr result (λ e. GivesUp (Ask (keys.Header file.now)) recorder.old e
        recorder.new) }
    ensures follows { D.follows recorder.old.inner recorder.new.inner }
{
    ask(recorder, Key::Header(file.copy(alloc)?))
}

/// Asks the signature of a file and another one.
pub fn ask_signature<D: Reader>(
    alloc: Global,
    recorder: &mut Recorder<D>,
    file: &Name,
    other: &Name,
) -> Result<Arc<Sealed>, RunFault>
    ensures ok { IfOk result (λ a. Goes (Ask (keys.Sig file.now other.now)) recorder.old
        (arc_value a) recorder.new) }
    ensures err { IfErr result (λ e. GivesUp (Ask (keys.Sig file.now other.now)) recorder.old e
        recorder.new) }
    ensures follows { D.follows recorder.old.inner recorder.new.inner }
{
    ask(recorder, Key::Sig(file.copy(alloc)?, other.copy(alloc)?))
}

/// The header of a file with these bytes.
fn header_for(alloc: Global, text: Option<&Text>) -> Option<Header>
    ensures { result ≡ header_value (option_copied text.entry) }
{
    match text {
        Some(text) => {
            let is_main = text.bytes().is_empty();
            Some(Header::new(is_main, None, Vec::new(alloc), Vec::new(alloc)))
        }
        None => None,
    }
}

/// The header of a file, by its source.
pub fn run_header<D: Reader>(
    alloc: Global,
    recorder: &mut Recorder<D>,
    file: &Name,
) -> Result<Value, RunFault>
    ensures ok { IfOk result (λ v. Goes (header_steps file.now) recorder.old v recorder.new) }
    ensures err { IfErr result (λ e. GivesUp (header_steps file.now) recorder.old e recorder.new) }
    ensures follows { D.follows recorder.old.inner recorder.new.inner }
{
    let sealed = ask(recorder, Key::Source(file.copy(alloc)?))?;
    Ok(Value::Header(header_for(alloc, sealed.value().source())))
}

/// The signature of a file that exists.
fn signature_for(
    alloc: Global,
    header: Option<&Header>,
    other: Option<&Header>,
) -> Result<Option<Signature>, AllocError>
    ensures { IfOk result (λ s. s ≡ signature_of (option_copied header.entry)
        (option_copied other.entry)) }
{
    let Some(header) = header else {
        return Ok(None);
    };
    let mut formals = Vec::new(alloc);
    if !header.is_main() {
        formals.push(Ty::Int)?;
    }
    let returns = if other.is_some() {
        Ty::Boolean
    } else {
        Ty::Int
    };
    Ok(Some(Signature::new(formals, returns)))
}

/// The signature of a file and another one, by their headers.
pub fn run_signature<D: Reader>(
    alloc: Global,
    recorder: &mut Recorder<D>,
    file: &Name,
    other: &Name,
) -> Result<Value, RunFault>
    ensures ok { IfOk result (λ v. Goes (sig_steps file.now other.now) recorder.old v
        recorder.new) }
    ensures err { IfErr result (λ e. GivesUp (sig_steps file.now other.now) recorder.old e
        recorder.new) }
    ensures follows { D.follows recorder.old.inner recorder.new.inner }
{
    let sealed = ask_header(alloc, recorder, file)?;
    match sealed.value().header() {
        None => Ok(Value::Sig(None)),
        Some(_) => run_both(alloc, recorder, file, other),
    }
}

/// The rest of a signature, if the file exists.
fn run_both<D: Reader>(
    alloc: Global,
    recorder: &mut Recorder<D>,
    file: &Name,
    other: &Name,
) -> Result<Value, RunFault>
    ensures ok { IfOk result (λ v. Goes (sig_both file.now other.now) recorder.old v recorder.new) }
    ensures err { IfErr result (λ e. GivesUp (sig_both file.now other.now) recorder.old e
        recorder.new) }
    ensures follows { D.follows recorder.old.inner recorder.new.inner }
{
    let second = ask_header(alloc, recorder, other)?;
    let first = ask_header(alloc, recorder, file)?;
    let signature = signature_for(alloc, first.value().header(), second.value().header())?;
    Ok(Value::Sig(signature))
}
