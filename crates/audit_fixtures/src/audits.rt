//! Audits that are refused memory, and made again.
ghost use Rattle.std.specs.Prelude.{◌≡◌, [], List, length, map, Ok, IfOk, IfSome, IsTrue};
ghost use Rattle.item_ids.specs.declared.key.Key.{Key as SpecKey};
ghost use Rattle.audit_fixtures.specs.Chains.{runs_told, said_by_audit, IsAcceptedAs, AreAcceptedFiles, IsAudited};

use crate::chain::{begins, files_of, runs_of, slices};
use answer_fixtures::Unfit;
use audit_graph::AuditFault;
use audit_replay::{Audited, audit};
use providers::MiniJava;
use session_fixtures::twice;
use std::alloc::Global;
use table_fixtures::Change;

/// What an audit says: how many sessions there are and records were run, or its refusal.
pub type Said = Result<(usize, u128), AuditFault>;

pub(crate) fn told(audited: Result<Audited, AuditFault>) -> Said
    ensures { result ≡ said_by_audit audited }
{
    match audited {
        Ok(audited) => Ok((audited.sessions, audited.runs)),
        Err(fault) => Err(fault),
    }
}

/// What is said of the whole chain. None if that is past the numbers that there are.
pub(crate) fn wanted(chain: &[Change]) -> Option<(usize, u128)>
    ensures { IfSome result (λ said. said ≡ (length chain.now, runs_told chain.now)) }
{
    let runs = runs_of(chain)?;
    Some((chain.len(), runs as u128))
}

/// Whether an audit accepts and says this.
pub(crate) fn says(said: &Said, wanted: (usize, u128)) -> bool
    ensures { IsTrue result → said.now ≡ Ok wanted }
{
    *said == Ok(wanted)
}

/// Whether the log of a runner is what an audit with this result should have run, or a beginning of it if it refuses.
fn is_logged(chain: &[Change], runner: &MiniJava, said: &Said) -> bool {
    begins(chain, runner.log()) && (said.is_err() || runs_of(chain) == Some(runner.log().len()))
}

/// What an audit says of the chain's files. None if it didn't run what it should.
fn audited(alloc: Global, chain: &[Change], files: &[&[u8]]) -> Option<Said>
    ensures { IfSome result (λ said. IfOk said (λ both. (log : List SpecKey)
        × IsAcceptedAs (map (λ f. f.now) files.now) [] log both)) }
{
    let mut runner = MiniJava::new(alloc);
    let said = told(audit(alloc, &mut runner, files));
    if is_logged(chain, &runner, &said) {
        Some(said)
    } else {
        None
    }
}

/// Whether an audit accepts the chain's files, and one that is made once more if the first was refused memory.
fn is_audited(alloc: Global, chain: &[Change], files: &[&[u8]]) -> bool
    ensures { IsTrue result → AreAcceptedFiles chain.now (map (λ f. f.now) files.now) }
{
    let Some(wanted) = wanted(chain) else {
        return false;
    };
    match audited(alloc, chain, files) {
        Some(Err(AuditFault::OutOfMemory)) => audited(alloc, chain, files) == Some(Ok(wanted)),
        said => said == Some(Ok(wanted)),
    }
}

/// Whether the files of the chain's sessions are accepted, by an audit that is made once more if memory was refused. The log
/// of its runner then is a beginning of what is run.
pub fn audit_again(alloc: Global, chain: &[Change]) -> Result<bool, Unfit>
    ensures { IfOk result (λ b. IsTrue b → IsAudited chain.now) }
{
    let files = twice(&|| files_of(alloc, chain))?;
    let list = twice(&|| slices(alloc, files.as_slice()))?;
    Ok(is_audited(alloc, chain, list.as_slice()))
}
