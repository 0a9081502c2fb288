//! Auditors that are refused memory: they stay so, and another one begins anew.
ghost use Rattle.std.specs.Prelude.{◌≡◌, ◌⊎◌, map, IfOk, IsTrue};
ghost use Rattle.query_rules.specs.Queries.{queries};
ghost use Rattle.audit_replay.specs.Sums.{AreSummed};
ghost use Rattle.audit_fixtures.specs.Chains.{IsAcceptedAs, AreAcceptedFiles, IsWithoutMemory, IsAudited, IsAuditedOrStays, IsSaidOf};

use crate::audits::{Said, says, told, wanted};
use crate::chain::{begins, ends, files_of, runs_of, slices};
use answer_fixtures::Unfit;
use audit_graph::AuditFault;
use audit_replay::Auditor;
use devices::Feed;
use providers::MiniJava;
use session_fixtures::{FailingFeed, Manner, twice};
use std::alloc::Global;
use table_fixtures::Change;

/// A feed of these bytes that doesn't fail, and gives so many in a call at most.
fn in_pieces(bytes: &[u8], piece: usize) -> FailingFeed<'_>
    ensures { result.rest.now ≡ bytes.now }
{
    FailingFeed::new(
        bytes,
        Manner {
            piece,
            failing: None,
        },
    )
}

/// A feed of these bytes that doesn't fail, and gives all of them in a call.
pub(crate) fn plain(bytes: &[u8]) -> FailingFeed<'_>
    ensures { result.rest.now ≡ bytes.now }
{
    in_pieces(bytes, bytes.len())
}

/// Whether an auditor that has refused answers the same again to each call, and neither reads nor runs anything: from the
/// feed that it had, and from one that holds the whole file.
pub(crate) fn stays(
    alloc: Global,
    auditor: Auditor<MiniJava>,
    runner: &mut MiniJava,
    feed: &mut FailingFeed,
    file: &[u8],
    fault: AuditFault,
) -> bool {
    let mut auditor = auditor;
    let (left, calls, runs) = (feed.rest().len(), feed.calls(), runner.log().len());
    let mut whole = plain(file);
    let is_same = auditor.take(alloc, runner, feed) == Err(fault)
        && auditor.take(alloc, runner, &mut whole) == Err(fault);
    let is_unread = (feed.rest().len(), feed.calls()) == (left, calls)
        && (whole.rest().len(), whole.calls()) == (file.len(), 0);
    is_same && is_unread && runner.log().len() == runs && told(auditor.end()) == Err(fault)
}

/// Whether an auditor takes the files one by one and accepts them, or stays refused once memory was refused.
fn is_taken_or_stays(
    alloc: Global,
    chain: &[Change],
    files: &[&[u8]],
    runner: &mut MiniJava,
) -> bool
    ensures { IsTrue result → AreAcceptedFiles chain.now (map (λ f. f.now) files.now)
        ⊎ IsWithoutMemory (map (λ f. f.now) files.now) }
{
    let Some(wanted) = wanted(chain) else {
        return false;
    };
    let mut auditor = Auditor::new();
    for file in files {
        let mut feed = plain(file);
        match auditor.take(alloc, runner, &mut feed) {
            Ok(()) => {}
            Err(AuditFault::OutOfMemory) => {
                return begins(chain, runner.log())
                    && stays(
                        alloc,
                        auditor,
                        runner,
                        &mut feed,
                        file,
                        AuditFault::OutOfMemory,
                    );
            }
            Err(_) => return false,
        }
    }
    says(&told(auditor.end()), wanted)
}

/// Whether an auditor takes the files of the chain's sessions one by one and accepts them, or stays refused once memory was
/// refused.
pub fn auditor_stays(alloc: Global, chain: &[Change]) -> Result<bool, Unfit>
    ensures { IfOk result (λ b. IsTrue b → IsAuditedOrStays chain.now) }
{
    let files = twice(&|| files_of(alloc, chain))?;
    let list = twice(&|| slices(alloc, files.as_slice()))?;
    let mut runner = MiniJava::new(alloc);
    Ok(is_taken_or_stays(alloc, chain, list.as_slice(), &mut runner))
}

/// An auditor that has taken these files one by one, from feeds that give so many bytes in a call at most.
pub(crate) fn taken(
    alloc: Global,
    files: &[&[u8]],
    runner: &mut MiniJava,
    piece: usize,
) -> Result<Auditor<MiniJava>, AuditFault>
    ensures { IfOk result (λ auditor. AreSummed queries (map (λ f. f.now) files.now)
        runner.old.log.items runner.new.log.items auditor.state) }
{
    let mut auditor = Auditor::new();
    for file in files {
        auditor.take(alloc, runner, &mut in_pieces(file, piece))?;
    }
    Ok(auditor)
}

/// What is said by an auditor that takes the files one by one, from feeds that give so many bytes in a call at most.
fn taken_in_turn(alloc: Global, files: &[&[u8]], runner: &mut MiniJava, piece: usize) -> Said
    ensures { IfOk result (IsAcceptedAs (map (λ f. f.now) files.now) runner.old.log.items
        runner.new.log.items) }
{
    let auditor = taken(alloc, files, runner, piece)?;
    told(auditor.end())
}

/// Whether an auditor takes the files and accepts them, or another one does with the same runner if memory was refused.
fn is_taken(
    alloc: Global,
    chain: &[Change],
    files: &[&[u8]],
    runner: &mut MiniJava,
    piece: usize,
) -> bool
    ensures { IsTrue result → AreAcceptedFiles chain.now (map (λ f. f.now) files.now) }
{
    let Some(wanted) = wanted(chain) else {
        return false;
    };
    match taken_in_turn(alloc, files, runner, piece) {
        Err(AuditFault::OutOfMemory) => taken_in_turn(alloc, files, runner, piece) == Ok(wanted),
        said => said == Ok(wanted),
    }
}

/// Whether the log has all that is run behind a beginning of it.
fn is_logged(chain: &[Change], runner: &MiniJava) -> bool {
    match runs_of(chain) {
        Some(runs) => ends(chain, runner.log(), runs),
        None => false,
    }
}

/// What is said by an auditor that takes the files of the chain's sessions, from feeds that give so many bytes in a call at
/// most. The log of its runner has just what is run.
pub fn said_in_pieces(alloc: Global, chain: &[Change], piece: usize) -> Result<Said, Unfit>
    ensures { IfOk result (IsSaidOf chain.now) }
{
    let files = files_of(alloc, chain)?;
    let list = slices(alloc, files.as_slice())?;
    let mut runner = MiniJava::new(alloc);
    let said = taken_in_turn(alloc, list.as_slice(), &mut runner, piece);
    if begins(chain, runner.log()) && is_logged(chain, &runner) {
        Ok(said)
    } else {
        Err(Unfit)
    }
}

/// Whether the files of the chain's sessions are taken one by one and accepted, and again from the first on if memory was
/// refused, by another auditor with the same runner. The log of the runner then has all that is run behind a beginning of it.
/// The feeds give so many bytes in a call at most.
pub fn auditor_again(alloc: Global, chain: &[Change], piece: usize) -> Result<bool, Unfit>
    ensures { IfOk result (λ b. IsTrue b → IsAudited chain.now) }
{
    let files = twice(&|| files_of(alloc, chain))?;
    let list = twice(&|| slices(alloc, files.as_slice()))?;
    let mut runner = MiniJava::new(alloc);
    let is_taken = is_taken(alloc, chain, list.as_slice(), &mut runner, piece);
    Ok(is_taken && is_logged(chain, &runner))
}
