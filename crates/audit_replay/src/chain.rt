//! The audit of chains.
ghost use Rattle.std.specs.Prelude.{◌≡◌, List, None, map, IfOk, IfErr};
ghost use Rattle.std.specs.Arc.{arc_value};
ghost use Rattle.item_ids.specs.declared.key.Key.TheVariants.{Answer};
ghost use Rattle.recorder.specs.Projects.{Project as Files};
ghost use Rattle.sessions.specs.Sessions.{SessionValue};
ghost use Rattle.graph_rules.specs.Next.{AreSources};
ghost use Rattle.audit_replay.specs.Audits.{AreApart, AreRight, AuditRefuses, HaveFiles, IsAccepted, IsLastProfile, IsRefusedBehind, last_entry};
ghost use Rattle.audit_replay.specs.Logs.{RunsExecuted, RunsNoOther};
ghost use Rattle.audit_replay.specs.Sums.{AreSummed};

use crate::auditor::Auditor;
use audit_graph::AuditFault;
use devices::MemoryFeed;
use fingerprint::Sealed;
use profiles::Profile;
use recorder::Runner;
use std::alloc::Global;
use std::sync::Arc;

/// The result of an accepted chain: the profile and the answer of the last session, how many sessions there are, and how
/// many records were run.
pub struct Audited {
    pub profile: Profile,
    pub answer: Arc<Sealed>,
    pub sessions: usize,
    pub runs: u128,
}

impl Drop for Audited {
    fn drop(self) {
        let Audited {
            profile: _,
            answer: _,
            sessions: _,
            runs: _,
        } = self;
    }
}

/// Audits the files of a chain of sessions that begins with an empty cache. If no two different results that they
/// record share a fingerprint, each session of an accepted chain is right over the one before, and the answer is what
/// the files of the last one mean, whoever wrote them.
pub fn audit<R: Runner>(
    alloc: Global,
    runner: &mut R,
    chain: &[&[u8]],
) -> Result<Audited, AuditFault>
    // What was checked.
    ensures accepted { IfOk result (λ a. (p : Files)
        × IsAccepted R.queries (map (λ f. f.now) chain.now) (R.log runner.old)
        (R.log runner.new) a.profile p (arc_value a.answer) a.sessions a.runs) }
    // What follows of the sessions whose files these are: the profile is that of the last one,
    ensures profile { IfOk result (λ a. (sessions : List SessionValue)
        → HaveFiles sessions (map (λ f. f.now) chain.now)
        → IsLastProfile sessions a.profile) }
    // and if no two different results in them share a fingerprint, each is right over the one before,
    ensures right { IfOk result (λ _. (sessions : List SessionValue)
        → HaveFiles sessions (map (λ f. f.now) chain.now) → AreApart sessions
        → AreRight R.queries None sessions) }
    // and the answer is what the files of the last one mean by the profile.
    ensures means { IfOk result (λ a. (sessions : List SessionValue) (p : Files)
        → HaveFiles sessions (map (λ f. f.now) chain.now) → AreApart sessions
        → AreSources (last_entry sessions) p
        → arc_value a.answer ≡ R.queries.mean a.profile p Answer) }
    ensures refused { IfErr result (AuditRefuses R.queries (map (λ f. f.now) chain.now)
        (R.log runner.old) (R.log runner.new)) }
    ensures log { IfOk result (λ a. RunsExecuted (map (λ f. f.now) chain.now)
        (R.log runner.old) (R.log runner.new) a.runs) }
    ensures log_refused { IfErr result (λ _. RunsNoOther (map (λ f. f.now) chain.now)
        (R.log runner.old) (R.log runner.new)) }
{
    match audit_files(alloc, runner, chain) {
        Ok(auditor) => auditor.end(),
        Err(fault) => Err(fault),
    }
}

/// Audits the files, each over the one before, up to the first that is refused.
pub(crate) fn audit_files<R: Runner>(
    alloc: Global,
    runner: &mut R,
    chain: &[&[u8]],
) -> Result<Auditor<R>, AuditFault>
    ensures summed { IfOk result (λ auditor. AreSummed R.queries
        (map (λ f. f.now) chain.now) (R.log runner.old) (R.log runner.new) auditor.state) }
    ensures refused { IfErr result (IsRefusedBehind R.queries (map (λ f. f.now) chain.now)
        (R.log runner.old) (R.log runner.new)) }
{
    let mut auditor = Auditor::new();
    for file in chain {
        let mut feed = MemoryFeed::new(file);
        match auditor.take(alloc, runner, &mut feed) {
            Ok(()) => {}
            Err(fault) => return Err(fault),
        }
    }
    Ok(auditor)
}
