//! The audit of one file after the other by MiniJava's queries.
ghost use Rattle.std.specs.Prelude.{◌≡◌, ◌≢◌, ℕ, List, [], None, map, OnOk, IfOk, IfErr};
ghost use Rattle.std.specs.Arc.{arc_value};
ghost use Rattle.std.specs.Option.{option_copied};
ghost use Rattle.recorder.specs.Projects.{Project};
ghost use Rattle.sessions.specs.Sessions.{SessionValue};
ghost use Rattle.graph_rules.specs.Next.{AreSources};
ghost use Rattle.query_rules.specs.Queries.{queries};
ghost use Rattle.audit_graph.specs.declared.fault.AuditFault.{AuditFault as Fault};
ghost use Rattle.audit_replay.specs.Audits.{AreApart, AreRight, HaveFiles, IsLastProfile, last_entry, last_of};
ghost use Rattle.audit_replay.specs.Sums.{CountsTake};
ghost use Rattle.mini_java.specs.Headline.{ChainRefuses, ChainRefusesAgainst, IsAcceptedAgainst, IsAcceptedChain, IsOfTheRules};
ghost use Rattle.mini_java.specs.Taken.{HasRefused, HasTaken, RefusesBehind, TakesFile};

use audit_graph::AuditFault;
use audit_replay::{Audited, Auditor};
use devices::Feed;
use mj_rules::answer_laws;
use named_files::Project;
use providers::MiniJava;
use sessions::Session;
use std::alloc::Global;

/// Audits the files of a chain of sessions of MiniJava projects one by one, without holding them. Once it has refused it
/// answers the same again, and reads and runs nothing.
#[derive(Drop)]
pub struct ChainAuditor {
    runner: MiniJava,
    auditor: Auditor<MiniJava>,
}

impl ChainAuditor {
    /// An auditor that has taken no file.
    pub fn new(alloc: Global) -> Self
        ensures { HasTaken [] result }
    {
        ChainAuditor {
            runner: MiniJava::new(alloc),
            auditor: Auditor::new(),
        }
    }

    /// Takes the next file, behind which the feed may hold nothing, and audits its session over the one before.
    pub fn take<F: Feed>(&mut self, alloc: Global, feed: &mut F) -> Result<(), AuditFault>
        // A file was taken, whole.
        ensures taken { OnOk result ((file : List ℕ)
            × TakesFile self.old self.new (F.holds feed.old) (F.holds feed.new) file) }
        // Why it is refused after the files taken before, by the bytes that the feed held, if it says which.
        ensures refused { IfErr result (λ fault. (files : List (List ℕ)) (bytes : List ℕ)
            → HasTaken files self.old → F.holds feed.old bytes
            → RefusesBehind files bytes fault) }
        ensures kept { IfErr result (λ fault. HasRefused fault self.new) }
        // What was refused once is refused again.
        ensures again { (fault : Fault) → HasRefused fault self.old
            → (result ≡ Err fault) × (feed.new ≡ feed.old)
            × (self.new.runner ≡ self.old.runner) }
        // A failure of the device is answered exactly if it was counted.
        ensures counted { (files : List (List ℕ)) → HasTaken files self.old
            → CountsTake result (F.failed feed.old) (F.failed feed.new) }
    {
        self.auditor.take(alloc, &mut self.runner, feed)
    }

    /// The session of the file that was taken last, if there is one.
    pub fn session(&self) -> Option<&Session>
        ensures { (files : List (List ℕ)) (taken : HasTaken files self.now)
            → option_copied result ≡ last_of None taken.sessions }
    {
        self.auditor.session()
    }

    /// The profile and the answer that the chain of the files taken ends with, how many there are, and how many records
    /// were run.
    pub fn end(self) -> Result<Audited, AuditFault>
        // What was checked.
        ensures accepted { IfOk result (λ a. (files : List (List ℕ)) → HasTaken files self
            → IsAcceptedChain files a.profile (arc_value a.answer) a.sessions a.runs) }
        // What follows of the sessions whose files were taken: the profile is that of the last one,
        ensures profile { IfOk result (λ a. (files : List (List ℕ))
            (sessions : List SessionValue) → HasTaken files self → HaveFiles sessions files
            → IsLastProfile sessions a.profile) }
        // and if no two different results in them share a fingerprint, each is right over the one before,
        ensures right { IfOk result (λ _. (files : List (List ℕ)) (sessions : List SessionValue)
            → HasTaken files self → HaveFiles sessions files → AreApart sessions
            → AreRight queries None sessions) }
        // and the answer is what the static rules of the profile give the files of the last one.
        ensures headline { IfOk result (λ a. (files : List (List ℕ)) (sessions : List SessionValue)
            (project : Project) → HasTaken files self → HaveFiles sessions files
            → AreApart sessions → AreSources (last_entry sessions) project
            → IsOfTheRules a.profile project (arc_value a.answer)) }
        ensures refused { IfErr result (λ fault. (files : List (List ℕ)) → HasTaken files self
            → ChainRefuses files fault) }
        // It takes no memory.
        ensures memory { IfErr result (λ fault. (files : List (List ℕ)) → HasTaken files self
            → fault ≢ AuditFault.OutOfMemory) }
        ensures again { (fault : Fault) → HasRefused fault self → result ≡ Err fault }
    {
        // The answer that the queries mean is that of the rules.
        answer_laws();
        let ChainAuditor { auditor, .. } = self;
        auditor.end()
    }

    /// The same, if the last session's files are those of the project, and else `SourcesDiffer`.
    pub fn end_against(self, project: &Project) -> Result<Audited, AuditFault>
        // What was checked.
        ensures accepted { IfOk result (λ a. (files : List (List ℕ)) → HasTaken files self
            → IsAcceptedAgainst project.now files a.profile (arc_value a.answer) a.sessions a.runs) }
        // What follows of the sessions whose files were taken: the profile is that of the last one,
        ensures profile { IfOk result (λ a. (files : List (List ℕ))
            (sessions : List SessionValue) → HasTaken files self → HaveFiles sessions files
            → IsLastProfile sessions a.profile) }
        // and if no two different results in them share a fingerprint, each is right over the one before,
        ensures right { IfOk result (λ _. (files : List (List ℕ)) (sessions : List SessionValue)
            → HasTaken files self → HaveFiles sessions files → AreApart sessions
            → AreRight queries None sessions) }
        // and the answer is what the static rules of the profile give the project.
        ensures headline { IfOk result (λ a. (files : List (List ℕ)) (sessions : List SessionValue)
            → HasTaken files self → HaveFiles sessions files → AreApart sessions
            → IsOfTheRules a.profile project.now (arc_value a.answer)) }
        ensures refused { IfErr result (λ fault. (files : List (List ℕ)) → HasTaken files self
            → ChainRefusesAgainst project.now files fault) }
        // It takes no memory.
        ensures memory { IfErr result (λ fault. (files : List (List ℕ)) → HasTaken files self
            → fault ≢ AuditFault.OutOfMemory) }
        ensures again { (fault : Fault) → HasRefused fault self → result ≡ Err fault }
    {
        // The answer that the queries mean is that of the rules.
        answer_laws();
        let ChainAuditor { auditor, .. } = self;
        auditor.end_against(project)
    }
}
