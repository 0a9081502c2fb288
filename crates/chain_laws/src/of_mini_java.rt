//! Laws of chains of sessions of MiniJava projects.
ghost use Rattle.std.specs.Prelude.{◌≡◌, ◌∷◌, ◌++◌, ℕ, List, [], Option, None, Ok};
ghost use Rattle.profiles.specs.declared.profile.Profile.{Profile};
ghost use Rattle.item_ids.specs.declared.key.Key.{Key};
ghost use Rattle.result_bytes.specs.declared.value.Value.{Value};
ghost use Rattle.named_files.specs.Projects.{IsProject};
ghost use Rattle.recorder.specs.Projects.{Project};
ghost use Rattle.query_rules.specs.Reads.{reads};
ghost use Rattle.query_rules.specs.Queries.{queries};
ghost use Rattle.sessions.specs.declared.terms.Terms.{Terms};
ghost use Rattle.sessions.specs.Sessions.{SessionValue, IsSession, IsTakenFrom};
ghost use Rattle.sessions.specs.Spelling.{file_of};
ghost use Rattle.session_file.specs.Reading.{file_after};
ghost use Rattle.driver.specs.declared.reports.Reports.{Reports};
ghost use Rattle.graph_rules.specs.NextSessions.{IsNextSession, ReadsOwnFiles};
ghost use Rattle.driver.specs.Sessions.{DriveGives};
ghost use Rattle.commands.specs.Checks.{IsMadeOver, IsNextByRules};
ghost use Rattle.audit_graph.specs.declared.fault.AuditFault.{AuditFault};
ghost use Rattle.audit_graph.specs.declared.fault.AuditFault.TheVariants.{OutOfMemory};
ghost use Rattle.audit_replay.specs.Audits.{AreApart, IsAccepted, AuditRefuses, last_of};

use driver::sessions_are_next;

/// What Answer leads to in a project are sources of its own files only, in each profile.
pub fn reads_own_files()
    ensures { (profile : Profile) (p : Project) → ReadsOwnFiles (reads profile) p }
{}

/// If files were accepted, they and the file of the next session of a project over the last one are refused only
/// because memory runs out, unless two different results in all of them share a fingerprint.
pub fn next_of_mini_java_is_accepted()
    ensures { (files : List (List ℕ)) (old new : List Key) (profile : Profile)
        (project : Project) (answer : Value) (count runs : ℕ)
        → (accepted : IsAccepted queries files old new profile project answer count runs)
        → (terms : Terms) (p : Project) (next : SessionValue) → IsProject p
        → IsNextSession queries terms (last_of None accepted.sessions) p next
        → AreApart (accepted.sessions ++ next ∷ [])
        → (before after : List Key) (fault : AuditFault)
        → AuditRefuses queries (files ++ file_of next ∷ []) before after fault
        → fault ≡ OutOfMemory }
{}

/// So are they and the file of the session that is made of a project over the last one, by whatever workers and of
/// whatever terms.
pub fn made_is_accepted()
    ensures { (files : List (List ℕ)) (old new : List Key) (profile : Profile)
        (project : Project) (answer : Value) (count runs : ℕ)
        → (accepted : IsAccepted queries files old new profile project answer count runs)
        → (terms : Terms) (p : Project) → IsProject p
        → (workers : ℕ) (made : SessionValue) (reports : Reports) → IsSession made
        → DriveGives queries terms (last_of None accepted.sessions) p workers (Ok (made, reports))
        → AreApart (accepted.sessions ++ made ∷ [])
        → (before after : List Key) (fault : AuditFault)
        → AuditRefuses queries (files ++ file_of made ∷ []) before after fault
        → fault ≡ OutOfMemory }
{
    sessions_are_next();
}

/// Over the last one of an accepted chain the session that a check makes of a project is the next one, and its answer
/// is what the static rules of its profile give the project's files, unless two different results in all of them share
/// a fingerprint.
pub fn checked_is_by_the_rules()
    ensures { (files : List (List ℕ)) (old new : List Key) (profile : Profile)
        (project : Project) (answer : Value) (count runs : ℕ)
        → (accepted : IsAccepted queries files old new profile project answer count runs)
        → (terms : Terms) (p : Project) (made : SessionValue)
        → IsMadeOver terms (last_of None accepted.sessions) p made
        → AreApart (accepted.sessions ++ made ∷ [])
        → IsNextByRules terms (last_of None accepted.sessions) p made }
{}

/// The file of the session that a check makes is read back, over the previous session, as that session.
pub fn made_is_read_back()
    ensures { (terms : Terms) (past : Option SessionValue) (p : Project) (made : SessionValue)
        → IsMadeOver terms past p made
        → IsTakenFrom past made × (file_after past (file_of made) ≡ Ok made) }
{}
