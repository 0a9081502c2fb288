//! Laws of a chain and a session over its last one.
ghost use Rattle.std.specs.Prelude.{◌≡◌, ◌∷◌, ◌++◌, ℕ, List, [], None};
ghost use Rattle.profiles.specs.declared.profile.Profile.{Profile};
ghost use Rattle.item_ids.specs.declared.key.Key.{Key};
ghost use Rattle.result_bytes.specs.declared.value.Value.{Value};
ghost use Rattle.named_files.specs.Projects.{IsProject};
ghost use Rattle.recorder.specs.Projects.{Project};
ghost use Rattle.recorder.specs.Backed.{Queries, AreLawful};
ghost use Rattle.sessions.specs.declared.terms.Terms.{Terms};
ghost use Rattle.sessions.specs.Sessions.{SessionValue};
ghost use Rattle.sessions.specs.Spelling.{file_of};
ghost use Rattle.graph_rules.specs.NextSessions.{StandsApart, IsNextSession, ReadsOwnFiles};
ghost use Rattle.audit_graph.specs.declared.fault.AuditFault.{AuditFault};
ghost use Rattle.audit_graph.specs.declared.fault.AuditFault.TheVariants.{OutOfMemory};
ghost use Rattle.audit_replay.specs.Audits.{AreApart, IsAccepted, AuditRefuses, last_of};
ghost use Rattle.audit_replay.specs.RightChains.{IsRightChain};

/// A session stands apart from the last one of a chain of right sessions, unless two different results in all of them
/// share a fingerprint.
pub fn behind_a_right_chain()
    ensures { (queries : Queries) (sessions : List SessionValue) → IsRightChain queries sessions
        → (s : SessionValue) → AreApart (sessions ++ s ∷ [])
        → StandsApart queries (last_of None sessions) s }
{}

/// A chain of right sessions goes on with the next session of a project over its last one, of whatever terms, unless two
/// different results in all of them share a fingerprint.
pub fn next_goes_on()
    ensures { (queries : Queries) → AreLawful queries
        → (sessions : List SessionValue) → IsRightChain queries sessions
        → (terms : Terms) (p : Project) (next : SessionValue) → IsProject p
        → ReadsOwnFiles (queries.reads terms.profile) p
        → IsNextSession queries terms (last_of None sessions) p next
        → AreApart (sessions ++ next ∷ [])
        → IsRightChain queries (sessions ++ next ∷ []) }
{}

/// If files were accepted, they and the file of the next session of a project over the last one are refused only
/// because memory runs out, unless two different results in all of them share a fingerprint.
pub fn next_is_accepted()
    ensures { (queries : Queries) → AreLawful queries
        → (files : List (List ℕ)) (old new : List Key) (profile : Profile) (project : Project)
        (answer : Value) (count runs : ℕ)
        → (accepted : IsAccepted queries files old new profile project answer count runs)
        → (terms : Terms) (p : Project) (next : SessionValue) → IsProject p
        → ReadsOwnFiles (queries.reads terms.profile) p
        → IsNextSession queries terms (last_of None accepted.sessions) p next
        → AreApart (accepted.sessions ++ next ∷ [])
        → (before after : List Key) (fault : AuditFault)
        → AuditRefuses queries (files ++ file_of next ∷ []) before after fault
        → fault ≡ OutOfMemory }
{}
