//! Laws of sessions that passed an audit.
ghost use Rattle.std.specs.Prelude.{◌≡◌, ◌∷◌, ◌++◌, ℕ, List, [], Option, None, map};
ghost use Rattle.std.specs.List.{AllByRecursion};
ghost use Rattle.profiles.specs.declared.profile.Profile.{Profile};
ghost use Rattle.item_ids.specs.declared.key.Key.{Key};
ghost use Rattle.recorder.specs.Projects.{Project};
ghost use Rattle.recorder.specs.Backed.{Queries, AreLawful};
ghost use Rattle.sessions.specs.Sessions.{SessionValue, IsSession, IsTakenFrom, AreTaken};
ghost use Rattle.graph_rules.specs.Next.{ArePastMeant, AreSources};
ghost use Rattle.audit_graph.specs.declared.fault.AuditFault.TheVariants.{OtherRead, UnreadEdges, OtherResult};
ghost use Rattle.result_bytes.specs.declared.value.Value.{Value};
ghost use Rattle.sessions.specs.Spelling.{file_of};
ghost use Rattle.audit_graph.specs.declared.fault.AuditFault.{AuditFault};
ghost use Rattle.audit_graph.specs.declared.fault.AuditFault.TheVariants.{OutOfMemory};
ghost use Rattle.audit_replay.specs.Audits.{ArePassed, AreRight, AreApart, AuditRefuses, AuditRefusesAgainst, IsAccepted, last_of, last_entry};
ghost use Rattle.audit_replay.specs.RightChains.{IsRightChain};
ghost use Rattle.audit_replay.specs.Refusals.{HasFirstWrong, IsToldByFiles};

use item_ids::ranks_in_order;

/// If each session passes over the one before, and no two different results in them share a fingerprint, each is
/// right over the one before, and each key of the last one has the value that it means by that session's profile in the
/// project whose files the session holds.
pub fn passed_are_right()
    ensures right { (queries : Queries) → AreLawful queries
        → (sessions : List SessionValue) → AllByRecursion IsSession sessions
        → ArePassed queries None 0 sessions
        → AreApart sessions
        → AreRight queries None sessions }
    ensures meant { (queries : Queries) → AreLawful queries
        → (sessions : List SessionValue) → AllByRecursion IsSession sessions
        → ArePassed queries None 0 sessions
        → AreApart sessions
        → (p : Project) → AreSources (last_entry sessions) p
        → ArePastMeant queries (last_of None sessions) p }
{}

/// If an audit refuses a record that differs from its run, the record is wrong, unless two different results up to
/// it share a fingerprint: it doesn't have the value and the edges that its session's files give its key, and all
/// sessions and all records before it are right.
pub fn refused_records_are_wrong()
    ensures other_read { (queries : Queries) → AreLawful queries
        → (files : List (List ℕ)) (old new : List Key) (k n i : ℕ)
        → AuditRefuses queries files old new (OtherRead k n i)
        → HasFirstWrong queries files k n }
    ensures unread_edges { (queries : Queries) → AreLawful queries
        → (files : List (List ℕ)) (old new : List Key) (k n : ℕ)
        → AuditRefuses queries files old new (UnreadEdges k n)
        → HasFirstWrong queries files k n }
    ensures other_result { (queries : Queries) → AreLawful queries
        → (files : List (List ℕ)) (old new : List Key) (k n : ℕ)
        → AuditRefuses queries files old new (OtherResult k n)
        → HasFirstWrong queries files k n }
{
    ranks_in_order();
}

/// The files of a chain of right sessions, of which the last has an answer, are refused only because memory runs out.
pub fn right_chains_pass()
    ensures { (queries : Queries) (sessions : List SessionValue)
        → IsRightChain queries sessions
        → (old new : List Key) (fault : AuditFault)
        → AuditRefuses queries (map file_of sessions) old new fault → fault ≡ OutOfMemory }
{}

/// The files that an audit accepts are those of such a chain, unless two different results in them share a fingerprint.
pub fn accepted_are_right_chains()
    ensures { (queries : Queries) (files : List (List ℕ)) (old new : List Key)
        (profile : Profile) (project : Project) (answer : Value) (count runs : ℕ)
        → (accepted : IsAccepted queries files old new profile project answer count runs)
        → AreApart accepted.sessions
        → IsRightChain queries accepted.sessions }
{}

/// A file is that of one session only over the previous one, and a list of files that of one list of sessions only.
pub fn files_tell_their_sessions()
    ensures one { (past : Option SessionValue) (s t : SessionValue) → IsSession s → IsSession t
        → IsTakenFrom past s → IsTakenFrom past t → file_of s ≡ file_of t → s ≡ t }
    ensures each { (past : Option SessionValue) (ss ts : List SessionValue)
        → AllByRecursion IsSession ss → AllByRecursion IsSession ts
        → AreTaken past ss → AreTaken past ts
        → map file_of ss ≡ map file_of ts → ss ≡ ts }
{}

/// Of all refusals that follow from the files alone at most one holds, whatever was run before, so that an audit which
/// answers one of them answers it exactly if it holds.
pub fn one_refusal_holds()
    ensures alone { (queries : Queries) (files : List (List ℕ))
        (old new before after : List Key) (one other : AuditFault)
        → IsToldByFiles one → IsToldByFiles other
        → AuditRefuses queries files old new one
        → AuditRefuses queries files before after other → one ≡ other }
    ensures against { (queries : Queries) (files : List (List ℕ))
        (project : Project) (old new before after : List Key) (one other : AuditFault)
        → IsToldByFiles one → IsToldByFiles other
        → AuditRefusesAgainst queries files old new project one
        → AuditRefusesAgainst queries files before after project other → one ≡ other }
{}

/// If one of them holds, no record is refused because it differs from its run, unless two different results in the
/// sessions up to that record's share a fingerprint: each record that is refused so is the first wrong one of its
/// session, and there is none.
pub fn told_refusals_leave_no_mismatch()
    ensures { (queries : Queries) → AreLawful queries
        → (files : List (List ℕ)) (old new : List Key) (told : AuditFault) → IsToldByFiles told
        → AuditRefuses queries files old new told
        → (k n : ℕ) (wrong : HasFirstWrong queries files k n)
        → ¬ AreApart (wrong.front ++ wrong.session ∷ []) }
{}

/// None of them holds of files that are accepted.
pub fn accepted_are_not_refused()
    ensures alone { (queries : Queries) (files : List (List ℕ))
        (old new : List Key) (profile : Profile) (project : Project) (answer : Value) (count runs : ℕ)
        → IsAccepted queries files old new profile project answer count runs
        → (before after : List Key) (fault : AuditFault) → IsToldByFiles fault
        → ¬ AuditRefuses queries files before after fault }
    ensures against { (queries : Queries) (files : List (List ℕ))
        (old new : List Key) (profile : Profile) (project : Project) (answer : Value) (count runs : ℕ)
        → IsAccepted queries files old new profile project answer count runs
        → (before after : List Key) (fault : AuditFault) → IsToldByFiles fault
        → ¬ AuditRefusesAgainst queries files before after project fault }
{}
