//! Laws of sessions that were checked.
ghost use Rattle.std.specs.Prelude.{◌≡◌, ◌↔◌, ℕ, Bool, true, Option, Some, None, Contains, slice_get};
ghost use Rattle.item_ids.specs.declared.key.Key.{Key};
ghost use Rattle.named_files.specs.Projects.{IsProject};
ghost use Rattle.recorder.specs.Projects.{Project};
ghost use Rattle.recorder.specs.Backed.{Queries, AreLawful};
ghost use Rattle.sessions.specs.declared.mark.Mark.TheVariants.{Executed, Green};
ghost use Rattle.sessions.specs.Sessions.{RecordValue, Entry, SessionValue, IsSession, entry_at, past_entry};
ghost use Rattle.graph_rules.specs.Pasts.{Past, IsGraph};
ghost use Rattle.graph_rules.specs.Next.{ArePastMeant, AreSources, IsRightAfter};
ghost use Rattle.audit_graph.specs.Plans.{executed_in};
ghost use Rattle.audit_graph.specs.Steps.{IsSessionStep};
ghost use Rattle.audit_graph.specs.Replays.{AreReplayed, AreValuesApart, AreWithLower, is_before};

use item_ids::ranks_in_order;

/// A session holds the files of one project only.
pub fn one_project()
    ensures { (now : Past) (p r : Project) → AreSources now p → AreSources now r → p ≡ r }
{}

/// The plan has just the indices of the executed records.
pub fn plan_tells()
    ensures { (s : SessionValue) (n : ℕ) → Contains (executed_in s) n
        ↔ ((r : RecordValue) × (slice_get s.records n ≡ Some r) × (r.mark ≡ Executed)) }
{}

/// For keys that have with each of them all keys of lower rank, and of which the executed ones follow from their edges:
/// if the previous session has the values and reads of a project by its own profile, and no two different values of
/// both sessions share a fingerprint, these keys have by the session's profile the values and reads of the project whose
/// files it holds.
pub fn front_is_meant()
    ensures { (queries : Queries) → AreLawful queries
        → (past : Option SessionValue) (k : ℕ) (s : SessionValue) (old p : Project)
        → IsGraph (past_entry past) → IsProject old → ArePastMeant queries past old
        → IsSession s → IsSessionStep queries.by_profile past k s → AreSources (entry_at s) p
        → AreValuesApart (past_entry past) (entry_at s)
        → (front : Key → Bool) → AreWithLower front
        → AreReplayed (queries.mean s.terms.profile) (queries.reads s.terms.profile) (entry_at s)
        front
        → (q : Key) (r : Entry) → front q ≡ true → entry_at s q ≡ Some r
        → (r.value ≡ queries.mean s.terms.profile p q)
        × (r.reads ≡ queries.reads s.terms.profile p q) }
{}

/// If all executed keys follow from their edges, the session is right over the previous session.
pub fn step_is_right()
    ensures { (queries : Queries) → AreLawful queries
        → (past : Option SessionValue) (k : ℕ) (s : SessionValue) (old : Project)
        → IsGraph (past_entry past) → IsProject old → ArePastMeant queries past old
        → IsSession s → IsSessionStep queries.by_profile past k s
        → AreValuesApart (past_entry past) (entry_at s)
        → AreReplayed (queries.mean s.terms.profile) (queries.reads s.terms.profile) (entry_at s)
        (λ _. true)
        → IsRightAfter queries past s }
{}

/// The keys that come before a key, as those of the records in front of it, have all keys of lower rank with them.
pub fn before_has_lower()
    ensures { (k : Key) → AreWithLower (is_before k) }
{
    ranks_in_order();
}

/// If there is no previous session, that counts as a graph with the values and reads of every project, and none of
/// its values shares a fingerprint with another one.
pub fn no_past_is_meant()
    ensures graph { IsGraph (past_entry None) }
    ensures meant { (queries : Queries) (p : Project) → ArePastMeant queries None p }
    ensures apart { (now : Past) → AreValuesApart (past_entry None) now }
{}
