//! Laws of keys, of legal histories and of the sessions that they end in.
ghost use Rattle.std.specs.Prelude.{◌≡◌, ◌↔◌, ◌<◌, List, Option, None, IfSome, true};
ghost use Rattle.item_ids.specs.declared.key.Key.{Key};
ghost use Rattle.item_ids.specs.Inputs.{rank};
ghost use Rattle.named_files.specs.Projects.{IsProject};
ghost use Rattle.recorder.specs.Projects.{Project};
ghost use Rattle.recorder.specs.Backed.{Meaning, ReadLists, RunnerLaws};
ghost use Rattle.sessions.specs.Sessions.{Entry, SessionValue, IsSession, entries, entry_at, past_entry};
ghost use Rattle.graph_rules.specs.Keys.{same_key, input_of};
ghost use Rattle.graph_rules.specs.Pasts.{IsGraph};
ghost use Rattle.graph_rules.specs.Settings.{Setting};
ghost use Rattle.graph_rules.specs.Apart.{AreApartFrom, HasNoClash};
ghost use Rattle.graph_rules.specs.Steps.{State, Event, Legal, state_after};
ghost use Rattle.graph_rules.specs.Sound.{AreBacked, IsSound, IsInOrder};
ghost use Rattle.graph_rules.specs.Histories.{IsOrderly};
ghost use Rattle.graph_rules.specs.Graphs.{AreClosed};
ghost use Rattle.graph_rules.specs.Next.{IsKnownPast, AreNext};

/// Keys compare equal exactly if they are equal.
pub fn keys_apart()
    ensures { (a b : Key) → (same_key a b ≡ true) ↔ (a ≡ b) }
{}

/// The keys that are no inputs are those above rank 0.
pub fn inputs_apart()
    ensures { (p : Project) (q : Key) → (input_of p q ≡ None) ↔ (0 < rank q) }
{}

/// In each state that a legal history reaches every key is as its status says: no key was marked over a changed or
/// open edge, none was run that could be marked, and each executed value follows from values in the state.
pub fn histories_are_sound()
    ensures { (mean : Meaning) (reads : ReadLists) (over : Setting) (p : Project)
        (h : List Event) → Legal over p h → AreBacked mean reads h
        → IsSound mean reads over p (state_after over p h) }
{}

/// In such a state a done key's value is of its kind, its mark is Input exactly if it is an input, and its edges are
/// done and of lower rank, and none is there twice.
pub fn sound_is_in_order()
    ensures { (mean : Meaning) (reads : ReadLists) (over : Setting) (p : Project) (s : State)
        → IsGraph over.held → IsSound mean reads over p s → IsInOrder s }
{}

/// Every session is a graph: its edges lead to keys of lower rank that it holds.
pub fn sessions_are_graphs()
    ensures { (s : SessionValue) → IsSession s → IsGraph (entry_at s) }
{}

/// In a legal history what is done stays done, no key becomes done twice, and none before its edges.
pub fn histories_are_orderly()
    ensures { (over : Setting) (p : Project) (h : List Event) → Legal over p h
        → IsOrderly over p h }
{}

/// If the previous session is known, a sound state closes with the next session, whatever the events were, unless
/// two values that differ, one of each of these sessions, share a fingerprint. It is enough to know this of what it
/// closes with, or of the next session.
pub fn closed_is_next()
    ensures made { (mean : Meaning) (reads : ReadLists) → RunnerLaws mean reads
        → (over : Setting) (p : Project) (s : State) (entries : List Entry) → IsProject p
        → IsKnownPast mean reads over → IsSound mean reads over p s → AreClosed p s entries
        → HasNoClash over.held entries → AreNext mean reads over p entries }
    ensures next { (mean : Meaning) (reads : ReadLists) → RunnerLaws mean reads
        → (over : Setting) (p : Project) (s : State) (entries next : List Entry) → IsProject p
        → IsKnownPast mean reads over → IsSound mean reads over p s → AreClosed p s entries
        → AreNext mean reads over p next → HasNoClash over.held next → entries ≡ next }
{}

/// Of two sessions of which no two different results share a fingerprint, by their bytes, no two values that differ do.
pub fn apart_sessions_have_no_clash()
    ensures { (past : Option SessionValue) (s : SessionValue) → IfSome past IsSession → IsSession s
        → AreApartFrom (past_entry past) (entry_at s) → HasNoClash (past_entry past) (entries s) }
{}

/// There is only one next session.
pub fn one_next()
    ensures { (mean : Meaning) (reads : ReadLists) (over : Setting) (p : Project) (a b : List Entry)
        → AreNext mean reads over p a → AreNext mean reads over p b → a ≡ b }
{}
