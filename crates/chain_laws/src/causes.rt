//! Laws of the causes of a session: of a next one, and of one that a legal history closes with.
ghost use Rattle.std.specs.Prelude.{◌≡◌, ◌≢◌, List, Option, IfSome, false};
ghost use Rattle.std.specs.Borrow.{Bor};
ghost use Rattle.std.specs.List.{AllByRecursion};
ghost use Rattle.item_ids.specs.declared.key.Key.{Key};
ghost use Rattle.item_ids.specs.Keys.{kind_of};
ghost use Rattle.named_files.specs.Projects.{IsProject};
ghost use Rattle.recorder.specs.Projects.{Project};
ghost use Rattle.recorder.specs.Backed.{Queries, AreLawful};
ghost use Rattle.sessions.specs.declared.terms.Terms.{Terms};
ghost use Rattle.sessions.specs.Sessions.{SessionValue, IsSession};
ghost use Rattle.graph_rules.specs.Settings.{crossing_kinds, has_kind, setting_of};
ghost use Rattle.graph_rules.specs.Steps.{Event, state_after};
ghost use Rattle.graph_rules.specs.NextSessions.{IsNextSession, StandsApart};
ghost use Rattle.driver.specs.Sessions.{AreEventsOf};
ghost use Rattle.session_text.specs.declared.causes.cause.Cause.TheVariants.{NothingChanged, Red};
ghost use Rattle.session_text.specs.declared.causes.cause.Why.{Why};
ghost use Rattle.session_text.specs.Causes.{AreWhys, IsWhy};
ghost use Rattle.chain_laws.specs.WalkEnds.{EndsWalk};

/// In a session that is next over the one before, no query was executed whose reads in that one all stayed as they were,
/// unless its kind goes by another profile. So none of the lines on why its queries were executed says that
/// nothing changed.
pub fn next_has_causes()
    ensures cause { (queries : Queries) (terms : Terms) (past : Option SessionValue) (p : Project)
        (s : SessionValue) → IsNextSession queries terms past p s
        → (q : Key)
        → IsWhy past s (crossing_kinds queries.by_profile s.terms.profile past) q NothingChanged
        → ⊥ }
    ensures told { (queries : Queries) (terms : Terms) (past : Option SessionValue) (p : Project)
        (s : SessionValue) → IsNextSession queries terms past p s
        → (whys : List Why)
        → AreWhys past s (crossing_kinds queries.by_profile s.terms.profile past) whys
        → AllByRecursion (λ why. why.cause ≢ NothingChanged) whys }
{}

/// The same holds of each session that a legal history closes with, whatever the previous session is, forged ones too.
pub fn made_has_causes()
    ensures cause { (queries : Queries) (terms : Terms) (past : Option SessionValue) (p : Project)
        (history : List Event) (s : SessionValue) → IsSession s
        → AreEventsOf queries terms past p history s
        → (q : Key)
        → IsWhy past s (crossing_kinds queries.by_profile s.terms.profile past) q NothingChanged
        → ⊥ }
    ensures told { (queries : Queries) (terms : Terms) (past : Option SessionValue) (p : Project)
        (history : List Event) (s : SessionValue) → IsSession s
        → AreEventsOf queries terms past p history s
        → (whys : List Why)
        → AreWhys past s (crossing_kinds queries.by_profile s.terms.profile past) whys
        → AllByRecursion (λ why. why.cause ≢ NothingChanged) whys }
{}

/// If the previous session is one of some project, and apart from the new one, the key that is named as the cause of an
/// executed query, which may be taken over, is the edge at which the walk over its previous edges ended.
pub fn causes_end_walks()
    ensures { (queries : Queries) → AreLawful queries
        → (terms : Terms) (past : Option SessionValue) (p : Project)
        (history : List Event) (s : SessionValue) → IsProject p → IfSome past IsSession → IsSession s
        → AreEventsOf queries terms past p history s → StandsApart queries past s
        → (q : Key) (e : Bor Key)
        → has_kind (crossing_kinds queries.by_profile s.terms.profile past) (kind_of q) ≡ false
        → IsWhy past s (crossing_kinds queries.by_profile s.terms.profile past) q (Red e)
        → EndsWalk (setting_of queries.by_profile terms.profile past)
        (state_after (setting_of queries.by_profile terms.profile past) p history) q e.now }
{}
