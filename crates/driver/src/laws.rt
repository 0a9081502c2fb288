//! Laws of the sessions that are made, and of the refusals.
ghost use Rattle.std.specs.Prelude.{◌≡◌, ◌↔◌, ℕ, List, Option, Some, Result, Err, MatchResult, IfSome};
ghost use Rattle.named_files.specs.Projects.{IsProject};
ghost use Rattle.recorder.specs.Projects.{Project};
ghost use Rattle.recorder.specs.Backed.{Queries, AreLawful};
ghost use Rattle.sessions.specs.declared.terms.Terms.{Terms};
ghost use Rattle.sessions.specs.Sessions.{SessionValue, IsSession, most_number};
ghost use Rattle.sessions.specs.Spelling.{file_of};
ghost use Rattle.graph_rules.specs.Steps.{Event};
ghost use Rattle.shared_table.specs.Closing.{IsFull};
ghost use Rattle.driver.specs.declared.reports.Reports.{Reports};
ghost use Rattle.graph_rules.specs.NextSessions.{StandsApart, IsNextSession};
ghost use Rattle.driver.specs.Sessions.{IsCrew, AreEventsOf, IsSessionOf, DriveGives};
ghost use Rattle.driver.specs.declared.fault.DriveFault.{DriveFault};
ghost use Rattle.driver.specs.declared.fault.DriveFault.TheVariants as fault;

/// A legal history closes with the next session, whatever the events were and whoever made them, if what it closes
/// with, or the next session, stands apart from the previous one.
pub fn sessions_are_next()
    ensures made { (queries : Queries) → AreLawful queries
        → (terms : Terms) (past : Option SessionValue) (p : Project) (history : List Event)
        (s : SessionValue) → IsProject p → IfSome past IsSession → IsSession s
        → AreEventsOf queries terms past p history s → StandsApart queries past s
        → IsNextSession queries terms past p s }
    ensures next { (queries : Queries) → AreLawful queries
        → (terms : Terms) (past : Option SessionValue) (p : Project) (history : List Event)
        (s next : SessionValue) → IsProject p → IfSome past IsSession → IsSession s
        → AreEventsOf queries terms past p history s
        → IsNextSession queries terms past p next → StandsApart queries past next → s ≡ next }
{}

/// Any two sessions that are made of the project, of the same terms over the same previous session, are equal, with one
/// file, however many workers made each and whatever each worker did, if one of them stands apart from the previous
/// session.
pub fn made_sessions_are_one()
    ensures { (queries : Queries) → AreLawful queries
        → (terms : Terms) (past : Option SessionValue) (p : Project)
        → IsProject p → IfSome past IsSession
        → (v w : ℕ) (a b : SessionValue) (r t : Reports) → IsSession a → IsSession b
        → IsSessionOf queries terms past p v a r → IsSessionOf queries terms past p w b t
        → StandsApart queries past a → (a ≡ b) × (file_of a ≡ file_of b) }
{}

/// A session is refused for its workers exactly if they aren't 1 to 64; else for its previous session exactly if that is
/// the last one that a chain can have; else only because memory runs out.
pub fn refusals_are_exact()
    ensures workers { (queries : Queries) (terms : Terms) (past : Option SessionValue)
        (p : Project) (workers : ℕ) (result : Result (SessionValue × Reports) DriveFault)
        → DriveGives queries terms past p workers result
        → (result ≡ Err fault.Workers) ↔ ¬ IsCrew workers }
    ensures full { (queries : Queries) (terms : Terms) (past : Option SessionValue)
        (p : Project) (workers : ℕ) (result : Result (SessionValue × Reports) DriveFault)
        → DriveGives queries terms past p workers result → IsCrew workers
        → (result ≡ Err fault.ChainFull) ↔ IsFull past }
    ensures memory { (queries : Queries) (terms : Terms) (past : Option SessionValue)
        (p : Project) (workers : ℕ) (result : Result (SessionValue × Reports) DriveFault)
        → DriveGives queries terms past p workers result → IsCrew workers → ¬ IsFull past
        → MatchResult result (λ _. Unit {0}) (λ why. why ≡ fault.OutOfMemory) }
    ensures last { (s : SessionValue) → IsSession s
        → IsFull (Some s) ↔ (s.number ≡ most_number) }
{}
