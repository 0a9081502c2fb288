//! Laws of next sessions.
ghost use Rattle.std.specs.Prelude.{◌≡◌, Option, IfSome};
ghost use Rattle.named_files.specs.Projects.{IsProject};
ghost use Rattle.recorder.specs.Projects.{Project};
ghost use Rattle.recorder.specs.Backed.{Queries, AreLawful};
ghost use Rattle.sessions.specs.declared.terms.Terms.{Terms};
ghost use Rattle.sessions.specs.Sessions.{SessionValue, IsSession, entries};
ghost use Rattle.sessions.specs.Spelling.{file_of};
ghost use Rattle.graph_rules.specs.Next.{IsRightAfter};
ghost use Rattle.graph_rules.specs.NextSessions.{StandsApart, IsNextSession, ReadsOwnFiles};

/// Two sessions with the same terms, number, link and entries are equal.
pub fn entries_tell_all()
    ensures { (a b : SessionValue) → IsSession a → IsSession b
        → a.terms ≡ b.terms → a.number ≡ b.number → a.link ≡ b.link → entries a ≡ entries b → a ≡ b }
{}

/// There is only one next session, and only one file of it.
pub fn one_next_session()
    ensures session { (queries : Queries) (terms : Terms) (past : Option SessionValue)
        (p : Project) (a b : SessionValue)
        → IsNextSession queries terms past p a → IsNextSession queries terms past p b → a ≡ b }
    ensures file { (queries : Queries) (terms : Terms) (past : Option SessionValue)
        (p : Project) (a b : SessionValue)
        → IsNextSession queries terms past p a → IsNextSession queries terms past p b
        → file_of a ≡ file_of b }
{}

/// A next session that stands apart from the previous one is right over it.
pub fn next_is_right()
    ensures { (queries : Queries) → AreLawful queries
        → (terms : Terms) (past : Option SessionValue) (p : Project) (s : SessionValue)
        → IsProject p → IfSome past IsSession → StandsApart queries past s
        → ReadsOwnFiles (queries.reads terms.profile) p
        → IsNextSession queries terms past p s → IsRightAfter queries past s }
{}
