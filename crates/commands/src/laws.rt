//! First sessions.
ghost use Rattle.std.specs.Prelude.{None};
ghost use Rattle.query_rules.specs.Queries.{queries};
ghost use Rattle.sessions.specs.Sessions.{SessionValue};
ghost use Rattle.graph_rules.specs.NextSessions.{StandsApart};

/// If there is no previous session, each session stands apart from it.
pub fn first_stands_apart()
    ensures { (s : SessionValue) → StandsApart queries None s }
{}
