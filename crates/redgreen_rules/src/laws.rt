//! The law of accepted chains.
ghost use Rattle.std.specs.Prelude.{◌≡◌, List, ◌∷◌, ◌++◌, []};
ghost use Rattle.std.specs.List.{AllByRecursion};
ghost use Rattle.redgreen_rules.specs.Programs.{Prog, Key, Value, Inputs, ComesTo};
ghost use Rattle.redgreen_rules.specs.Runs.{IsRunOf};
ghost use Rattle.redgreen_rules.specs.Sessions.{Entry, Session, IsNew, Passes, PassesBy, ArePassed, IsFresh, Agree, last_of, runs_in, inputs_of};

/// If each session of a chain passes over the previous one, the first one over nothing, and each run that the executed
/// entries record is one of some program for its key, then the last session has what fresh runs of these programs come
/// to, and nothing else. There are inputs that agree with it: those that the session has.
pub fn accepted_is_fresh()
    ensures fresh { (prog_of : Key → Prog) (chain : List Session) → ArePassed [] chain
        → AllByRecursion (IsRunOf prog_of) (runs_in chain) → IsFresh prog_of (last_of chain) }
    ensures inputs { (chain : List Session) → ArePassed [] chain
        → Agree (inputs_of (last_of chain)) (last_of chain) }
    ensures one { (prog_of : Key → Prog) (inputs : Inputs) (k : Key) (v w : Value)
        → ComesTo prog_of inputs k v → ComesTo prog_of inputs k w → v ≡ w }
{}

/// A session that passes still does with one more entry that passes after the others. So a build that stops early has
/// a session that passes too.
pub fn sessions_grow()
    ensures { (past xs : List Entry) (r : Entry) → Passes past [] xs → IsNew xs r.key
        → PassesBy past xs r r.mark → Passes past [] (xs ++ r ∷ []) }
{}
