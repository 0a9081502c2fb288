//! Laws of histories.
ghost use Rattle.std.specs.Prelude.{◌≡◌, List, [], Bool, true};
ghost use Rattle.redgreen_rules.specs.Programs.{Prog, Key, Value, Inputs, ComesTo};
ghost use Rattle.redgreen_rules.specs.Runs.{Run, IsIn};
ghost use Rattle.redgreen_rules.specs.Sessions.{Entry, Passes, runs_of};
ghost use Rattle.redgreen_table.specs.Histories.{Setting, State, Event, Legal, Sound};
ghost use Rattle.redgreen_table.specs.Orders.{AreFrom, IsInOrder};
ghost use Rattle.redgreen_table.specs.Cycles.{AreStuck};

/// Whatever the schedule, and however many runs were under way at a time: what is done after a legal history passes over
/// the previous session, by runs that the client made, and agrees with the inputs.
pub fn histories_pass()
    ensures { (over : Setting) (events : List Event) (s : State) → Legal over events s → Sound over s }
{}

/// What passes still does in any other order in which each entry comes after those that it reads, also without some of
/// the entries. So a session may leave out what its roots don't reach, and have the same order for every schedule.
pub fn orders_pass()
    ensures { (past xs ys : List Entry) → Passes past [] xs → AreFrom xs ys → IsInOrder [] ys
        → Passes past [] ys }
{}

/// If each of some keys waits for one of them, by answers that fresh runs give, then no fresh run of any of them comes to
/// a value: a cycle that is reported is one of the client's programs.
pub fn stuck_keys_have_none()
    ensures { (prog_of : Key → Prog) (inputs : Inputs) (Stuck : Key → Bool) → AreStuck prog_of inputs Stuck
        → (k : Key) (v : Value) → Stuck k ≡ true → ComesTo prog_of inputs k v → ⊥ }
{}
