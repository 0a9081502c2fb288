//! Which session a table and the counts of its workers are of.

use known_list::ListNaming;
use std::marker::Brand;
use std::sync::ledger::Ledger;

/// The name of a session: its table as it was opened, the ledger of its workers' events, and the list of all that its
/// workers are given. Whoever makes a session picks its name, so that contracts can say that the shared table and each
/// worker's count belong to one session.
pub trait Naming: Ledger + ListNaming {
    ghost use Rattle.job_table.specs.Tables.{TableValue};

    /// Its table, as it was opened: its terms, its previous session, the kinds of which nothing is taken over from that,
    /// and its project.
    ghost opened: { TableValue };
}

impl Naming for Brand {
    ghost use Rattle.std.specs.Prelude.{None, [], false};
    ghost use Rattle.sessions.specs.Terms.{first_terms};
    ghost use Rattle.job_table.specs.Calls.{opened};

    ghost opened = { opened (λ _. false) first_terms None [] };
}
