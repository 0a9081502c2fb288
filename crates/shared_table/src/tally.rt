//! A worker's own count of events.
ghost use Rattle.std.specs.Prelude.{◌≡◌, ◌+◌, ◌≤◌, length};

use crate::naming::Naming;
use job_table::Table;
use recorder::Runner;
use std::sync::ledger::{Book, Share};

/// How many events a worker has made; its share of the ledger has the same amount.
#[derive(Drop)]
pub struct Tally<J: Naming> {
    events: usize,
    share: Share<J>,
    ghost one_part: { share.parts ≡ 1 },
    ghost counted: { events ≡ share.amount },
}

impl<J: Naming> Tally<J> {
    /// The count of a worker who has made no event yet.
    pub fn new(share: Share<J>) -> Self
        requires part { share.parts ≡ 1 }
        requires none { share.amount ≡ 0 }
        ensures { result.share ≡ share }
    {
        Tally { events: 0, share }
    }

    /// How many events there were, and the share with this amount.
    pub fn into_parts(self) -> (usize, Share<J>)
        ensures part { result.1.parts ≡ 1 }
        ensures counted { result.0 ≡ result.1.amount }
    {
        let Tally { events, share } = self;
        (events, share)
    }

    /// Counts the last event of the table, which the ledger's book doesn't have yet.
    pub(crate) fn count<R: Runner>(&mut self, table: &Table<R>, book: &mut Book<J>)
        requires { length table.now.history ≡ book.old.total + 1 }
        ensures { length table.now.history ≡ book.new.total }
    {
        let Tally { events, share } = self;
        book.add(share, 1);
        book.audit(share);
        *events = next_count(table, *events);
    }
}

/// One more than a number of events that is less than the table's.
fn next_count<R: Runner>(table: &Table<R>, events: usize) -> usize
    requires { events + 1 ≤ length table.now.history }
    ensures { result ≡ events + 1 }
{
    // The length of a history is a number of the machine, so that the sum is one.
    let _made = table.history().len();
    events + 1
}
