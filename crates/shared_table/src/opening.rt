//! What a session begins with.
ghost use Rattle.std.specs.Prelude.{◌≡◌};
ghost use Rattle.shared_table.specs.Opened.{IsOpenedFor};

use crate::counted::Counted;
use crate::naming::Naming;
use job_table::Table;
use known_list::Opened;
use recorder::{Read, Runner};
use std::sync::ledger::{Blank, Share};

/// A table that was just opened, with the ledger of its workers' events and the list of all that it gives them. None of
/// them has a name yet.
#[derive(Drop)]
pub struct Opening<R: Runner> {
    table: Table<R>,
    blank: Blank,
    list: Opened<Read>,
}

impl<R: Runner> Opening<R> {
    /// This table, with a ledger of so many parts, one for each worker, and the empty list.
    pub fn new(table: Table<R>, parts: u64) -> Self
        ensures table { result.table ≡ table }
        ensures parts { result.blank.parts ≡ parts }
    {
        Opening {
            table,
            blank: Blank::new(parts),
            list: Opened::new(),
        }
    }

    /// The counted table of this name, all parts of its ledger, and its list.
    pub fn named<J: Naming>(self) -> (Counted<J, R>, Share<J>, Opened<Read>)
        requires { IsOpenedFor J.name J.parts J.book J.opened self }
        ensures parts { result.1.parts ≡ J.parts }
        ensures none { result.1.amount ≡ 0 }
        ensures list { result.2.seen.book ≡ J.book }
    {
        let Opening { table, blank, list } = self;
        let (book, all) = blank.open::<J>();
        (Counted::new(table, book), all, list)
    }
}
