//! Sessions of a project of one file `a`, which has the one byte `A`, and their files.

use answer_fixtures::{KeyParts, Unfit};
use devices::MemorySink;
use item_ids::Kind;
use session_fixtures::{Kept, digest_of, file_of, file_of_session, session_as};
use sessions::{Mark, Terms};
use std::alloc::{AllocError, Global};

/// So many records of the first session, from its first one, and others behind them. The records of a whole session
/// stand once alone, since long lists are expensive to prove.
pub(crate) struct Turned {
    pub(crate) front: usize,
    pub(crate) others: &'static [Kept],
}

// Every key has what it means, and reads what it reads.
const FIRST: &[Kept] = &[
    Kept {
        key: KeyParts(Kind::Files, "", ""),
        mark: Mark::Input,
        edges: &[],
        digits: "0000000000000000010161",
    },
    Kept {
        key: KeyParts(Kind::Source, "a", ""),
        mark: Mark::Input,
        edges: &[],
        digits: "0101000000000000000141",
    },
    Kept {
        key: KeyParts(Kind::Header, "a", ""),
        mark: Mark::Executed,
        edges: &[1],
        digits: "0401000000000000000000000000000000000000",
    },
    Kept {
        key: KeyParts(Kind::CheckClass, "a", ""),
        mark: Mark::Executed,
        edges: &[0, 2],
        digits: "090000000000000000",
    },
    Kept {
        key: KeyParts(Kind::Answer, "", ""),
        mark: Mark::Executed,
        edges: &[],
        digits: "0c00000000000000000000000000000000",
    },
];

/// The records of a session.
fn records_of(alloc: Global, turned: &Turned) -> Result<Vec<Kept>, Unfit> {
    match FIRST.get(..turned.front) {
        Some(front) => Ok(joined(alloc, front, turned.others)?),
        None => Err(Unfit),
    }
}

fn joined(alloc: Global, front: &[Kept], others: &[Kept]) -> Result<Vec<Kept>, AllocError> {
    let mut records = front.to_vec(alloc)?;
    records.extend_from_slice(others)?;
    Ok(records)
}

/// The file of the first session of a chain.
pub(crate) fn file_of_first(alloc: Global, first: &Turned) -> Result<MemorySink, Unfit> {
    let records = records_of(alloc, first)?;
    file_of(alloc, records.as_slice())
}

/// The digest of the first session of a chain.
fn digest_of_first(alloc: Global, first: &Turned) -> Result<[u8; 32], Unfit> {
    let records = records_of(alloc, first)?;
    digest_of(alloc, 0, [0; 32], records.as_slice())
}

/// The file of the second session of a chain, of these terms.
pub(crate) fn file_behind(
    alloc: Global,
    terms: Terms,
    first: &Turned,
    second: &Turned,
) -> Result<MemorySink, Unfit> {
    let link = digest_of_first(alloc, first)?;
    let records = records_of(alloc, second)?;
    file_with_link(alloc, terms, link, records.as_slice())
}

fn file_with_link(
    alloc: Global,
    terms: Terms,
    link: [u8; 32],
    records: &[Kept],
) -> Result<MemorySink, Unfit> {
    let session = session_as(alloc, terms, 1, link, records)?;
    file_of_session(alloc, &session)
}
