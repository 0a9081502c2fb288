//! What an audit says of the first session and one of other terms behind it, whose records are the same. Of MiniJava's
//! queries the check of a class alone goes by the profile.

use crate::audits::said::{Said, told};
use answer_fixtures::{KeyParts, Unfit};
use audit_graph::AuditFault;
use audit_replay::{Audited, audit};
use devices::MemorySink;
use item_ids::Kind;
use profiles::Profile;
use providers::MiniJava;
use session_fixtures::{
    FIRST, FIRST_TERMS, Kept, SECOND_FORM, SECOND_OF_BOTH, SECOND_PROFILE, digest_of, file_of,
    file_of_session, session_as,
};
use sessions::{Mark, Terms};
use std::alloc::{AllocError, Global};
use std::test::*;

/// The terms of the second session, whether its class was checked again (its other records are green), and what is
/// said of both.
struct Row {
    terms: Terms,
    checked: bool,
    said: Said,
}

// Ten records of the first session were executed. Record 8 is the check of its class.
const ROWS: &[Row] = &[
    Row {
        terms: FIRST_TERMS,
        checked: false,
        said: Said::Accepted(2, 10),
    },
    Row {
        terms: SECOND_FORM,
        checked: false,
        said: Said::Accepted(2, 10),
    },
    Row {
        terms: FIRST_TERMS,
        checked: true,
        said: Said::Accepted(2, 11),
    },
    Row {
        terms: SECOND_PROFILE,
        checked: false,
        said: Said::Refused(AuditFault::GreenAcrossProfiles(1, 8)),
    },
    Row {
        terms: SECOND_OF_BOTH,
        checked: false,
        said: Said::Refused(AuditFault::GreenAcrossProfiles(1, 8)),
    },
    Row {
        terms: SECOND_PROFILE,
        checked: true,
        said: Said::Accepted(2, 11),
    },
    Row {
        terms: SECOND_OF_BOTH,
        checked: true,
        said: Said::Accepted(2, 11),
    },
];

/// How a record of the first session is marked in the second.
fn mark_again(one: &Kept, checked: bool) -> Mark {
    let KeyParts(kind, _, _) = one.key;
    match one.mark {
        Mark::Input => Mark::Input,
        Mark::Executed | Mark::Green => {
            if checked && kind == Kind::CheckClass {
                Mark::Executed
            } else {
                Mark::Green
            }
        }
    }
}

fn records_again(alloc: Global, checked: bool) -> Result<Vec<Kept>, AllocError> {
    let mut again = Vec::new(alloc);
    for one in FIRST {
        let mark = mark_again(one, checked);
        again.push(Kept { mark, ..*one })?;
    }
    Ok(again)
}

/// The file of the second session.
fn second_file(alloc: Global, row: &Row) -> Result<MemorySink, Unfit> {
    let link = digest_of(alloc, 0, [0; 32], FIRST)?;
    let again = records_again(alloc, row.checked)?;
    let second = session_as(alloc, row.terms, 1, link, again.as_slice())?;
    file_of_session(alloc, &second)
}

/// What is said of both, if an accepted chain has the profile of the second.
fn said_of(alloc: Global, row: &Row) -> Said {
    match (file_of(alloc, FIRST), second_file(alloc, row)) {
        (Ok(first), Ok(second)) => said_of_files(alloc, &[first.bytes(), second.bytes()], row),
        _ => Said::Unfit,
    }
}

fn said_of_files(alloc: Global, files: &[&[u8]], row: &Row) -> Said {
    let mut runner = MiniJava::new(alloc);
    match audit(alloc, &mut runner, files) {
        Ok(audited) => said_in(audited, row.terms.profile),
        Err(fault) => Said::Refused(fault),
    }
}

fn said_in(audited: Audited, profile: Profile) -> Said {
    if audited.profile.is(profile) {
        told(Ok(audited))
    } else {
        Said::Unfit
    }
}

#[test]
fn nothing_that_goes_by_the_profile_is_taken_over_from_another_one(rt: HostRuntime) {
    for row in ROWS {
        assert!(rt; said_of(rt.alloc(), row) == row.said);
    }
}
