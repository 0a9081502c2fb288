//! Auditors over feeds that fail, or that give few bytes in a call, and over files that are too long.

use crate::changes::{in_form_2, mixed, there_and_back};
use audit_fixtures::{fails_at_each_call, fault_of_longer, said_in_pieces};
use audit_graph::AuditFault;
use session_file::FileFault;
use std::alloc::Global;
use std::test::*;
use table_fixtures::Change;

/// Each call of the feed of each of three files fails, once and from then on.
#[test]
fn auditors_refuse_a_file_whose_feed_fails(rt: HostRuntime) {
    assert!(rt; fails_at_each_call(rt.alloc(), there_and_back(), 5000) == Ok(true));
    assert!(rt; fails_at_each_call(rt.alloc(), in_form_2(), 5000) == Ok(true));
}

/// Whether an audit finds so many sessions and runs so many records, if each feed gives one byte in a call, and if it
/// gives more.
fn is_said(alloc: Global, chain: &[Change], sessions: usize, runs: u128) -> bool {
    for piece in [1, 7, 5000] {
        if said_in_pieces(alloc, chain, piece) != Ok(Ok((sessions, runs))) {
            return false;
        }
    }
    true
}

#[test]
fn feeds_give_a_few_bytes_in_a_call(rt: HostRuntime) {
    assert!(rt; is_said(rt.alloc(), there_and_back(), 3, 22));
    assert!(rt; is_said(rt.alloc(), in_form_2(), 3, 10));
    assert!(rt; is_said(rt.alloc(), mixed(), 5, 12));
}

/// Whether the file at this place of the chain is refused if one byte follows it.
fn is_longer_refused(alloc: Global, chain: &[Change], at: usize) -> bool {
    let fault = AuditFault::File(at, FileFault::Trailing);
    fault_of_longer(alloc, chain, at) == Ok(Some(fault))
}

#[test]
fn auditors_refuse_a_file_that_is_too_long(rt: HostRuntime) {
    for at in 0..3 {
        assert!(rt; is_longer_refused(rt.alloc(), there_and_back(), at), "{at}");
        assert!(rt; is_longer_refused(rt.alloc(), in_form_2(), at), "{at}");
    }
}
