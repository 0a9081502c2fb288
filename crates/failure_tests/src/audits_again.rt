//! Audits that are refused memory, and made again.

use crate::changes::{in_form_2, mixed, there_and_back};
use audit_fixtures::{audit_again, auditor_again, auditor_stays};
use std::test::*;

#[test]
fn audits_are_made_again(rt: HostRuntime) {
    assert!(rt; audit_again(rt.alloc(), there_and_back()) == Ok(true));
}

#[test]
fn audits_of_form_2_are_made_again(rt: HostRuntime) {
    assert!(rt; audit_again(rt.alloc(), in_form_2()) == Ok(true));
}

#[test]
fn audits_across_profiles_are_made_again(rt: HostRuntime) {
    assert!(rt; audit_again(rt.alloc(), mixed()) == Ok(true));
}

#[test]
fn auditors_that_were_refused_memory_stay_so(rt: HostRuntime) {
    assert!(rt; auditor_stays(rt.alloc(), there_and_back()) == Ok(true));
}

#[test]
fn auditors_of_mixed_sessions_that_were_refused_memory_stay_so(rt: HostRuntime) {
    assert!(rt; auditor_stays(rt.alloc(), mixed()) == Ok(true));
}

#[test]
fn another_auditor_begins_anew(rt: HostRuntime) {
    assert!(rt; auditor_again(rt.alloc(), there_and_back(), 5000) == Ok(true));
}

#[test]
fn another_auditor_of_mixed_sessions_begins_anew(rt: HostRuntime) {
    assert!(rt; auditor_again(rt.alloc(), mixed(), 1) == Ok(true));
}
