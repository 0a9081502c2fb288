//! What the refusals of a table print.

use job_table::{CloseFault, OpenFault, ReplayFault, TableFault};
use std::alloc::Global;
use std::fmt::Display;

fn is_text<T: Display>(alloc: Global, fault: &T, want: &str) -> bool {
    match format!(in alloc; "{fault}") {
        Ok(text) => text.as_str() == want,
        Err(_) => false,
    }
}

const OF_CALLS: &[(TableFault, &str)] = &[
    (TableFault::NotYours, "9.1 NotYours"),
    (TableFault::OutOfRank, "9.2 OutOfRank"),
    (TableFault::EdgeOpen(1), "9.3 EdgeOpen(1)"),
    (TableFault::EdgeChanged(0), "9.4 EdgeChanged(0)"),
    (TableFault::NotInPast, "9.5 NotInPast"),
    (TableFault::NothingChanged, "9.6 NothingChanged"),
    (TableFault::StaleRead(0), "9.7 StaleRead(0)"),
    (TableFault::Failed, "9.8 Failed"),
    (TableFault::AcrossProfiles, "9.13 AcrossProfiles"),
    (TableFault::OtherProfile, "9.14 OtherProfile"),
];

#[test]
fn refused_calls_are_printed(rt: HostRuntime) {
    for (fault, want) in OF_CALLS {
        assert!(rt; is_text(rt.alloc(), fault, want));
    }
}

const OF_CLOSING: &[(CloseFault, &str)] = &[
    (CloseFault::Failed, "9.8 Failed"),
    (CloseFault::NoAnswer, "9.9 NoAnswer"),
    (CloseFault::StillRunning, "9.10 StillRunning"),
];

#[test]
fn refused_closings_are_printed(rt: HostRuntime) {
    for (fault, want) in OF_CLOSING {
        assert!(rt; is_text(rt.alloc(), fault, want));
    }
}

#[test]
fn refused_openings_and_replays_are_printed(rt: HostRuntime) {
    assert!(rt; is_text(rt.alloc(), &OpenFault::ChainFull, "9.11 ChainFull"));
    assert!(rt; is_text(rt.alloc(), &ReplayFault::Illegal(1), "9.12 Illegal(1)"));
}
