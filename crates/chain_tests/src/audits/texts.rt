//! The texts of the refusals of audits.

use audit_graph::AuditFault;
use session_file::FileFault;
use std::alloc::Global;
use std::test::*;

const TEXTS: &[(AuditFault, &str)] = &[
    (AuditFault::EmptyChain, "14.1 EmptyChain"),
    (
        AuditFault::File(0, FileFault::BadDigest),
        "14.2 File(0, 11.4 BadDigest)",
    ),
    (AuditFault::BrokenLink(1), "14.3 BrokenLink(1)"),
    (AuditFault::NoFiles(0), "14.4 NoFiles(0)"),
    (AuditFault::MissingSource(0, 0), "14.5 MissingSource(0, 0)"),
    (AuditFault::StraySource(0, 2), "14.6 StraySource(0, 2)"),
    (
        AuditFault::GreenWithoutPast(0, 9),
        "14.7 GreenWithoutPast(0, 9)",
    ),
    (
        AuditFault::GreenAcrossProfiles(1, 8),
        "14.17 GreenAcrossProfiles(1, 8)",
    ),
    (AuditFault::OtherEdges(1, 10), "14.8 OtherEdges(1, 10)"),
    (
        AuditFault::GreenOverRed(2, 9, 0),
        "14.9 GreenOverRed(2, 9, 0)",
    ),
    (AuditFault::GreenPrint(1, 9), "14.10 GreenPrint(1, 9)"),
    (AuditFault::OtherRead(0, 3, 0), "14.11 OtherRead(0, 3, 0)"),
    (AuditFault::UnreadEdges(0, 9), "14.12 UnreadEdges(0, 9)"),
    (AuditFault::OtherResult(0, 9), "14.13 OtherResult(0, 9)"),
    (AuditFault::NoAnswer, "14.14 NoAnswer"),
    (AuditFault::SourcesDiffer, "14.15 SourcesDiffer"),
    (AuditFault::OutOfMemory, "out of memory"),
];

fn is_printed(alloc: Global, fault: AuditFault, want: &str) -> bool {
    match format!(in alloc; "{fault}") {
        Ok(text) => text.as_str() == want,
        Err(_) => false,
    }
}

#[test]
fn refusals_are_printed(rt: HostRuntime) {
    for (fault, want) in TEXTS {
        assert!(rt; is_printed(rt.alloc(), *fault, want));
    }
}
