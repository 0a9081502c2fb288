//! What an audit says of a chain of MiniJava sessions beside a project: ten records of the first session were run.

use crate::audits::said::{Said, told};
use answer_fixtures::project_of;
use audit_graph::AuditFault;
use audit_replay::audit_against;
use named_files::Project;
use providers::MiniJava;
use session_fixtures::{FIRST, ONE, file_of};
use std::alloc::Global;
use std::test::*;

/// A main class that prints true.
const TRUE: &str = "class M { public static void main(String[] a) { System.out.println(true); } }";

/// What is said of the first session beside the project of this text.
fn said_beside(alloc: Global, text: &str) -> Said {
    match project_of(alloc, text) {
        Ok(project) => said_of_project(alloc, &project),
        Err(_) => Said::Unfit,
    }
}

fn said_of_project(alloc: Global, project: &Project) -> Said {
    match file_of(alloc, FIRST) {
        Ok(file) => said_of_file(alloc, file.bytes(), project),
        Err(_) => Said::Unfit,
    }
}

fn said_of_file(alloc: Global, file: &[u8], project: &Project) -> Said {
    let mut runner = MiniJava::new(alloc);
    told(audit_against(alloc, &mut runner, &[file], project))
}

#[test]
fn the_last_session_is_of_the_project(rt: HostRuntime) {
    assert!(rt; said_beside(rt.alloc(), ONE) == Said::Accepted(1, 10));
    assert!(rt; said_beside(rt.alloc(), TRUE) == Said::Refused(AuditFault::SourcesDiffer));
}
