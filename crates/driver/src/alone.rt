//! One session, by one worker who starts no thread.
ghost use Rattle.std.specs.Prelude.{◌≡◌, IfOk};
ghost use Rattle.sessions.specs.Sessions.{SessionValue, session_in};
ghost use Rattle.graph_rules.specs.NextSessions.{StandsApart, IsNextSession};
ghost use Rattle.shared_table.specs.Opened.{IsOpenedFor};
ghost use Rattle.driver.specs.Sessions.{DriveGives, IsSessionOf};

use crate::crew::{Work, make_workers, work_alone};
use crate::fault::DriveFault;
use crate::jobs::Jobs;
use crate::laws::sessions_are_next;
use crate::reports::Reports;
use crate::session::{Basis, end, keeps_laws, past_is_session};
use named_files::Project;
use recorder::Runner;
use sessions::Session;
use shared_table::{Gate, Naming, OpenFault, Opening, Table};
use std::alloc::{AllocError, Global};
use std::marker::Brand;

/// Makes one session of a project, of these terms over the previous session, as `drive_as` does by a crew of one worker.
/// It starts no thread, and waits for none.
pub fn drive_alone<R: Runner + Drop, F: Fn() -> R, W: Jobs, G: Gate>(
    alloc: Global,
    make: &F,
    basis: Basis,
    project: &Project,
    jobs: &W,
    gate: &G,
) -> Result<(Session, Reports), DriveFault>
    requires { F.IsAlwaysCallable make.now }
    ensures gives { DriveGives R.queries basis.terms (session_in basis.past) project.now 1 result }
    // A session that stands apart from the previous one is the next session.
    ensures next { IfOk result (λ done. StandsApart R.queries (session_in basis.past) done.0
        → IsNextSession R.queries basis.terms (session_in basis.past) project.now done.0) }
    // The next session, if it stands apart from the previous one, is this one.
    ensures only { IfOk result (λ done. (next : SessionValue)
        → IsNextSession R.queries basis.terms (session_in basis.past) project.now next
        → StandsApart R.queries (session_in basis.past) next → done.0 ≡ next) }
{
    let Basis { terms, past } = basis;
    // What the types of the project, the past and the runner keep, from which the law on sessions has the clause `next`.
    let _files = project.files();
    past_is_session(&past);
    keeps_laws::<R>();
    sessions_are_next();
    match Table::open_as(alloc, past, project, terms) {
        Ok(table) => {
            let work = Work {
                project,
                jobs,
                gate,
            };
            let opening = Opening::new(table, 1);
            let done = drive_table::<Brand, R, F, W, G>(alloc, make, opening, &work)?;
            // A session keeps in its type what its records are.
            let _records = done.0.records();
            Ok(done)
        }
        Err(OpenFault::ChainFull) => Err(DriveFault::ChainFull),
        Err(OpenFault::OutOfMemory) => Err(DriveFault::OutOfMemory),
    }
}

/// Does all jobs at a table that was just opened, by one worker, and closes it.
fn drive_table<J: Naming, R: Runner + Drop, F: Fn() -> R, W: Jobs, G: Gate>(
    alloc: Global,
    make: &F,
    opening: Opening<R>,
    work: &Work<'_, W, G>,
) -> Result<(Session, Reports), AllocError>
    requires makes { F.IsAlwaysCallable make.now }
    requires opened { IsOpenedFor J.name J.parts J.book J.opened opening }
    requires workers { opening.blank.parts ≡ 1 }
    ensures { IfOk result (λ done. IsSessionOf R.queries J.opened.terms J.opened.past
        J.opened.project 1 done.0 done.1) }
{
    let (counted, mut all, _list) = opening.named::<J>();
    let mut team = make_workers::<J, R, F>(alloc, &mut all, 1, make)?;
    let counted = work_alone(counted, work, &mut team[0]);
    end(alloc, all, team, counted)
}
