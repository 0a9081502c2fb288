//! The check of one session over the one before.
ghost use Rattle.std.specs.Prelude.{◌≡◌, ◌↔◌, IsTrue, IfOk};
ghost use Rattle.sessions.specs.Sessions.{entry_at};
ghost use Rattle.sessions.specs.Spelling.{next_link};
ghost use Rattle.audit_graph.specs.Sources.{HasSources};
ghost use Rattle.std.specs.Option.{option_copied};
ghost use Rattle.audit_graph.specs.Chains.{IsLinked};
ghost use Rattle.audit_graph.specs.Plans.{executed_in};
ghost use Rattle.audit_graph.specs.Steps.{CheckStepGives, source_fault, green_fault};

use crate::fault::AuditFault;
use crate::greens::{Lack, first_lack};
use crate::past::Past;
use crate::plan::Plan;
use crate::sources::{SourceFault, check_sources};
use recorder::Runner;
use sessions::Session;
use std::alloc::Global;

/// Checks session `k` over the one before it, without running a query: its number and link, the files that it holds,
/// and its green records. The runner says which kinds go by the profile. The plan is what is left to run.
pub fn check_step<R: Runner>(
    alloc: Global,
    past: Option<&Past<'_>>,
    k: usize,
    session: &Session,
) -> Result<Plan, AuditFault>
    ensures gives { CheckStepGives R.queries.by_profile (option_copied past.entry) k session.now
        result }
    ensures sources { IfOk result
        (λ _. (session.now.number ≡ k) × HasSources (entry_at session.now)) }
    ensures plan { IfOk result (λ plan. plan ≡ executed_in session.now) }
{
    if !is_linked(past, k, session) {
        return Err(AuditFault::BrokenLink(k));
    }
    if let Err(fault) = check_sources(alloc, session) {
        return Err(fault_of_sources(k, fault));
    }
    if let Some((n, why)) = first_lack::<R>(past, session) {
        return Err(fault_of_green(k, n, why));
    }
    match Plan::of(alloc, session) {
        Ok(plan) => Ok(plan),
        Err(_) => Err(AuditFault::OutOfMemory),
    }
}

/// Whether the session has this number and the link that follows the previous session.
fn is_linked(past: Option<&Past<'_>>, k: usize, session: &Session) -> bool
    ensures linked { IsTrue result ↔ IsLinked (option_copied past.entry) k session.now }
    ensures number { IsTrue result → session.now.number ≡ k }
{
    session.number() as usize == k && *session.link() == link_behind(past)
}

/// The link that follows the previous session.
fn link_behind(past: Option<&Past<'_>>) -> [u8; 32]
    ensures { result ≡ next_link (option_copied past.entry) }
{
    match past {
        Some(past) => *past.digest(),
        None => [0; 32],
    }
}

/// The fault of session `k` that doesn't hold the files of a project.
fn fault_of_sources(k: usize, fault: SourceFault) -> AuditFault
    ensures { result ≡ source_fault k fault }
{
    match fault {
        SourceFault::NoFiles => AuditFault::NoFiles(k),
        SourceFault::Missing(f) => AuditFault::MissingSource(k, f),
        SourceFault::Stray(n) => AuditFault::StraySource(k, n),
        SourceFault::OutOfMemory => AuditFault::OutOfMemory,
    }
}

/// The fault of session `k` whose green record `n` doesn't stand in the previous session.
fn fault_of_green(k: usize, n: usize, why: Lack) -> AuditFault
    ensures { result ≡ green_fault k n why }
{
    match why {
        Lack::WithoutPast => AuditFault::GreenWithoutPast(k, n),
        Lack::AcrossProfiles => AuditFault::GreenAcrossProfiles(k, n),
        Lack::OtherEdges => AuditFault::OtherEdges(k, n),
        Lack::OverRed(i) => AuditFault::GreenOverRed(k, n, i),
        Lack::OtherPrint => AuditFault::GreenPrint(k, n),
    }
}
