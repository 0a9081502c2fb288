//! The audit by MiniJava's queries.
ghost use Rattle.std.specs.Prelude.{◌≡◌, None, List, map, IfOk, IfErr};
ghost use Rattle.std.specs.Arc.{arc_value};
ghost use Rattle.result_bytes.specs.declared.value.Value.TheVariants as values;
ghost use Rattle.recorder.specs.Projects.{Project};
ghost use Rattle.sessions.specs.Sessions.{SessionValue};
ghost use Rattle.graph_rules.specs.Next.{AreSources};
ghost use Rattle.query_rules.specs.Queries.{queries};
ghost use Rattle.audit_replay.specs.Audits.{AreApart, AreRight, HaveFiles, IsLastProfile, last_entry};
ghost use Rattle.providers.specs.AnswerValues.{IsAnswerValue};
ghost use Rattle.mini_java.specs.Headline.{ChainRefuses, ChainRefusesAgainst, IsAcceptedAgainst, IsAcceptedChain, IsOfTheRules};

use audit_graph::AuditFault;
use audit_replay::{Audited, audit, audit_against};
use mj_answer::Answer;
use mj_rules::answer_laws;
use named_files::Project;
use providers::{MiniJava, answer_of};
use std::alloc::Global;

/// Audits the files of a chain of sessions of MiniJava projects. If no two different results that they record share
/// a fingerprint, the answer of an accepted chain is what the static rules of the last session's profile give its files.
pub fn audit_chain(alloc: Global, chain: &[&[u8]]) -> Result<Audited, AuditFault>
    // What was checked.
    ensures accepted { IfOk result (λ a.
        IsAcceptedChain (map (λ f. f.now) chain.now) a.profile (arc_value a.answer) a.sessions
        a.runs) }
    // What follows of the sessions whose files these are: the profile is that of the last one,
    ensures profile { IfOk result (λ a. (sessions : List SessionValue)
        → HaveFiles sessions (map (λ f. f.now) chain.now)
        → IsLastProfile sessions a.profile) }
    // and if no two different results in them share a fingerprint, each is right over the one before,
    ensures right { IfOk result (λ _. (sessions : List SessionValue)
        → HaveFiles sessions (map (λ f. f.now) chain.now) → AreApart sessions
        → AreRight queries None sessions) }
    // and the answer is what the static rules of the profile give the files of the last one.
    ensures headline { IfOk result (λ a. (sessions : List SessionValue) (project : Project)
        → HaveFiles sessions (map (λ f. f.now) chain.now) → AreApart sessions
        → AreSources (last_entry sessions) project
        → IsOfTheRules a.profile project (arc_value a.answer)) }
    ensures refused { IfErr result (ChainRefuses (map (λ f. f.now) chain.now)) }
{
    // The answer that the queries mean is that of the rules.
    answer_laws();
    let mut runner = MiniJava::new(alloc);
    audit(alloc, &mut runner, chain)
}

/// Audits a chain as `audit_chain` does, and says whether the last session's files are those of the project.
pub fn audit_chain_against(
    alloc: Global,
    chain: &[&[u8]],
    project: &Project,
) -> Result<Audited, AuditFault>
    // What was checked.
    ensures accepted { IfOk result (λ a.
        IsAcceptedAgainst project.now (map (λ f. f.now) chain.now) a.profile (arc_value a.answer)
        a.sessions a.runs) }
    // What follows of the sessions whose files these are: the profile is that of the last one,
    ensures profile { IfOk result (λ a. (sessions : List SessionValue)
        → HaveFiles sessions (map (λ f. f.now) chain.now)
        → IsLastProfile sessions a.profile) }
    // and if no two different results in them share a fingerprint, each is right over the one before,
    ensures right { IfOk result (λ _. (sessions : List SessionValue)
        → HaveFiles sessions (map (λ f. f.now) chain.now) → AreApart sessions
        → AreRight queries None sessions) }
    // and the answer is what the static rules of the profile give the project.
    ensures headline { IfOk result (λ a. (sessions : List SessionValue)
        → HaveFiles sessions (map (λ f. f.now) chain.now) → AreApart sessions
        → IsOfTheRules a.profile project.now (arc_value a.answer)) }
    ensures refused { IfErr result
        (ChainRefusesAgainst project.now (map (λ f. f.now) chain.now)) }
{
    // The answer that the queries mean is that of the rules.
    answer_laws();
    let mut runner = MiniJava::new(alloc);
    audit_against(alloc, &mut runner, chain, project)
}

/// The answer that an accepted chain ends with.
pub fn audited_answer(audited: &Audited) -> &Answer
    requires { IsAnswerValue (arc_value audited.now.answer) }
    ensures { arc_value audited.now.answer ≡ values.Answer result.now }
{
    answer_of(audited.answer.value())
}
