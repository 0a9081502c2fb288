//! What an accepted chain says about its last session's files.
ghost use Rattle.std.specs.Prelude.{ℕ, List, []};
ghost use Rattle.profiles.specs.declared.profile.Profile.{Profile};
ghost use Rattle.item_ids.specs.declared.key.Key.{Key};
ghost use Rattle.result_bytes.specs.declared.value.Value.{Value};
ghost use Rattle.recorder.specs.Projects.{Project};
ghost use Rattle.query_rules.specs.Queries.{queries};
ghost use Rattle.sessions.specs.Sessions.{SessionValue};
ghost use Rattle.graph_rules.specs.Next.{AreSources};
ghost use Rattle.audit_replay.specs.Audits.{IsAccepted, AreApart, HaveFiles, last_entry};
ghost use Rattle.mini_java.specs.Headline.{IsAcceptedChain, IsOfTheRules};

use mj_rules::answer_laws;

/// If files of sessions are accepted, and no two different results that they record share a fingerprint, the answer
/// is the one that the static rules of the last session's profile give its sources, whoever wrote the sessions.
pub fn accepted_are_the_rules()
    ensures { (files : List (List ℕ)) (old new : List Key) (profile : Profile)
        (project : Project) (answer : Value) (count runs : ℕ)
        → (accepted : IsAccepted queries files old new profile project answer count runs)
        → AreApart accepted.sessions
        → AreSources (last_entry accepted.sessions) project
        × IsOfTheRules profile project answer }
{
    answer_laws();
}

/// What was checked of an accepted chain is what an audit of any runner accepts, so that, if no two different
/// results that its sessions record share a fingerprint, the answer is the one that the static rules of the last
/// session's profile give its sources.
pub fn accepted_chains_are_the_rules()
    ensures accepted { (files : List (List ℕ)) (profile : Profile) (answer : Value)
        (count runs : ℕ)
        → (chain : IsAcceptedChain files profile answer count runs)
        → IsAccepted queries files [] chain.log profile chain.project answer count runs }
    ensures headline { (files : List (List ℕ)) (profile : Profile) (answer : Value)
        (count runs : ℕ)
        → IsAcceptedChain files profile answer count runs
        → (sessions : List SessionValue) (project : Project) → HaveFiles sessions files
        → AreApart sessions → AreSources (last_entry sessions) project
        → IsOfTheRules profile project answer }
{
    answer_laws();
}
