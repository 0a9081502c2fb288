//! Cases of runs: what the runner of MiniJava makes of a query and of the answers at hand.
ghost use Rattle.std.specs.Prelude.{◌≡◌, ◌<◌, IsTrue, IfOk};
ghost use Rattle.item_ids.specs.Keys.{kind_of};
ghost use Rattle.item_ids.specs.declared.kind.Kind.TheVariants.{CheckBody};
ghost use Rattle.item_ids.specs.Inputs.{rank as rank_of};
ghost use Rattle.profiles.specs.declared.profile.Profile.{Profile};
ghost use Rattle.answer_fixtures.specs.Telling.{IsKeyOf};
ghost use Rattle.query_fixtures.specs.Rows.{IsGivenRun, IsLackingRun};

use answer_fixtures::{KeyParts, Unfit, is_key, key_of};
use body_query::check_body;
use item_ids::{Key, Kind, rank};
use profiles::Profile;
use providers::MiniJava;
use recorder::{AnswerList, Recorder, Runner};
use run_fixtures::{Given, KeptReads, comes_to, list_of, wants};
use std::alloc::Global;

/// A query with its value's canonical bytes, and the answers at hand, which are its reads in order.
#[derive(Clone, Copy, Debug)]
pub struct Row<'a> {
    pub query: Given<'a>,
    pub reads: &'a [Given<'a>],
}

/// The key of a query that is no input.
fn query_of(alloc: Global, asked: KeyParts) -> Result<Key, Unfit>
    ensures no_input { IfOk result (λ key. 0 < rank_of key) }
    ensures told { IfOk result (IsKeyOf asked.entry) }
{
    if rank(asked.0) == 0 {
        return Err(Unfit);
    }
    key_of(alloc, asked)
}

/// Whether the runner was asked this query alone.
fn has_logged(runner: &MiniJava, asked: KeyParts) -> bool {
    matches!(runner.log(), [one] if is_key(one, asked))
}

/// Whether the runner's run over the list reads just the case's answers, in their order, comes to the value, and is
/// logged.
fn is_run(
    alloc: Global,
    runner: &mut MiniJava,
    profile: Profile,
    key: &Key,
    list: AnswerList,
    row: Row,
) -> Result<bool, Unfit>
    requires no_input { 0 < rank_of key.now }
    requires told { IsKeyOf row.query.0 key.now }
    ensures { IfOk result (λ b. IsTrue b → IsGivenRun profile row.entry.query row.entry.reads.now) }
{
    let mut recorder = Recorder::new(alloc, list);
    let result = runner.run(alloc, profile, key, &mut recorder);
    let is_right = comes_to(alloc, result, recorder, row.query.1, row.reads);
    if has_logged(runner, row.query.0) {
        is_right
    } else {
        Ok(false)
    }
}

/// Whether the key's run over the case's answers reads just them, in their order, comes to the value, and is logged.
fn is_right_of(alloc: Global, profile: Profile, key: &Key, row: Row) -> Result<bool, Unfit>
    requires no_input { 0 < rank_of key.now }
    requires told { IsKeyOf row.query.0 key.now }
    ensures { IfOk result (λ b. IsTrue b → IsGivenRun profile row.entry.query row.entry.reads.now) }
{
    let list = list_of(alloc, row.reads)?;
    let mut runner = MiniJava::new(alloc);
    is_run(alloc, &mut runner, profile, key, list, row)
}

/// Whether the case's query, run in a profile over its answers, reads just them, in their order, comes to its value, and is logged.
pub fn is_right(alloc: Global, profile: Profile, row: Row) -> Result<bool, Unfit>
    ensures { IfOk result (λ b. IsTrue b → IsGivenRun profile row.entry.query row.entry.reads.now) }
{
    let key = query_of(alloc, row.query.0)?;
    is_right_of(alloc, profile, &key, row)
}

/// Whether the runner's run over the list is refused an answer that isn't there and is logged, and its recorder keeps
/// this.
fn is_refused(
    alloc: Global,
    runner: &mut MiniJava,
    profile: Profile,
    key: &Key,
    list: AnswerList,
    query: KeyParts,
    kept: KeptReads,
) -> Result<bool, Unfit>
    requires no_input { 0 < rank_of key.now }
    requires told { IsKeyOf query key.now }
    ensures { IfOk result (λ b. IsTrue b → IsLackingRun profile query.entry kept.entry) }
{
    let mut recorder = Recorder::new(alloc, list);
    let result = runner.run(alloc, profile, key, &mut recorder);
    let is_kept = wants(alloc, result, recorder, kept);
    if has_logged(runner, query) {
        is_kept
    } else {
        Ok(false)
    }
}

/// Whether the key's run over the answers that are kept is refused another one, and is logged.
fn is_lacking_of(
    alloc: Global,
    profile: Profile,
    key: &Key,
    query: KeyParts,
    kept: KeptReads,
) -> Result<bool, Unfit>
    requires no_input { 0 < rank_of key.now }
    requires told { IsKeyOf query key.now }
    ensures { IfOk result (λ b. IsTrue b → IsLackingRun profile query.entry kept.entry) }
{
    let list = list_of(alloc, kept.reads)?;
    let mut runner = MiniJava::new(alloc);
    is_refused(alloc, &mut runner, profile, key, list, query, kept)
}

/// Whether the run of the query in a profile over the answers that are kept is refused another one, and is logged.
pub fn is_lacking(
    alloc: Global,
    profile: Profile,
    query: KeyParts,
    kept: KeptReads,
) -> Result<bool, Unfit>
    ensures { IfOk result (λ b. IsTrue b → IsLackingRun profile query.entry kept.entry) }
{
    let key = query_of(alloc, query)?;
    is_lacking_of(alloc, profile, &key, query, kept)
}

/// Whether the check of the body over the list reads just the case's answers, in their order, and comes to the value.
fn is_body_check(alloc: Global, key: &Key, list: AnswerList, row: Row) -> Result<bool, Unfit>
    requires body { kind_of key.now ≡ CheckBody }
    requires told { IsKeyOf row.query.0 key.now }
    ensures { IfOk result (λ b. IsTrue b → (profile : Profile)
        → IsGivenRun profile row.entry.query row.entry.reads.now) }
{
    let mut recorder = Recorder::new(alloc, list);
    let result = check_body(alloc, key, &mut recorder);
    comes_to(alloc, result, recorder, row.query.1, row.reads)
}

/// Whether the key is one of a body, and its check over the case's answers reads just them, in their order, and comes to
/// the value.
fn is_checked_of(alloc: Global, key: &Key, row: Row) -> Result<bool, Unfit>
    requires { IsKeyOf row.query.0 key.now }
    ensures { IfOk result (λ b. IsTrue b → (profile : Profile)
        → IsGivenRun profile row.entry.query row.entry.reads.now) }
{
    if key.kind() != Kind::CheckBody {
        return Err(Unfit);
    }
    let list = list_of(alloc, row.reads)?;
    is_body_check(alloc, key, list, row)
}

/// Whether the case's query is one of a body, and its check without a runner, over the case's answers, reads just them,
/// in their order, and comes to its value.
pub fn is_checked(alloc: Global, row: Row) -> Result<bool, Unfit>
    ensures { IfOk result (λ b. IsTrue b → (profile : Profile)
        → IsGivenRun profile row.entry.query row.entry.reads.now) }
{
    let key = query_of(alloc, row.query.0)?;
    is_checked_of(alloc, &key, row)
}
