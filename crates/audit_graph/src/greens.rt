//! Green records over the previous session.
ghost use Rattle.std.specs.Prelude.{◌≡◌, ◌≢◌, ◌<◌, length, true, Some, None, MatchBool, MatchOption};
ghost use Rattle.std.specs.Option.{option_copied};
ghost use Rattle.std.specs.List.{AllByRecursion};
ghost use Rattle.sessions.specs.declared.mark.Mark.TheVariants.{Green};
ghost use Rattle.sessions.specs.Sessions.{AreInside, key_at, entry_at, entry_of};
ghost use Rattle.graph_rules.specs.Settings.{has_kind, crossing_kinds};
ghost use Rattle.graph_rules.specs.Next.{StandsIn};
ghost use Rattle.audit_graph.specs.Firsts.{IsFirstWithout};
ghost use Rattle.audit_graph.specs.Greens.{GreensStand, HasSamePrint, StandsIfGreen, IsLack, keys_at};
ghost use Rattle.audit_graph.specs.Steps.{IsFirstLack, setting_behind};

use crate::past::Past;
use crate::places::{key_of, print_of};
use fingerprint::Print;
use item_ids::{Key, Kind, keys_in_order};
use recorder::Runner;
use sessions::{Mark, Record, Session};

/// Why a green record doesn't stand in the previous session: the first of these reasons.
#[derive(Clone, Copy)]
pub enum Lack {
    /// The previous session has no record of the key.
    WithoutPast,
    /// It is of a kind that goes by the profile, and the previous session is of another profile.
    AcrossProfiles,
    /// Its edges are different there.
    OtherEdges,
    /// The edge at this place has another fingerprint there.
    OverRed(usize),
    /// It has another fingerprint there.
    OtherPrint,
}

/// The first green record that doesn't stand in the previous session, and why.
pub(crate) fn first_lack<R: Runner>(
    past: Option<&Past<'_>>,
    session: &Session,
) -> Option<(usize, Lack)>
    ensures { MatchOption result
        (GreensStand (setting_behind R.queries.by_profile (option_copied past.entry) session.now)
        (entry_at session.now))
        (λ x. IsFirstLack (setting_behind R.queries.by_profile (option_copied past.entry)
        session.now) session.now x.0 x.1) }
{
    for (n, item) in session.records().iter().enumerate() {
        if let Some(why) = lack_if_green::<R>(past, session, item) {
            return Some((n, why));
        }
    }
    None
}

/// Why a record doesn't stand in the previous session, if it is green.
fn lack_if_green<R: Runner>(
    past: Option<&Past<'_>>,
    session: &Session,
    item: &Record,
) -> Option<Lack>
    requires { AreInside session.now.records item.now.edges }
    ensures { MatchOption result
        (StandsIfGreen (setting_behind R.queries.by_profile (option_copied past.entry) session.now)
        (entry_at session.now) (entry_of session.now.records item.now))
        (λ why. (item.now.mark ≡ Green)
        × IsLack (setting_behind R.queries.by_profile (option_copied past.entry) session.now)
        (entry_at session.now) (entry_of session.now.records item.now) why) }
{
    match (item.mark(), past) {
        (Mark::Green, Some(past)) => find_lack::<R>(past, session, item),
        (Mark::Green, None) => Some(Lack::WithoutPast),
        (Mark::Input | Mark::Executed, _) => None,
    }
}

/// Why a record doesn't stand in the previous session.
fn find_lack<R: Runner>(past: &Past<'_>, session: &Session, item: &Record) -> Option<Lack>
    requires { AreInside session.now.records item.now.edges }
    ensures { MatchOption result
        (StandsIn (setting_behind R.queries.by_profile (Some past.now) session.now)
        (entry_at session.now) (entry_of session.now.records item.now))
        (IsLack (setting_behind R.queries.by_profile (Some past.now) session.now)
        (entry_at session.now) (entry_of session.now.records item.now)) }
{
    let Some(at) = past.find(item.key()) else {
        return Some(Lack::WithoutPast);
    };
    if crosses::<R>(past, session, item.key().kind()) {
        return Some(Lack::AcrossProfiles);
    }
    let old = past.edges(at);
    if !are_same(past, old, session, item.edges()) {
        return Some(Lack::OtherEdges);
    }
    if let Some(i) = first_red(past, old, session, item.edges()) {
        return Some(Lack::OverRed(i));
    }
    if !same_print(past.print(at), item.sealed().print()) {
        return Some(Lack::OtherPrint);
    }
    None
}

/// Whether nothing of this kind is taken over from the previous session, since the kind goes by the profile and the
/// session has another one.
fn crosses<R: Runner>(past: &Past<'_>, session: &Session, kind: Kind) -> bool
    ensures { result ≡ has_kind
        (crossing_kinds R.queries.by_profile session.now.terms.profile (Some past.now)) kind }
{
    !past.profile().is(session.terms().profile) && R::by_profile(kind)
}

/// Whether edges of the previous session and of the session lead to the same keys.
fn are_same(past: &Past<'_>, old: &[usize], session: &Session, edges: &[usize]) -> bool
    requires old { AllByRecursion (λ e. e < length past.now.records) old.now }
    requires edges { AreInside session.now.records edges.now }
    ensures same { MatchBool result
        (keys_at past.now.records old.now ≡ keys_at session.now.records edges.now)
        (keys_at past.now.records old.now ≢ keys_at session.now.records edges.now) }
    ensures long { result ≡ true → length old.now ≡ length edges.now }
{
    if old.len() != edges.len() {
        return false;
    }
    for (i, edge) in edges.iter().enumerate() {
        if !same_key(past.key(old[i]), key_of(session, *edge)) {
            return false;
        }
    }
    true
}

/// The place of the first edge that has another fingerprint in the previous session.
fn first_red(past: &Past<'_>, old: &[usize], session: &Session, edges: &[usize]) -> Option<usize>
    requires old { AllByRecursion (λ e. e < length past.now.records) old.now }
    requires edges { AreInside session.now.records edges.now }
    requires long { length old.now ≡ length edges.now }
    ensures { keys_at past.now.records old.now ≡ keys_at session.now.records edges.now
        → MatchOption result
        (AllByRecursion (HasSamePrint (entry_at past.now) (entry_at session.now))
        (keys_at session.now.records edges.now))
        (IsFirstWithout (HasSamePrint (entry_at past.now) (entry_at session.now))
        (keys_at session.now.records edges.now)) }
{
    for (i, edge) in edges.iter().enumerate() {
        if !same_print(past.print(old[i]), print_of(session, *edge)) {
            return Some(i);
        }
    }
    None
}

/// Whether two keys are one.
fn same_key(a: &Key, b: &Key) -> bool
    ensures { MatchBool result (a.now ≡ b.now) (a.now ≢ b.now) }
{
    // `==` on keys is equality.
    keys_in_order();
    a == b
}

/// Whether two fingerprints are one.
fn same_print(a: Print, b: Print) -> bool
    ensures { MatchBool result (a.0 ≡ b.0) (a.0 ≢ b.0) }
{
    a == b
}
