//! The chain of a class.
ghost use Rattle.std.specs.Prelude.{◌≡◌, ◌++◌, ◌∷◌, [], length, option_copied, option_and_then, if◌then◌else◌, IfOk, IfErr, OnOk};
ghost use Rattle.ordered_names.specs.Order.{IsAscendingByName};
ghost use Rattle.mj_classes.specs.Chains.{is_in};
ghost use Rattle.recorder.specs.Programs.{Goes, GivesUp};
ghost use Rattle.result_bytes.specs.Parts.{header_in};
ghost use Rattle.member_queries.specs.Supers.{is_listed as listed, chain, climb_by as climb_told, climb_step, chain_steps, listed_steps, supers_steps};

use item_ids::Key;
use mj_answer::position_by_name;
use ordered_names::Name;
use recorder::{Reader, Recorder, RunFault, read};
use result_bytes::{ChainEnd, IndexRow, Supers, Value};
use std::alloc::{AllocError, Global};
use std::collections::BTreeSet;
use std::marker::Model;

/// Where a chain continues after its last class.
#[derive(Drop)]
pub enum Climb {
    /// At a declared class that isn't in the chain.
    At(Name),
    /// Nowhere: the chain has this end.
    Over(ChainEnd),
}

/// The first classes of a chain, with the set of their names.
#[derive(Drop)]
struct Ascent {
    names: Vec<Name>,
    met: BTreeSet<Name>,
}

impl Model for Ascent {
    ghost use Rattle.std.specs.Prelude.{ℕ, List};
    ghost use Rattle.member_queries.specs.Met.{HasMet};

    ghost Value = { List (List ℕ) };

    ghost view = { λ ascent. ascent.names.items };

    ghost invariant = { λ ascent. HasMet ascent.met ascent.names.items };
}

impl Ascent {
    /// No classes.
    fn new(alloc: Global) -> Self
        ensures { result ≡ [] }
    {
        Ascent {
            names: Vec::new(alloc),
            met: BTreeSet::new(alloc),
        }
    }

    /// These classes and one more.
    fn add(self, alloc: Global, class: Name) -> Result<Self, AllocError>
        ensures { IfOk result (λ more. more ≡ self ++ class ∷ []) }
    {
        let Ascent { mut names, mut met } = self;
        met.insert(class.copy(alloc)?)?;
        names.push(class)?;
        Ok(Ascent { names, met })
    }

    /// Whether a class is among them.
    fn has(&self, class: &Name) -> bool
        ensures { result ≡ is_in self.now class.now }
    {
        self.met.contains(class)
    }

    /// The chain of these classes with this end.
    fn chain(self, end: ChainEnd) -> Supers
        ensures { result ≡ chain self end }
    {
        Supers::new(self.names, end)
    }
}

/// Whether rows of an index have a class.
fn is_listed(rows: &[IndexRow], class: &Name) -> bool
    requires { IsAscendingByName (λ row. row.class) rows.now }
    ensures { result ≡ listed rows.now class.now }
{
    position_by_name(rows, class).is_some()
}

/// Where a chain continues whose last class extends this one.
fn climb_to(rows: &[IndexRow], ascent: &Ascent, class: Name) -> Climb
    requires { IsAscendingByName (λ row. row.class) rows.now }
    ensures { result ≡ climb_told rows.now ascent.now (Some class) }
{
    if ascent.has(&class) {
        Climb::Over(ChainEnd::Repeated(class))
    } else if is_listed(rows, &class) {
        Climb::At(class)
    } else {
        Climb::Over(ChainEnd::Undeclared(class))
    }
}

/// Where a chain continues, by the header of its last class.
fn climb_by(
    alloc: Global,
    rows: &[IndexRow],
    ascent: &Ascent,
    answer: &Value,
) -> Result<Climb, AllocError>
    requires { IsAscendingByName (λ row. row.class) rows.now }
    ensures { IfOk result (λ at. at
        ≡ climb_told rows.now ascent.now
        (option_and_then (λ h. h.superclass) (header_in answer.now))) }
{
    let superclass = match answer.header() {
        Some(header) => header.superclass(),
        None => None,
    };
    match superclass {
        Some(class) => Ok(climb_to(rows, ascent, class.copy(alloc)?)),
        None => Ok(Climb::Over(ChainEnd::Top)),
    }
}

/// Asks the header of one more class of a chain: the classes with it, and where the chain continues.
fn ask_next<D: Reader>(
    alloc: Global,
    recorder: &mut Recorder<D>,
    rows: &[IndexRow],
    ascent: Ascent,
    class: Name,
) -> Result<(Ascent, Climb), RunFault>
    requires { IsAscendingByName (λ row. row.class) rows.now }
    ensures ok { IfOk result (λ at. Goes (climb_step rows.now ascent class) recorder.old at
        recorder.new) }
    ensures err { IfErr result (λ e. GivesUp (climb_step rows.now ascent class) recorder.old e
        recorder.new) }
    ensures follows { D.follows recorder.old.inner recorder.new.inner }
{
    let answer = read(recorder, Key::Header(class.copy(alloc)?))?;
    let ascent = ascent.add(alloc, class)?;
    let climb = climb_by(alloc, rows, &ascent, answer.value())?;
    Ok((ascent, climb))
}

/// The chain that begins with a class. No chain has more classes than the index.
fn ask_chain<D: Reader>(
    alloc: Global,
    recorder: &mut Recorder<D>,
    rows: &[IndexRow],
    first: Name,
) -> Result<Supers, RunFault>
    requires { IsAscendingByName (λ row. row.class) rows.now }
    ensures ok { IfOk result (λ chain. Goes (chain_steps (length rows.now) rows.now [] first)
        recorder.old chain recorder.new) }
    ensures err { IfErr result (λ e. GivesUp (chain_steps (length rows.now) rows.now [] first)
        recorder.old e recorder.new) }
    ensures follows { D.follows recorder.old.inner recorder.new.inner }
{
    let mut ascent = Ascent::new(alloc);
    let mut class = first;
    for _ in 0..rows.len() {
        let (more, climb) = ask_next(alloc, recorder, rows, ascent, class)?;
        ascent = more;
        match climb {
            Climb::At(next) => class = next,
            Climb::Over(end) => return Ok(ascent.chain(end)),
        }
    }
    Ok(ascent.chain(ChainEnd::Top))
}

/// The chain of a class, if the index has the class.
fn chain_among<D: Reader>(
    alloc: Global,
    recorder: &mut Recorder<D>,
    rows: &[IndexRow],
    class: &Name,
) -> Result<Value, RunFault>
    requires { IsAscendingByName (λ row. row.class) rows.now }
    ensures ok { IfOk result (λ v. Goes (listed_steps (listed rows.now class.now) rows.now
        class.now) recorder.old v recorder.new) }
    ensures err { IfErr result (λ e. GivesUp (listed_steps (listed rows.now class.now) rows.now
        class.now) recorder.old e recorder.new) }
    ensures follows { D.follows recorder.old.inner recorder.new.inner }
{
    if !is_listed(rows, class) {
        return Ok(Value::Supers(None));
    }
    let chain = ask_chain(alloc, recorder, rows, class.copy(alloc)?)?;
    Ok(Value::Supers(Some(chain)))
}

/// The chain of a class, by the index and the headers of its classes.
pub fn run_supers<D: Reader>(
    alloc: Global,
    recorder: &mut Recorder<D>,
    class: &Name,
) -> Result<Value, RunFault>
    ensures ok { IfOk result (λ v. Goes (supers_steps class.now) recorder.old v recorder.new) }
    ensures err { IfErr result (λ e. GivesUp (supers_steps class.now) recorder.old e
        recorder.new) }
    ensures follows { D.follows recorder.old.inner recorder.new.inner }
{
    let index = read(recorder, Key::Index)?;
    chain_among(alloc, recorder, index.value().index(), class)
}
