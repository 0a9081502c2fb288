//! A check that gets what it asks by reads.
ghost use Rattle.std.specs.Prelude.{◌≡◌, List, [], Option, IfOk, IfErr};
ghost use Rattle.std.specs.Arc.{arc_value};
ghost use Rattle.item_ids.specs.declared.key.Key.TheVariants as keys;
ghost use Rattle.mj_tree.specs.Views.{method_view, stmt_view};
ghost use Rattle.mj_typing.specs.Bodies.{method_check, statement_step};
ghost use Rattle.mj_phrases.specs.Inquiries.{Concludes};
ghost use Rattle.mj_phrases.specs.Table.{main_scope};
ghost use Rattle.recorder.specs.Programs.{Goes, GivesUp};
ghost use Rattle.body_query.specs.Programs.{reads_of};

use body_questions::{ask_declared, ask_descends, ask_field, ask_method};
use mj_phrases::{Asking, MethodTypes, Mistake, Stop};
use mj_tree::{MethodTree, Stmt, Ty};
use mj_typing::{check_main_statement, check_method};
use ordered_names::Name;
use recorder::{Reader, Recorder, RunFault};
use std::alloc::Global;
use std::marker::{Brand, PhantomData};

/// What a recorder had read when a check began. Each call of a check picks it.
trait Began {
    ghost use Rattle.std.specs.Prelude.{List, Option};
    ghost use Rattle.recorder.specs.Backed.{ReadValue};
    ghost use Rattle.recorder.specs.declared.refused.Refused.{Refused};

    ghost told: { List ReadValue };

    ghost refused: { Option Refused };
}

impl Began for Brand {
    ghost use Rattle.std.specs.Prelude.{None, []};

    ghost told = { [] };

    ghost refused = { None };
}

/// Asks by reads.
#[derive(Drop)]
struct AskingByReads<'a, D: Reader, B: Began> {
    recorder: &'a mut Recorder<D>,
    began: PhantomData<B>,
}

impl<'a, D: Reader, B: Began> Asking for AskingByReads<'a, D, B> {
    ghost use Rattle.std.proofs.Common.{◌≡◌, ◌∙◌, refl};
    ghost use Rattle.body_query.specs.Steps.{Comes, HasGivenUp, wants};

    type Refusal = RunFault;

    type Method = MethodTypes;

    ghost stands = { λ s start now. Comes B.told B.refused start now s.recorder.now };

    ghost halts = { λ s start e. HasGivenUp B.told B.refused start e s.recorder.now };

    ghost follows = { λ s t. (t.recorder.ghost_name ≡ s.recorder.ghost_name)
        × D.follows s.recorder.now.inner t.recorder.now.inner };

    ghost reflexive = { λ s. (refl, D.reflexive s.recorder.now.inner) };

    ghost transitive = { λ s t u f g. (
      g.0 ∙ f.0,
      D.transitive s.recorder.now.inner t.recorder.now.inner
          u.recorder.now.inner f.1 g.1,
    ) };

    ghost wanting = { λ s start now h. wants B.told B.refused start now s.recorder.now h };

    fn descends(
        &mut self,
        alloc: Global,
        class: &Name,
        ancestor: &Name,
    ) -> Result<bool, Stop<RunFault>> {
        match ask_descends(alloc, self.recorder, class, ancestor) {
            Ok(answer) => Ok(answer),
            Err(fault) => Err(Stop::Refused(fault)),
        }
    }

    fn field(
        &mut self,
        alloc: Global,
        class: &Name,
        name: &Name,
    ) -> Result<Option<Ty>, Stop<RunFault>> {
        match ask_field(alloc, self.recorder, class, name) {
            Ok(answer) => Ok(answer),
            Err(fault) => Err(Stop::Refused(fault)),
        }
    }

    fn method(
        &mut self,
        alloc: Global,
        class: &Name,
        name: &Name,
    ) -> Result<Option<MethodTypes>, Stop<RunFault>> {
        match ask_method(alloc, self.recorder, class, name) {
            Ok(answer) => Ok(answer),
            Err(fault) => Err(Stop::Refused(fault)),
        }
    }

    fn is_declared(&mut self, alloc: Global, class: &Name) -> Result<bool, Stop<RunFault>> {
        match ask_declared(alloc, self.recorder, class) {
            Ok(answer) => Ok(answer),
            Err(fault) => Err(Stop::Refused(fault)),
        }
    }
}

/// The mistakes in a method of the class, by reads that begin here.
fn check_through<D: Reader, B: Began>(
    alloc: Global,
    reads: &mut AskingByReads<'_, D, B>,
    class: &Name,
    method: &MethodTree,
) -> Result<Vec<Mistake>, RunFault>
    requires told { reads.old.recorder.now.told ≡ B.told }
    requires refused { reads.old.recorder.now.refused ≡ B.refused }
    ensures ok { IfOk result (λ mistakes. Goes
        (reads_of (method_check class.now (method_view method.now)))
        reads.old.recorder.now mistakes.items reads.new.recorder.now) }
    ensures err { IfErr result (λ e. GivesUp
        (reads_of (method_check class.now (method_view method.now)))
        reads.old.recorder.now e reads.new.recorder.now) }
    ensures same_reference { reads.new.recorder.ghost_name ≡ reads.old.recorder.ghost_name }
    ensures follows { D.follows reads.old.recorder.now.inner reads.new.recorder.now.inner }
{
    match check_method(alloc, reads, class, method) {
        Ok(mistakes) => Ok(mistakes),
        Err(Stop::OutOfMemory) => Err(RunFault::OutOfMemory),
        Err(Stop::Refused(fault)) => Err(fault),
    }
}

/// The mistakes in a method of the class, by reads of a recorder that stands where the check began.
fn check_method_since<D: Reader, B: Began>(
    alloc: Global,
    recorder: &mut Recorder<D>,
    class: &Name,
    method: &MethodTree,
) -> Result<Vec<Mistake>, RunFault>
    requires told { recorder.old.told ≡ B.told }
    requires refused { recorder.old.refused ≡ B.refused }
    ensures ok { IfOk result (λ mistakes. Goes
        (reads_of (method_check class.now (method_view method.now)))
        recorder.old mistakes.items recorder.new) }
    ensures err { IfErr result (λ e. GivesUp
        (reads_of (method_check class.now (method_view method.now)))
        recorder.old e recorder.new) }
    ensures follows { D.follows recorder.old.inner recorder.new.inner }
{
    let mut reads = AskingByReads::<D, B> {
        recorder,
        began: PhantomData,
    };
    check_through(alloc, &mut reads, class, method)
}

/// The mistakes in a method of the class, unordered and with repeats.
pub fn check_method_by_reads<D: Reader>(
    alloc: Global,
    recorder: &mut Recorder<D>,
    class: &Name,
    method: &MethodTree,
) -> Result<Vec<Mistake>, RunFault>
    ensures ok { IfOk result (λ mistakes. Goes
        (reads_of (method_check class.now (method_view method.now)))
        recorder.old mistakes.items recorder.new) }
    ensures err { IfErr result (λ e. GivesUp
        (reads_of (method_check class.now (method_view method.now)))
        recorder.old e recorder.new) }
    ensures follows { D.follows recorder.old.inner recorder.new.inner }
{
    check_method_since::<D, Brand>(alloc, recorder, class, method)
}

/// The mistakes in the statement of main, by reads that begin here.
fn check_main_through<D: Reader, B: Began>(
    alloc: Global,
    reads: &mut AskingByReads<'_, D, B>,
    statement: &Stmt,
) -> Result<Vec<Mistake>, RunFault>
    requires told { reads.old.recorder.now.told ≡ B.told }
    requires refused { reads.old.recorder.now.refused ≡ B.refused }
    ensures ok { IfOk result (λ mistakes. Goes
        (reads_of (statement_step main_scope (stmt_view statement.now) []
        (λ mistakes. Concludes mistakes))) reads.old.recorder.now mistakes.items
        reads.new.recorder.now) }
    ensures err { IfErr result (λ e. GivesUp
        (reads_of (statement_step main_scope (stmt_view statement.now) []
        (λ mistakes. Concludes mistakes))) reads.old.recorder.now e reads.new.recorder.now) }
    ensures same_reference { reads.new.recorder.ghost_name ≡ reads.old.recorder.ghost_name }
    ensures follows { D.follows reads.old.recorder.now.inner reads.new.recorder.now.inner }
{
    match check_main_statement(alloc, reads, statement) {
        Ok(mistakes) => Ok(mistakes),
        Err(Stop::OutOfMemory) => Err(RunFault::OutOfMemory),
        Err(Stop::Refused(fault)) => Err(fault),
    }
}

/// The mistakes in the statement of main, by reads of a recorder that stands where the check began.
fn check_main_since<D: Reader, B: Began>(
    alloc: Global,
    recorder: &mut Recorder<D>,
    statement: &Stmt,
) -> Result<Vec<Mistake>, RunFault>
    requires told { recorder.old.told ≡ B.told }
    requires refused { recorder.old.refused ≡ B.refused }
    ensures ok { IfOk result (λ mistakes. Goes
        (reads_of (statement_step main_scope (stmt_view statement.now) []
        (λ mistakes. Concludes mistakes))) recorder.old mistakes.items recorder.new) }
    ensures err { IfErr result (λ e. GivesUp
        (reads_of (statement_step main_scope (stmt_view statement.now) []
        (λ mistakes. Concludes mistakes))) recorder.old e recorder.new) }
    ensures follows { D.follows recorder.old.inner recorder.new.inner }
{
    let mut reads = AskingByReads::<D, B> {
        recorder,
        began: PhantomData,
    };
    check_main_through(alloc, &mut reads, statement)
}

/// The mistakes in the statement of main, unordered and with repeats.
pub fn check_main_by_reads<D: Reader>(
    alloc: Global,
    recorder: &mut Recorder<D>,
    statement: &Stmt,
) -> Result<Vec<Mistake>, RunFault>
    ensures ok { IfOk result (λ mistakes. Goes
        (reads_of (statement_step main_scope (stmt_view statement.now) []
        (λ mistakes. Concludes mistakes))) recorder.old mistakes.items recorder.new) }
    ensures err { IfErr result (λ e. GivesUp
        (reads_of (statement_step main_scope (stmt_view statement.now) []
        (λ mistakes. Concludes mistakes))) recorder.old e recorder.new) }
    ensures follows { D.follows recorder.old.inner recorder.new.inner }
{
    check_main_since::<D, Brand>(alloc, recorder, statement)
}
