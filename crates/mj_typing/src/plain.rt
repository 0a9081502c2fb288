//! Checks that need no asking.
ghost use Rattle.std.specs.Prelude.{◌≡◌, IfOk, Ok, refl};
ghost use Rattle.mj_tree.specs.Views.{method_view, main_view};
ghost use Rattle.mj_phrases.specs.Inquiries.{conclusion};
ghost use Rattle.mj_typing.specs.Bodies.{method_faults, main_faults};

use crate::check::{check_main, check_method};
use mj_phrases::{Asking, Environment, Mistake, Stop};
use mj_tree::{MainTree, MethodTree, Ty};
use ordered_names::Name;
use std::alloc::{AllocError, Global};
use std::convert::Infallible;

/// Asks declarations that answer by themselves.
#[derive(Drop)]
struct Plain<'a, D: Environment> {
    declarations: &'a D,
}

impl<'a, D: Environment> Asking for Plain<'a, D> {
    ghost use Rattle.std.proofs.Common.{◌∙◌};

    type Refusal = Infallible;

    type Method = D::Method;

    ghost stands = { λ s start now.
        conclusion (D.world s.declarations.now) start
        ≡ conclusion (D.world s.declarations.now) now };

    ghost halts = { λ s start e. Unit {0} };

    ghost follows = { λ s t. t.declarations.now ≡ s.declarations.now };

    ghost reflexive = { λ s. refl };

    ghost transitive = { λ s t u a b. b ∙ a };

    ghost wanting = { λ s start now h. tt };

    fn descends(
        &mut self,
        alloc: Global,
        class: &Name,
        ancestor: &Name,
    ) -> Result<bool, Stop<Infallible>> {
        Ok(self.declarations.descends(alloc, class, ancestor)?)
    }

    fn field(
        &mut self,
        alloc: Global,
        class: &Name,
        name: &Name,
    ) -> Result<Option<Ty>, Stop<Infallible>> {
        Ok(self.declarations.field(alloc, class, name)?)
    }

    fn method(
        &mut self,
        alloc: Global,
        class: &Name,
        name: &Name,
    ) -> Result<Option<D::Method>, Stop<Infallible>> {
        Ok(self.declarations.method(alloc, class, name)?)
    }

    fn is_declared(&mut self, alloc: Global, class: &Name) -> Result<bool, Stop<Infallible>> {
        Ok(self.declarations.is_declared(alloc, class)?)
    }
}

/// The outcome of a check that was refused no answer.
fn mistakes_of(outcome: Result<Vec<Mistake>, Stop<Infallible>>) -> Result<Vec<Mistake>, AllocError>
    ensures { IfOk result (λ mistakes. outcome ≡ Ok mistakes) }
{
    match outcome {
        Ok(mistakes) => Ok(mistakes),
        Err(Stop::OutOfMemory) => Err(AllocError),
        Err(Stop::Refused(never)) => match never {},
    }
}

/// The mistakes in a method of the class, if the declarations answer by themselves.
pub fn method_mistakes<D: Environment>(
    alloc: Global,
    declarations: &D,
    class: &Name,
    method: &MethodTree,
) -> Result<Vec<Mistake>, AllocError>
    ensures { IfOk result (λ mistakes.
        mistakes.items
        ≡ method_faults (D.world declarations.now) class.now (method_view method.now)) }
{
    mistakes_of(check_method(alloc, &mut Plain { declarations }, class, method))
}

/// The mistakes in main, if the declarations answer by themselves.
pub fn main_mistakes<D: Environment>(
    alloc: Global,
    declarations: &D,
    main: &MainTree,
) -> Result<Vec<Mistake>, AllocError>
    ensures { IfOk result (λ mistakes.
        mistakes.items ≡ main_faults (D.world declarations.now) (main_view main.now)) }
{
    mistakes_of(check_main(alloc, &mut Plain { declarations }, main))
}
