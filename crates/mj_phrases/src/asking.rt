//! What answers a check's questions about declarations.
ghost use Rattle.std.specs.Prelude.{◌≡◌, IfOk, IfErr, IfSome, MatchOption, option_map};
ghost use Rattle.mj_phrases.specs.Inquiries.{World, Sig, AsksDescent, AsksField, AsksMethod, AsksDeclared};
ghost use Rattle.mj_phrases.specs.Steps.{Check, Proceeds, Aborts};
ghost use Rattle.mj_phrases.specs.declared.asking.Stop.{Stop};
ghost use Rattle.mj_phrases.specs.declared.asking.Stop.TheVariants.{OutOfMemory};

use mj_tree::Ty;
use ordered_names::Name;
use std::alloc::{AllocError, Global};

/// Why a check ended early: an answer was refused, or memory ran out.
#[derive(Drop)]
pub enum Stop<E> {
    OutOfMemory,
    /// An answer was refused.
    Refused(E),
}

impl<E> From<AllocError> for Stop<E> {
    ghost from_gives = { λ _ s. s ≡ OutOfMemory };

    fn from(_error: AllocError) -> Self {
        Stop::OutOfMemory
    }
}

/// A method's types.
pub trait MethodSignature {
    ghost sig: { Self → Sig };

    fn formals(&self) -> &[Ty]
        ensures { result.now ≡ (sig self.now).formals };

    fn returns(&self) -> &Ty
        ensures { result.now ≡ (sig self.now).returns };
}

/// The types of a method.
#[derive(Drop)]
pub struct MethodTypes {
    pub formals: Vec<Ty>,
    pub returns: Ty,
}

impl MethodSignature for MethodTypes {
    ghost sig = { λ types. record { formals = types.formals.items; returns = types.returns } };

    fn formals(&self) -> &[Ty] {
        self.formals.as_slice()
    }

    fn returns(&self) -> &Ty {
        &self.returns
    }
}

/// Answers the questions of a check, one after the other, or refuses to.
pub trait Asking {
    type Refusal: Drop;

    type Method: MethodSignature + Drop;

    /// A check that began with the first inquiry has come to the second.
    ghost stands: { Self → Check → Check → Type 0 };

    /// A check that began with the inquiry has ended so.
    ghost halts: { Self → Check → Stop Self.Refusal → Type 0 };

    /// The states that may come after a state.
    ghost follows: { Self → Self → Type 0 };

    /// Whether the second class stands in the chain of the first.
    fn descends(
        &mut self,
        alloc: Global,
        class: &Name,
        ancestor: &Name,
    ) -> Result<bool, Stop<Self::Refusal>>
        ensures ok { IfOk result (λ answer.
            Proceeds stands (AsksDescent class.now ancestor.now) self.old answer self.new) }
        ensures err { IfErr result (λ e.
            Aborts stands halts (AsksDescent class.now ancestor.now) self.old e self.new) }
        ensures follows { follows self.old self.new };

    /// The type of the field that a class has by this name.
    fn field(
        &mut self,
        alloc: Global,
        class: &Name,
        name: &Name,
    ) -> Result<Option<Ty>, Stop<Self::Refusal>>
        ensures ok { IfOk result (λ answer.
            Proceeds stands (AsksField class.now name.now) self.old answer self.new) }
        ensures err { IfErr result (λ e.
            Aborts stands halts (AsksField class.now name.now) self.old e self.new) }
        ensures follows { follows self.old self.new };

    /// The method that a class has by this name.
    fn method(
        &mut self,
        alloc: Global,
        class: &Name,
        name: &Name,
    ) -> Result<Option<Self::Method>, Stop<Self::Refusal>>
        ensures ok { IfOk result (λ answer.
            Proceeds stands (AsksMethod class.now name.now) self.old
            (option_map Self.Method.sig answer) self.new) }
        ensures err { IfErr result (λ e.
            Aborts stands halts (AsksMethod class.now name.now) self.old e self.new) }
        ensures follows { follows self.old self.new };

    /// Whether the class is declared.
    fn is_declared(&mut self, alloc: Global, class: &Name) -> Result<bool, Stop<Self::Refusal>>
        ensures ok { IfOk result (λ answer.
            Proceeds stands (AsksDeclared class.now) self.old answer self.new) }
        ensures err { IfErr result (λ e.
            Aborts stands halts (AsksDeclared class.now) self.old e self.new) }
        ensures follows { follows self.old self.new };

    ghost reflexive: { (s : Self) → follows s s };

    ghost transitive: { (s t u : Self) → follows s t → follows t u → follows s u };

    /// Memory may run out wherever a check stands.
    ghost wanting: { (s : Self) (start now : Check) → stands s start now
        → halts s start OutOfMemory };
}

/// Declarations that answer by themselves.
pub trait Environment {
    type Method: MethodSignature + Drop;

    ghost world: { Self → World };

    fn descends(&self, alloc: Global, class: &Name, ancestor: &Name) -> Result<bool, AllocError>
        ensures { IfOk result (λ answer.
            answer ≡ (world self.now).descends class.now ancestor.now) };

    fn field(&self, alloc: Global, class: &Name, name: &Name) -> Result<Option<Ty>, AllocError>
        ensures { IfOk result (λ answer. answer ≡ (world self.now).field class.now name.now) };

    fn method(
        &self,
        alloc: Global,
        class: &Name,
        name: &Name,
    ) -> Result<Option<Self::Method>, AllocError>
        ensures { IfOk result (λ answer.
            option_map Self.Method.sig answer ≡ (world self.now).method class.now name.now) };

    fn is_declared(&self, alloc: Global, class: &Name) -> Result<bool, AllocError>
        ensures { IfOk result (λ answer. answer ≡ (world self.now).is_declared class.now) };
}
