//! What the rules say of a project: the types in its methods, and their faults.
ghost use Rattle.rule_laws.specs.ProjectLaws.{ScopeLaws, TypeLaws, MethodFaultLaw};

/// A name in a class stands for one method at most, or for main, and so for one scope.
pub fn scope_laws()
    ensures { ScopeLaws }
{}

/// An expression of a method has one type at most, the one that a check computes, and a phrase is well if a check finds so.
pub fn type_laws()
    ensures { TypeLaws }
{}

/// The answer that the rules give has just the faults in a method that the demands of its phrases give.
pub fn method_fault_laws()
    ensures { MethodFaultLaw }
{}
