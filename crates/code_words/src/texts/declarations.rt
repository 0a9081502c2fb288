//! What is wrong with a declaration.
use crate::concat_sentences;

const E201: &str = concat_sentences!(
    "E201: ",
    E201,
    "
  rule     a class extends one that a file of the project declares. A file with E101 declares none
  example  class A extends Missing { }
  do       declare that class, or correct its name
",
);

const E202: &str = concat_sentences!(
    "E202: ",
    E202,
    "
  rule     no class comes twice in a chain of superclasses, so that none extends itself through
           others
  example  class A extends B { }
           class B extends A { }
  do       let one class of the cycle extend nothing, or another class
",
);

const E203: &str = concat_sentences!(
    "E203: ",
    E203,
    "
  rule     the fields of a class have different names. The first of a name counts
  example  class A { int x; boolean x; }
  do       give one of them another name, or take it away
",
);

const E204: &str = concat_sentences!(
    "E204: ",
    E204,
    "
  rule     the methods of a class have different names, whatever their parameters: there is no
           overloading. The first of a name counts, and the bodies of the others aren't checked
  example  class A { public int f() { return 1; } public int f(int x) { return x; } }
  do       give one of them another name, and use that in its calls
",
);

const E205: &str = concat_sentences!(
    "E205: ",
    E205,
    "
  rule     a method that overrides one of a superclass has its parameter types and its return type.
           In profile 2 the return type may also be a subclass of the other's
  example  class A { public int f(int x) { return x; } }
           class B extends A { public int f(boolean x) { return 1; } }
  do       give the method the types of the one that it overrides, or another name
",
);

const E206: &str = concat_sentences!(
    "E206: ",
    E206,
    "
  rule     the class that a field, a parameter, a local or a return type names is one that a file of
           the project declares. A file with E101 declares none
  example  class A { Missing x; }
  do       declare that class, or correct its name
",
);

const E207: &str = concat_sentences!(
    "E207: ",
    E207,
    "
  rule     the parameters and the locals of a method, taken together, have different names. The
           first of a name counts
  example  class A { public int f(int x) { int x; return x; } }
  do       give one of them another name, or take it away
",
);

/// The codes of diagnostics of declarations.
pub(crate) const DECLARATIONS_CODES: [&str; 7] = [
    "E201", "E202", "E203", "E204", "E205", "E206", "E207",
];

/// Their texts, in the same order.
pub(crate) const DECLARATIONS_TEXTS: [&str; 7] = [E201, E202, E203, E204, E205, E206, E207];
