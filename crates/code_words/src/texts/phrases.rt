//! What is wrong in a body.
use crate::concat_sentences;

const E301: &str = concat_sentences!(
    "E301: ",
    E301,
    "
  rule     ! and && are for booleans. An int doesn't stand for one
  example  b = true && 1;
  do       write a comparison in place of the operand, as 0 < x
",
);

const E302: &str = concat_sentences!(
    "E302: ",
    E302,
    "
  rule     < compares two ints
  example  b = true < 1;
  do       compare two ints
",
);

const E303: &str = concat_sentences!(
    "E303: ",
    E303,
    "
  rule     a variable is a parameter or a local of the method, or else a field of its class or of a
           superclass. main has none, and its parameter isn't one
  example  class A { public int f() { return x; } }
  do       declare the variable, or correct its name; in main, call a method that has it
",
);

const E304: &str = concat_sentences!(
    "E304: ",
    E304,
    "
  rule     +, - and * are for ints
  example  x = 1 + true;
  do       write an int in place of the operand
",
);

const E305: &str = concat_sentences!(
    "E305: ",
    E305,
    "
  rule     new C() makes an object of a class C that a file of the project declares. A file with
           E101 declares none
  example  a = new Missing();
  do       declare that class, or correct its name
",
);

const E306: &str = concat_sentences!(
    "E306: ",
    E306,
    "
  rule     main is static, so that no object is there for 'this' to stand for
  example  class M { public static void main(String[] a) { System.out.println(this.f()); } }
  do       call the method on an object: new A().f()
",
);

const E307: &str = concat_sentences!(
    "E307: ",
    E307,
    "
  rule     what stands before [ is an array of ints. There are no other arrays
  example  x = 1[0];
  do       index a value of type int[]
",
);

const E308: &str = concat_sentences!(
    "E308: ",
    E308,
    "
  rule     what stands between [ and ] is an int
  example  x = (new int[3])[true];
  do       write an int between [ and ]
",
);

const E309: &str = concat_sentences!(
    "E309: ",
    E309,
    "
  rule     only an array of ints has a length. A method of the name length is called as e.length()
  example  x = this.length;
  do       ask an array, or call a method that returns the length of the object
",
);

const E310: &str = concat_sentences!(
    "E310: ",
    E310,
    "
  rule     what stands before the point of a call is an object. Other values have no methods
  example  x = 1.m();
  do       call the method on an object of a class that has it
",
);

const E311: &str = concat_sentences!(
    "E311: ",
    E311,
    "
  rule     the method that is called is one of the object's class or of a superclass. A class that
           no file declares has none
  example  x = this.missing();
  do       declare the method, or correct its name or the class of the object
",
);

const E312: &str = concat_sentences!(
    "E312: ",
    E312,
    "
  rule     a call has one argument for each parameter of the method
  example  class A { public int f(int x) { return this.f(); } }
  do       write as many arguments as there are parameters
",
);

const E313: &str = concat_sentences!(
    "E313: ",
    E313,
    "
  rule     an argument has the type of its parameter. If both are classes it may be a subclass
  example  class A { public int f(int x) { return this.f(true); } }
  do       write a value of the parameter's type, or change that type
",
);

const E314: &str = concat_sentences!(
    "E314: ",
    E314,
    "
  rule     new int[e] makes an array with as many ints as the int e says
  example  a = new int[true];
  do       write an int between [ and ]
",
);

const E315: &str = concat_sentences!(
    "E315: ",
    E315,
    "
  rule     an int is at most 2147483647, and a literal is an int
  example  x = 2147483648;
  do       write a smaller literal
",
);

const E316: &str = concat_sentences!(
    "E316: ",
    E316,
    "
  rule     the condition of if and of while is a boolean. An int doesn't stand for one
  example  while (1) x = x + 1;
  do       write a comparison, as 0 < x
",
);

const E317: &str = concat_sentences!(
    "E317: ",
    E317,
    "
  rule     System.out.println prints an int, and nothing else
  example  System.out.println(true);
  do       print an int, as 1 for true and 0 for false
",
);

const E318: &str = concat_sentences!(
    "E318: ",
    E318,
    "
  rule     a value has the type of the variable that it is assigned to. If both are classes it
           may be a subclass. What is assigned to x[e] is an int
  example  class A { public int f(int x) { x = true; return x; } }
  do       assign a value of the variable's type, or change that type
",
);

const E319: &str = concat_sentences!(
    "E319: ",
    E319,
    "
  rule     the returned value has the return type. If both are classes it may be a subclass
  example  class A { public int f() { return true; } }
  do       return a value of the return type, or change that type
",
);

/// The codes of diagnostics of phrases: of their operands.
pub(crate) const OPERANDS_CODES: [&str; 10] = [
    "E301", "E302", "E303", "E304", "E305", "E306", "E307", "E308", "E309", "E310",
];

/// Their texts, in the same order.
pub(crate) const OPERANDS_TEXTS: [&str; 10] = [
    E301, E302, E303, E304, E305, E306, E307, E308, E309, E310,
];

/// The codes of diagnostics of phrases: of what names and types are used for.
pub(crate) const USES_CODES: [&str; 9] = [
    "E311", "E312", "E313", "E314", "E315", "E316", "E317", "E318", "E319",
];

/// Their texts, in the same order.
pub(crate) const USES_TEXTS: [&str; 9] = [E311, E312, E313, E314, E315, E316, E317, E318, E319];
