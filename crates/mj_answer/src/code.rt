//! Codes of diagnostics.
ghost use Rattle.std.specs.Prelude.{◌≡◌, ◌++◌, ◌==◌, Some, codes, decimal};
ghost use Rattle.std.specs.Ordering.{nat_cmp, on, as_partial_cmp};
ghost use Rattle.std.specs.Cmp.{partial_order_from_own_ties, unsigned_ties};
ghost use Rattle.std.specs.Cmp.Rules.{comparing};
ghost use Rattle.std.proofs.Common.{rules};
ghost use Rattle.mj_answer.specs.Codes.{code_number, code_of};

use std::cmp::Ordering;
use std::fmt;

/// What is wrong. The first digit of a code's number says what it is about: 1 the project, 2 a declaration, 3 a body.
/// Codes are ordered by their numbers.
#[derive(Clone, Copy, Debug)]
pub enum Code {
    /// The file is no sentence of the grammar, or it is too long or too deep.
    E101,
    /// The project has no main class.
    E102,
    /// The file has a main class, and so has an earlier one.
    E103,
    /// An earlier class has the same name.
    E104,
    /// The class extends a name that no class has.
    E201,
    /// The chain of superclasses runs into a cycle.
    E202,
    /// A field of the same name stands before this one.
    E203,
    /// A method of the same name stands before this one.
    E204,
    /// The method overrides one with other parameter types or another return type.
    E205,
    /// A declared type names a class that isn't there.
    E206,
    /// A formal or a local of the same name stands before this one.
    E207,
    /// An operand of `!` or `&&` isn't boolean.
    E301,
    /// An operand of `<` isn't an int.
    E302,
    /// The name is no variable in scope.
    E303,
    /// An operand of `+`, `-` or `*` isn't an int.
    E304,
    /// A new object of a class that isn't there.
    E305,
    /// `this` in `main`.
    E306,
    /// What is indexed isn't an array.
    E307,
    /// An index isn't an int.
    E308,
    /// The length of what isn't an array.
    E309,
    /// A method is called on what isn't an object.
    E310,
    /// The object's class has no such method.
    E311,
    /// The number of arguments isn't that of the formals.
    E312,
    /// An argument isn't accepted by its formal.
    E313,
    /// The length of a new array isn't an int.
    E314,
    /// A literal over 2147483647.
    E315,
    /// A condition isn't boolean.
    E316,
    /// What is printed isn't an int.
    E317,
    /// A value isn't accepted by what it is assigned to.
    E318,
    /// A returned value isn't accepted by the return type.
    E319,
}

impl Code {
    /// The digits behind the E.
    pub fn number(self) -> u16
        ensures { result ≡ code_number self }
    {
        match self {
            Code::E101 => 101,
            Code::E102 => 102,
            Code::E103 => 103,
            Code::E104 => 104,
            Code::E201 => 201,
            Code::E202 => 202,
            Code::E203 => 203,
            Code::E204 => 204,
            Code::E205 => 205,
            Code::E206 => 206,
            Code::E207 => 207,
            Code::E301 => 301,
            Code::E302 => 302,
            Code::E303 => 303,
            Code::E304 => 304,
            Code::E305 => 305,
            Code::E306 => 306,
            Code::E307 => 307,
            Code::E308 => 308,
            Code::E309 => 309,
            Code::E310 => 310,
            Code::E311 => 311,
            Code::E312 => 312,
            Code::E313 => 313,
            Code::E314 => 314,
            Code::E315 => 315,
            Code::E316 => 316,
            Code::E317 => 317,
            Code::E318 => 318,
            Code::E319 => 319,
        }
    }

    /// The code with this number.
    pub fn from_number(number: u16) -> Option<Self>
        ensures { result ≡ code_of number }
    {
        let code = match number {
            101 => Code::E101,
            102 => Code::E102,
            103 => Code::E103,
            104 => Code::E104,
            201 => Code::E201,
            202 => Code::E202,
            203 => Code::E203,
            204 => Code::E204,
            205 => Code::E205,
            206 => Code::E206,
            207 => Code::E207,
            301 => Code::E301,
            302 => Code::E302,
            303 => Code::E303,
            304 => Code::E304,
            305 => Code::E305,
            306 => Code::E306,
            307 => Code::E307,
            308 => Code::E308,
            309 => Code::E309,
            310 => Code::E310,
            311 => Code::E311,
            312 => Code::E312,
            313 => Code::E313,
            314 => Code::E314,
            315 => Code::E315,
            316 => Code::E316,
            317 => Code::E317,
            318 => Code::E318,
            319 => Code::E319,
            _ => return None,
        };
        Some(code)
    }
}

impl fmt::Display for Code {
    ghost output = { λ code. Some (codes "E" ++ decimal (code_number code)) };

    fn fmt<W: fmt::Write>(&self, f: &mut fmt::Formatter<W>) -> fmt::Result {
        write!(f, "E{}", self.number())
    }
}

impl PartialEq for Code {
    ghost eq = { on code_number ◌==◌ };

    ghost laws = { Prim.search (comparing, rules) };

    fn eq(&self, other: &Code) -> bool {
        self.number() == other.number()
    }
}

impl Eq for Code {
    ghost laws = { Prim.search (comparing, rules) };
}

impl PartialOrd for Code {
    ghost partial_cmp = { as_partial_cmp (on code_number nat_cmp) };

    ghost laws = { partial_order_from_own_ties (Prim.search (comparing, rules))
        (λ c d. unsigned_ties (code_number c) (code_number d)) };

    fn partial_cmp(&self, other: &Code) -> Option<Ordering> {
        Some(self.cmp(other))
    }
}

impl Ord for Code {
    ghost cmp = { on code_number nat_cmp };

    ghost total = { Prim.search (comparing, rules) };

    ghost matches_partial_cmp = { Prim.search (comparing, rules) };

    ghost matches_eq = { λ c d. unsigned_ties (code_number c) (code_number d) };

    fn cmp(&self, other: &Code) -> Ordering {
        self.number().cmp(&other.number())
    }
}
