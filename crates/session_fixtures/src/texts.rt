//! Texts of files whose sessions are worked by hand.

/// A main class that prints 1.
pub const ONE: &str = "class M { public static void main(String[] a) { System.out.println(1); } }";

/// A main class that prints what a method of a second class returns, which has two methods.
pub const TWO: &str =
    "class M { public static void main(String[] a) { System.out.println(new A().f()); } } class A { public int f() { return 1; } public int g() { return 2; } }";

/// The same, but for the body of the first of the two methods.
pub const TWO_EDITED: &str =
    "class M { public static void main(String[] a) { System.out.println(new A().f()); } } class A { public int f() { return 3; } public int g() { return 2; } }";
