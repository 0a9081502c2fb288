//! What is wrong with a project.
use crate::concat_sentences;

const E101: &str = concat_sentences!(
    "E101: ",
    E101,
    "
  rule     a file is cut into tokens, and the grammar has to derive these. It has at most 1,048,576
           bytes, no name of more than 255, and no phrase of a level over 500
  example  class {
  do       mend the text at the place or before it; if no place is reported, shorten or flatten it
",
);

const E102: &str = concat_sentences!(
    "E102: ",
    E102,
    "
  rule     a project has a main class, one with public static void main. A file with E101 has none
  example  class A { }
  do       mend the files with E101, or else add the file with the main class
",
);

const E103: &str = concat_sentences!(
    "E103: ",
    E103,
    "
  rule     a project has one main class. It is that of the first file that has one
  example  // in a second file
           class N { public static void main(String[] a) { System.out.println(1); } }
  do       leave out one of the two files, or take the main class out of one
",
);

const E104: &str = concat_sentences!(
    "E104: ",
    E104,
    "
  rule     the classes of all files have different names. The first of a name counts, and the bodies
           of the others aren't checked
  example  class A { } class A { }
  do       give one of them another name, or take it away
",
);

/// The codes of diagnostics of a project.
pub(crate) const PROJECT_CODES: [&str; 4] = ["E101", "E102", "E103", "E104"];

/// Their texts, in the same order.
pub(crate) const PROJECT_TEXTS: [&str; 4] = [E101, E102, E103, E104];
