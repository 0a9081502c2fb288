//! Why the files of a project are refused.
use crate::concat_sentences;

const R3_1: &str = concat_sentences!(
    "3.1 RepeatedFile(N): ",
    R3_1,
    "
  rule     the files of a project have different names, byte for byte. N is the index of the later
           one, from 0
  example  mjrg scratch M.java A.java M.java
  do       name each file once
",
);

const R3_2: &str = concat_sentences!(
    "3.2 NoFiles: ",
    R3_2,
    "
  rule     a project has at least one file
  example  a library call gets no file; the program refuses such a command line before
  do       name the files of the project
",
);

const R3_3: &str = concat_sentences!(
    "3.3 TooManyFiles: ",
    R3_3,
    "
  rule     a project has at most 4,096 files
  example  mjrg scratch with the files of several projects at once
  do       check the files of one project at a time
",
);

const R3_4: &str = concat_sentences!(
    "3.4 BadFileName(N): ",
    R3_4,
    "
  rule     the name of a file, with its folders, has 1 to 255 bytes. N is the index of the file in
           the order given, from 0
  example  a path of more than 255 bytes
  do       name the files by shorter paths, from a folder nearer to them
",
);

/// The numbers of refusals of the files of a project.
pub(crate) const PROJECTS_CODES: [&str; 4] = ["3.1", "3.2", "3.3", "3.4"];

/// Their texts, in the same order.
pub(crate) const PROJECTS_TEXTS: [&str; 4] = [R3_1, R3_2, R3_3, R3_4];
