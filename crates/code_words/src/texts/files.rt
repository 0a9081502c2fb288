//! Why a session's file is refused.
use crate::concat_sentences;

const R11_1: &str = concat_sentences!(
    "11.1 BadMagic: ",
    R11_1,
    "
  rule     the first four bytes of a session's file are MJRG
  example  a source file, or a file with nothing in it, is named in place of a session's
  do       name a file that a check wrote; if it is one, it was damaged: restore the file, or let a
           check begin the next chain
",
);

const R11_2: &str = concat_sentences!(
    "11.2 Version: ",
    R11_2,
    "
  rule     the version says the form of the file, 1 or 2, and the profile of the language, 1 or 2
  example  another version of the program wrote the file, or its fifth or sixth byte was changed
  do       read it with the program that wrote it, or let a check begin the next chain
",
);

const R11_3: &str = concat_sentences!(
    "11.3 Truncated: ",
    R11_3,
    "
  rule     a file has all parts that it says it has: records, edges, and the bytes of each result
  example  a disk was full, or a copy of the file was broken off
  do       restore the file, or let a check begin the next chain
",
);

const R11_4: &str = concat_sentences!(
    "11.4 BadDigest: ",
    R11_4,
    "
  rule     the last 32 bytes of a file are the SHA-256 of all bytes before them
  example  a byte of the file is another one than was written
  do       the file was changed or damaged after it was written: restore it, or let a check begin
           the next chain
",
);

const R11_5: &str = concat_sentences!(
    "11.5 KeyOrder(N): ",
    R11_5,
    "
  rule     the records stand in the order of their keys, and no key has two. N is the record's
           index, from 0
  example  a file that no check wrote has two records of one key
  do       no check writes this: don't use the file, and let a check begin the next chain
",
);

const R11_6: &str = concat_sentences!(
    "11.6 BadEdge(N, J): ",
    R11_6,
    "
  rule     an edge is the index of a record before its own, of lower rank, and no record has it
           twice. N is the record's index, and J the edge's place in it, from 0
  example  a file that no check wrote has an edge to a later record
  do       no check writes this: don't use the file, and let a check begin the next chain
",
);

const R11_7: &str = concat_sentences!(
    "11.7 Result(N): ",
    R11_7,
    "
  rule     the bytes of a result are those that a check writes for it, and their SHA-256 is the
           record's fingerprint. N is the record's index, from 0
  example  a file that no check wrote has a result, and the fingerprint of another
  do       no check writes this: don't use the file, and let a check begin the next chain
",
);

const R11_8: &str = concat_sentences!(
    "11.8 InputKind(N): ",
    R11_8,
    "
  rule     the names of the files and their bytes have the mark Input, and nothing else has it. N is
           the record's index, from 0
  example  a file that no check wrote marks a query as an input
  do       no check writes this: don't use the file, and let a check begin the next chain
",
);

const R11_9: &str = concat_sentences!(
    "11.9 Trailing: ",
    R11_9,
    "
  rule     a file ends with the SHA-256 behind its last record
  example  two files were written one behind the other, or a line feed was added
  do       take away the bytes behind the end; if in doubt, let a check begin the next chain
",
);

const R11_11: &str = concat_sentences!(
    "11.11 BadKey(N): ",
    R11_11,
    "
  rule     a record has one of the 13 kinds and one of the three marks, and a class, a method or a
           file's name just where its kind has one. N is the record's index, from 0
  example  a file that no check wrote has a record of kind 13
  do       no check writes this: don't use the file, and let a check begin the next chain
",
);

const R11_12: &str = concat_sentences!(
    "11.12 Number: ",
    R11_12,
    "
  rule     the sessions of a chain have the numbers 0 to 9,999
  example  a file that no check wrote says that its number is 10,000
  do       no check writes this: don't use the file, and let a check begin the next chain
",
);

const R11_13: &str = concat_sentences!(
    "11.13 NoPastResult(N): ",
    R11_13,
    "
  rule     a green record of form 2 has no result: it is taken from the session before, which has
           its key with the same fingerprint. N is the record's index, from 0
  example  mjrg show c0000/s0001.mjrg, of form 2, without c0000/s0000.mjrg in front of it
  do       name the files of the chain from its start, or from a file of form 1, in their order
",
);

/// The numbers of refusals of a session's file: its parts.
pub(crate) const FILE_PARTS_CODES: [&str; 6] = ["11.1", "11.2", "11.3", "11.4", "11.5", "11.6"];

/// Their texts, in the same order.
pub(crate) const FILE_PARTS_TEXTS: [&str; 6] = [R11_1, R11_2, R11_3, R11_4, R11_5, R11_6];

/// The numbers of refusals of a session's file: its records.
pub(crate) const FILE_RECORDS_CODES: [&str; 6] = [
    "11.7", "11.8", "11.9", "11.11", "11.12", "11.13",
];

/// Their texts, in the same order.
pub(crate) const FILE_RECORDS_TEXTS: [&str; 6] = [R11_7, R11_8, R11_9, R11_11, R11_12, R11_13];
