//! Why a chain is refused.
use crate::concat_sentences;

const R14_1: &str = concat_sentences!(
    "14.1 EmptyChain: ",
    R14_1,
    "
  rule     a chain has at least one session
  example  a library call gets no file; the program refuses such a command line before
  do       name the files of the chain, from its first session on
",
);

const R14_2: &str = concat_sentences!(
    "14.2 File(K, WHY): ",
    R14_2,
    "
  rule     each file of a chain is that of a session. K is its index among the files, from 0, and
           WHY says what is wrong with it: mjrg explain says more of its number
  example  14.2 File(1, 11.4 BadDigest): a byte of the second file was changed
  do       do what mjrg explain says of WHY, and don't trust the answer of the chain until then
",
);

const R14_3: &str = concat_sentences!(
    "14.3 BrokenLink(K): ",
    R14_3,
    "
  rule     the sessions have the numbers 0, 1 and so on, and each has the SHA-256 of the whole file
           before it as its link. K is the index of the file, from 0
  example  a file of the chain is left out, stands twice, or was written anew later
  do       name all files of one chain in order; if it stays, don't trust the answer of the chain
",
);

const R14_4: &str = concat_sentences!(
    "14.4 NoFiles(K): ",
    R14_4,
    "
  rule     a session has the names of the project's files as an input. K is the index of the
           session, from 0
  example  a file that no check wrote has no records
  do       don't trust the answer of the chain, and begin one in a new folder
",
);

const R14_5: &str = concat_sentences!(
    "14.5 MissingSource(K, F): ",
    R14_5,
    "
  rule     a session has the bytes of each file that it names, as an input. K is the index of the
           session, and F that of the file's name among its names, from 0
  example  the record with the bytes of a source file was taken out of the session
  do       don't trust the answer of the chain, and begin one in a new folder
",
);

const R14_6: &str = concat_sentences!(
    "14.6 StraySource(K, N): ",
    R14_6,
    "
  rule     a session has the bytes of no other files than those that it names. K is the index of the
           session, N of its record, from 0
  example  a record with the bytes of another source file was put into the session
  do       don't trust the answer of the chain, and begin one in a new folder
",
);

const R14_7: &str = concat_sentences!(
    "14.7 GreenWithoutPast(K, N): ",
    R14_7,
    "
  rule     a green record is taken over from the session before, which has its key. K is the index
           of the session, N of its record, from 0
  example  a record of the first session is marked green
  do       don't trust the answer of the chain, and begin one in a new folder
",
);

const R14_8: &str = concat_sentences!(
    "14.8 OtherEdges(K, N): ",
    R14_8,
    "
  rule     a green record has the same edges as in the session before: the same keys, in this order.
           K is the index of the session, N of its record, from 0
  example  an edge of a green record was taken away
  do       don't trust the answer of the chain, and begin one in a new folder
",
);

const R14_9: &str = concat_sentences!(
    "14.9 GreenOverRed(K, N, I): ",
    R14_9,
    "
  rule     a record is green only if each of its edges has the same fingerprint as in the session
           before. K is the index of the session, N of its record, I of the edge, from 0
  example  a source file has changed, and what reads it is marked green in place of being run again
  do       don't trust the answer of the chain, and begin one in a new folder
",
);

const R14_10: &str = concat_sentences!(
    "14.10 GreenPrint(K, N): ",
    R14_10,
    "
  rule     a green record has the fingerprint that it has in the session before. K is the index of
           the session, N of its record, from 0
  example  a green record was given another result, with its fingerprint
  do       don't trust the answer of the chain, and begin one in a new folder
",
);

const R14_11: &str = concat_sentences!(
    "14.11 OtherRead(K, N, I): ",
    R14_11,
    "
  rule     an executed record has an edge for each key that is read when it is run again, in this
           order. K is the index of the session, N of its record, I of the edge, from 0
  example  an edge of an executed record was left out, or two changed places
  do       don't trust the answer of the chain, and begin one in a new folder
",
);

const R14_12: &str = concat_sentences!(
    "14.12 UnreadEdges(K, N): ",
    R14_12,
    "
  rule     an executed record has no other edges than the keys that are read when it is run again. K
           is the index of the session, N of its record, from 0
  example  an edge was added to an executed record
  do       don't trust the answer of the chain, and begin one in a new folder
",
);

const R14_13: &str = concat_sentences!(
    "14.13 OtherResult(K, N): ",
    R14_13,
    "
  rule     an executed record has the result that it comes to when it is run again. K is the index
           of the session, N of its record, from 0
  example  a result was changed, with its fingerprint, as to hide a diagnostic
  do       don't trust the answer of the chain, and begin one in a new folder
",
);

const R14_14: &str = concat_sentences!(
    "14.14 NoAnswer: ",
    R14_14,
    "
  rule     the last session has a record of the answer
  example  the answer was taken out of the last session
  do       don't trust the answer of the chain, and begin one in a new folder
",
);

const R14_15: &str = concat_sentences!(
    "14.15 SourcesDiffer: ",
    R14_15,
    "
  rule     if the files of a project are given, those of the last session are the same: their names,
           in this order, and their bytes
  example  a source file was changed after the last check
  do       check the files as they are now, and audit the chain with the session that this adds
",
);

const R14_17: &str = concat_sentences!(
    "14.17 GreenAcrossProfiles(K, N): ",
    R14_17,
    "
  rule     a record that goes by the profile, as that of CheckClass, isn't taken over from a session
           of the other profile. K is the index of the session, N of its record, from 0
  example  a session of profile 2 takes over a CheckClass of a session of profile 1 as green
  do       don't trust the answer of the chain, and begin one in a new folder
",
);

/// The numbers of refusals of a chain: its files.
pub(crate) const CHAIN_FILES_CODES: [&str; 6] = ["14.1", "14.2", "14.3", "14.4", "14.5", "14.6"];

/// Their texts, in the same order.
pub(crate) const CHAIN_FILES_TEXTS: [&str; 6] = [R14_1, R14_2, R14_3, R14_4, R14_5, R14_6];

/// The numbers of refusals of a chain: its records.
pub(crate) const CHAIN_RECORDS_CODES: [&str; 10] = [
    "14.7", "14.8", "14.9", "14.10", "14.11", "14.12", "14.13", "14.14", "14.15", "14.17",
];

/// Their texts, in the same order.
pub(crate) const CHAIN_RECORDS_TEXTS: [&str; 10] = [
    R14_7, R14_8, R14_9, R14_10, R14_11, R14_12, R14_13, R14_14, R14_15, R14_17,
];
