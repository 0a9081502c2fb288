//! The sentence of each code, which stands here alone: the table, the help and the pages take it from here.

/// `concat!`, in which a code stands for its sentence: `E306` for that of the diagnostic E306, `R14_9` for that of the refusal
/// 14.9. Each item is followed by a comma.
#[macro_export]
macro_rules! concat_sentences {
    (@ [$($done:tt)*]) => { concat!($($done)*) };
    (@ [$($done:tt)*] $text:literal, $($more:tt)*) => {
        $crate::concat_sentences!(@ [$($done)* $text,] $($more)*)
    };
    (@ [$($done:tt)*] E101, $($more:tt)*) => {
        $crate::concat_sentences!(@ [$($done)* "the file can't be parsed, or it is too long or too deep",] $($more)*)
    };
    (@ [$($done:tt)*] E102, $($more:tt)*) => {
        $crate::concat_sentences!(@ [$($done)* "no file that can be parsed has a main class",] $($more)*)
    };
    (@ [$($done:tt)*] E103, $($more:tt)*) => {
        $crate::concat_sentences!(@ [$($done)* "the file has a main class, and so has an earlier file",] $($more)*)
    };
    (@ [$($done:tt)*] E104, $($more:tt)*) => {
        $crate::concat_sentences!(@ [$($done)* "an earlier class has the same name",] $($more)*)
    };
    (@ [$($done:tt)*] E201, $($more:tt)*) => {
        $crate::concat_sentences!(@ [$($done)* "the class extends a name that no class has",] $($more)*)
    };
    (@ [$($done:tt)*] E202, $($more:tt)*) => {
        $crate::concat_sentences!(@ [$($done)* "the chain of superclasses runs into a cycle",] $($more)*)
    };
    (@ [$($done:tt)*] E203, $($more:tt)*) => {
        $crate::concat_sentences!(@ [$($done)* "a field of the same name stands before this one in the class",] $($more)*)
    };
    (@ [$($done:tt)*] E204, $($more:tt)*) => {
        $crate::concat_sentences!(@ [$($done)* "a method of the same name stands before this one in the class",] $($more)*)
    };
    (@ [$($done:tt)*] E205, $($more:tt)*) => {
        $crate::concat_sentences!(@ [$($done)* "the method overrides one with other parameter types or another return type",] $($more)*)
    };
    (@ [$($done:tt)*] E206, $($more:tt)*) => {
        $crate::concat_sentences!(@ [$($done)* "the declared type is a class that isn't declared",] $($more)*)
    };
    (@ [$($done:tt)*] E207, $($more:tt)*) => {
        $crate::concat_sentences!(@ [$($done)* "a parameter or a local of the same name stands before this one",] $($more)*)
    };
    (@ [$($done:tt)*] E301, $($more:tt)*) => {
        $crate::concat_sentences!(@ [$($done)* "an operand of ! or && isn't boolean",] $($more)*)
    };
    (@ [$($done:tt)*] E302, $($more:tt)*) => {
        $crate::concat_sentences!(@ [$($done)* "an operand of < isn't an int",] $($more)*)
    };
    (@ [$($done:tt)*] E303, $($more:tt)*) => {
        $crate::concat_sentences!(@ [$($done)* "the name is no variable in scope",] $($more)*)
    };
    (@ [$($done:tt)*] E304, $($more:tt)*) => {
        $crate::concat_sentences!(@ [$($done)* "an operand of +, - or * isn't an int",] $($more)*)
    };
    (@ [$($done:tt)*] E305, $($more:tt)*) => {
        $crate::concat_sentences!(@ [$($done)* "the class of a new object isn't declared",] $($more)*)
    };
    (@ [$($done:tt)*] E306, $($more:tt)*) => {
        $crate::concat_sentences!(@ [$($done)* "'this' stands in main",] $($more)*)
    };
    (@ [$($done:tt)*] E307, $($more:tt)*) => {
        $crate::concat_sentences!(@ [$($done)* "what is indexed isn't an array of ints",] $($more)*)
    };
    (@ [$($done:tt)*] E308, $($more:tt)*) => {
        $crate::concat_sentences!(@ [$($done)* "the index isn't an int",] $($more)*)
    };
    (@ [$($done:tt)*] E309, $($more:tt)*) => {
        $crate::concat_sentences!(@ [$($done)* "the length is asked of what isn't an array of ints",] $($more)*)
    };
    (@ [$($done:tt)*] E310, $($more:tt)*) => {
        $crate::concat_sentences!(@ [$($done)* "a method is called on what isn't an object",] $($more)*)
    };
    (@ [$($done:tt)*] E311, $($more:tt)*) => {
        $crate::concat_sentences!(@ [$($done)* "the object's class has no method of this name",] $($more)*)
    };
    (@ [$($done:tt)*] E312, $($more:tt)*) => {
        $crate::concat_sentences!(@ [$($done)* "the call has more or fewer arguments than the method has parameters",] $($more)*)
    };
    (@ [$($done:tt)*] E313, $($more:tt)*) => {
        $crate::concat_sentences!(@ [$($done)* "an argument isn't accepted by its parameter",] $($more)*)
    };
    (@ [$($done:tt)*] E314, $($more:tt)*) => {
        $crate::concat_sentences!(@ [$($done)* "the length of a new array isn't an int",] $($more)*)
    };
    (@ [$($done:tt)*] E315, $($more:tt)*) => {
        $crate::concat_sentences!(@ [$($done)* "the literal is over 2147483647",] $($more)*)
    };
    (@ [$($done:tt)*] E316, $($more:tt)*) => {
        $crate::concat_sentences!(@ [$($done)* "the condition isn't boolean",] $($more)*)
    };
    (@ [$($done:tt)*] E317, $($more:tt)*) => {
        $crate::concat_sentences!(@ [$($done)* "what is printed isn't an int",] $($more)*)
    };
    (@ [$($done:tt)*] E318, $($more:tt)*) => {
        $crate::concat_sentences!(@ [$($done)* "the value isn't accepted by what it is assigned to",] $($more)*)
    };
    (@ [$($done:tt)*] E319, $($more:tt)*) => {
        $crate::concat_sentences!(@ [$($done)* "the returned value isn't accepted by the return type",] $($more)*)
    };
    (@ [$($done:tt)*] R3_1, $($more:tt)*) => {
        $crate::concat_sentences!(@ [$($done)* "file N, counted from 0, has the name of an earlier one",] $($more)*)
    };
    (@ [$($done:tt)*] R3_2, $($more:tt)*) => {
        $crate::concat_sentences!(@ [$($done)* "there is no file",] $($more)*)
    };
    (@ [$($done:tt)*] R3_3, $($more:tt)*) => {
        $crate::concat_sentences!(@ [$($done)* "there are more than 4,096 files",] $($more)*)
    };
    (@ [$($done:tt)*] R3_4, $($more:tt)*) => {
        $crate::concat_sentences!(@ [$($done)* "the name of file N is empty or has more than 255 bytes",] $($more)*)
    };
    (@ [$($done:tt)*] R11_1, $($more:tt)*) => {
        $crate::concat_sentences!(@ [$($done)* "the file doesn't begin with MJRG",] $($more)*)
    };
    (@ [$($done:tt)*] R11_2, $($more:tt)*) => {
        $crate::concat_sentences!(@ [$($done)* "the file is of another version",] $($more)*)
    };
    (@ [$($done:tt)*] R11_3, $($more:tt)*) => {
        $crate::concat_sentences!(@ [$($done)* "the file ends too early",] $($more)*)
    };
    (@ [$($done:tt)*] R11_4, $($more:tt)*) => {
        $crate::concat_sentences!(@ [$($done)* "the SHA-256 at the file's end isn't that of the bytes before it",] $($more)*)
    };
    (@ [$($done:tt)*] R11_5, $($more:tt)*) => {
        $crate::concat_sentences!(@ [$($done)* "the key of record N isn't greater than the one before",] $($more)*)
    };
    (@ [$($done:tt)*] R11_6, $($more:tt)*) => {
        $crate::concat_sentences!(@ [$($done)* "edge J of record N leads to no record before it of lower rank, or is there twice",] $($more)*)
    };
    (@ [$($done:tt)*] R11_7, $($more:tt)*) => {
        $crate::concat_sentences!(@ [$($done)* "record N's result isn't spelled as one of its kind, or has another fingerprint",] $($more)*)
    };
    (@ [$($done:tt)*] R11_8, $($more:tt)*) => {
        $crate::concat_sentences!(@ [$($done)* "record N has the mark Input and is a query, or another mark and is an input",] $($more)*)
    };
    (@ [$($done:tt)*] R11_9, $($more:tt)*) => {
        $crate::concat_sentences!(@ [$($done)* "bytes stand behind the file's end",] $($more)*)
    };
    (@ [$($done:tt)*] R11_11, $($more:tt)*) => {
        $crate::concat_sentences!(@ [$($done)* "record N's kind or mark is unknown, or its names aren't those of its kind",] $($more)*)
    };
    (@ [$($done:tt)*] R11_12, $($more:tt)*) => {
        $crate::concat_sentences!(@ [$($done)* "the session's number is over 9,999",] $($more)*)
    };
    (@ [$($done:tt)*] R11_13, $($more:tt)*) => {
        $crate::concat_sentences!(@ [$($done)* "record N is green, and the session before has no such result for it",] $($more)*)
    };
    (@ [$($done:tt)*] R14_1, $($more:tt)*) => {
        $crate::concat_sentences!(@ [$($done)* "there is no file",] $($more)*)
    };
    (@ [$($done:tt)*] R14_2, $($more:tt)*) => {
        $crate::concat_sentences!(@ [$($done)* "file K is no session's file, and WHY is its refusal, 11.1 to 11.13",] $($more)*)
    };
    (@ [$($done:tt)*] R14_3, $($more:tt)*) => {
        $crate::concat_sentences!(@ [$($done)* "the number isn't K, or the link isn't the SHA-256 of the file before",] $($more)*)
    };
    (@ [$($done:tt)*] R14_4, $($more:tt)*) => {
        $crate::concat_sentences!(@ [$($done)* "session K doesn't have the names of its files",] $($more)*)
    };
    (@ [$($done:tt)*] R14_5, $($more:tt)*) => {
        $crate::concat_sentences!(@ [$($done)* "session K doesn't have the bytes of file F",] $($more)*)
    };
    (@ [$($done:tt)*] R14_6, $($more:tt)*) => {
        $crate::concat_sentences!(@ [$($done)* "record N of session K has the bytes of none of its files",] $($more)*)
    };
    (@ [$($done:tt)*] R14_7, $($more:tt)*) => {
        $crate::concat_sentences!(@ [$($done)* "record N is green, and the session before has no record of its key",] $($more)*)
    };
    (@ [$($done:tt)*] R14_8, $($more:tt)*) => {
        $crate::concat_sentences!(@ [$($done)* "record N is green, and has other edges than in the session before",] $($more)*)
    };
    (@ [$($done:tt)*] R14_9, $($more:tt)*) => {
        $crate::concat_sentences!(@ [$($done)* "record N is green, and its edge I is red: its fingerprint has changed",] $($more)*)
    };
    (@ [$($done:tt)*] R14_10, $($more:tt)*) => {
        $crate::concat_sentences!(@ [$($done)* "record N is green, and has another fingerprint than in the session before",] $($more)*)
    };
    (@ [$($done:tt)*] R14_11, $($more:tt)*) => {
        $crate::concat_sentences!(@ [$($done)* "record N, run again, reads another key than edge I, or one more",] $($more)*)
    };
    (@ [$($done:tt)*] R14_12, $($more:tt)*) => {
        $crate::concat_sentences!(@ [$($done)* "record N, run again, doesn't read all of its edges",] $($more)*)
    };
    (@ [$($done:tt)*] R14_13, $($more:tt)*) => {
        $crate::concat_sentences!(@ [$($done)* "record N, run again, has another result",] $($more)*)
    };
    (@ [$($done:tt)*] R14_14, $($more:tt)*) => {
        $crate::concat_sentences!(@ [$($done)* "the last session has no answer",] $($more)*)
    };
    (@ [$($done:tt)*] R14_15, $($more:tt)*) => {
        $crate::concat_sentences!(@ [$($done)* "the last session's files aren't those of the project",] $($more)*)
    };
    (@ [$($done:tt)*] R14_17, $($more:tt)*) => {
        $crate::concat_sentences!(@ [$($done)* "record N is green and goes by the profile, but the session before is of the other one",] $($more)*)
    };
    ($($all:tt)*) => { $crate::concat_sentences!(@ [] $($all)*) };
}
