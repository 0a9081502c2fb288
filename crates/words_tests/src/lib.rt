//! Tests of the words that the program reads and prints: of the reader of the command line, by arguments that no shell gives among
//! them, and of what the codes mean.
#![tactic(auto)]

#[cfg(test)]
mod codes;
#[cfg(test)]
mod command_words;
