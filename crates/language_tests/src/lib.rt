//! Tests of what MiniJava's grammar and static rules say of a text: of the lexer, the parser, members, types and diagnostics. Their
//! expected values are from the rules of the language and its worked examples.
#![tactic(auto)]

#[cfg(test)]
mod answers;
#[cfg(test)]
mod chains;
#[cfg(test)]
mod lexing;
#[cfg(test)]
mod made;
#[cfg(test)]
mod overrides;
#[cfg(test)]
mod parsing;
#[cfg(test)]
mod projects;
#[cfg(test)]
mod typing;
