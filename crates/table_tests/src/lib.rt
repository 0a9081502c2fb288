//! Tests of sessions and tables, by the queries of MiniJava: the answers of each call, the histories of whole sessions and
//! what is reported of them, worked by hand from the rules.
#![tactic(auto)]

#[cfg(test)]
mod across;
#[cfg(test)]
mod calls;
#[cfg(test)]
mod driving;
#[cfg(test)]
mod histories;
#[cfg(test)]
mod records;
#[cfg(test)]
mod texts;
