//! Tests of the queries: expected reads and results are worked by hand from the rules, their bytes from the formats.
#![tactic(auto)]

#[cfg(test)]
mod answers;
#[cfg(test)]
mod bodies;
#[cfg(test)]
mod overrides;
#[cfg(test)]
mod projects;
#[cfg(test)]
mod tables;
#[cfg(test)]
mod texts;
