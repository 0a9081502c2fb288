//! Tests of session files: their expected values are from the format and from another program.
#![tactic(auto)]

#[cfg(test)]
mod failing;
#[cfg(test)]
mod first;
#[cfg(test)]
mod forms;
#[cfg(test)]
mod reading;
#[cfg(test)]
mod threads;
#[cfg(test)]
mod writing;
