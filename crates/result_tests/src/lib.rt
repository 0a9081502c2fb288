//! Tests of keys, results and runs. Bytes, fingerprints and the order of keys are those of the formats and the worked examples;
//! expected reads and results are worked out by hand from the sample runner's meaning.
#![tactic(auto)]

#[cfg(test)]
mod borrowing;
#[cfg(test)]
mod copies;
#[cfg(test)]
mod items;
#[cfg(test)]
mod keeping;
#[cfg(test)]
mod keys;
#[cfg(test)]
mod reading;
#[cfg(test)]
mod running;
#[cfg(test)]
mod sealing;
#[cfg(test)]
mod values;
