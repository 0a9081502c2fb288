//! Tests of sessions by several workers, and of what fails: a worker, a call that is refused memory, a feed. Those of the modules
//! named `again` pass with any one allocation refused, and with none, so that each may be refused in turn. Expected values are
//! those of worked examples.
#![tactic(auto)]

#[cfg(test)]
mod audits_again;
#[cfg(test)]
mod changes;
#[cfg(test)]
mod containers_again;
#[cfg(test)]
mod counts;
#[cfg(test)]
mod crews;
#[cfg(test)]
mod feeds;
#[cfg(test)]
mod sessions_again;
#[cfg(test)]
mod tables_again;
