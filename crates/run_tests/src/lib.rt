//! Tests of runs: legal on any number of workers, and in a fixed order on one; as they are and with one entry changed; with tasks of one's own.
#![tactic(auto)]

#[cfg(test)]
mod changes;
#[cfg(test)]
mod imports;
#[cfg(test)]
mod random_worlds;
#[cfg(test)]
mod tasks;
