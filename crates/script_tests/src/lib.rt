//! Tests of paths and names, of control words, and of requests, steps and scripts.
#![tactic(auto)]

#[cfg(test)]
mod controls;
#[cfg(test)]
mod dialling;
#[cfg(test)]
mod holding;
#[cfg(test)]
mod players;
#[cfg(test)]
mod remotes;
#[cfg(test)]
mod requests;
#[cfg(test)]
mod scripts;
#[cfg(test)]
mod trees;
