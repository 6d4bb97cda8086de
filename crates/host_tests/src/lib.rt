//! Tests of calls that wait, of directories, of what entries owe, and of each kind of actor.
#![tactic(auto)]

#[cfg(test)]
mod actors;
#[cfg(test)]
mod calls;
#[cfg(test)]
mod directories;
#[cfg(test)]
mod owed;
