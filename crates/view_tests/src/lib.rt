//! Charts, steps and notes of small worlds, as whole texts.
#![tactic(auto)]

#[cfg(test)]
mod charts;
#[cfg(test)]
mod notes;
#[cfg(test)]
mod steps;
