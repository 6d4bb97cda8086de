//! What the workers of a phase tell one another without a lock round the net: who of them rests, and which actors had
//! an entry since one looked. Clauses say when workers are called and what each counts, and nothing of what others do
//! meanwhile: whoever is told wrong asks once more or waits.
#![tactic(auto)]

mod crew;
mod law;
mod marks;
mod pace;
#[cfg(test)]
mod tests;

pub use crew::{Crew, Shift};
pub use law::patience_grows;
pub use marks::{Awaited, Marks, Spot};
pub use pace::Pace;
