//! Tests of texts: databases with their searches, lines of a world, worlds as they are read, written and made, and histories with
//! their summaries, printed and read back.
#![tactic(auto)]

#[cfg(test)]
mod answers;
#[cfg(test)]
mod answers_of_sessions;
#[cfg(test)]
mod compared;
#[cfg(test)]
mod domains;
#[cfg(test)]
mod histories;
#[cfg(test)]
mod indexes;
#[cfg(test)]
mod lines;
#[cfg(test)]
mod made;
#[cfg(test)]
mod messages;
#[cfg(test)]
mod reading;
#[cfg(test)]
mod scripts_of_sessions;
#[cfg(test)]
mod searches;
#[cfg(test)]
mod session_texts;
#[cfg(test)]
mod texts;
#[cfg(test)]
mod transcripts;
#[cfg(test)]
mod worlds;
#[cfg(test)]
mod written;
