//! Tests of one lock and of one host, on threads and by guests in one thread.
#![tactic(auto)]

#[cfg(test)]
mod one_host;
#[cfg(test)]
mod one_lock;
