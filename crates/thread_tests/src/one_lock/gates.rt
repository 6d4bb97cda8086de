//! Gates that watch.
use journal::{Journal, Naming, Pass};
use outside::Gate;
use std::sync::atomic::{AtomicU64, Ordering};
use std::sync::{Mutex, Wait};

/// Looks at the journal in each call. It keeps two digits for a call: its place and one more, and the length that it saw.
#[derive(Drop)]
pub struct Watch<'a, J: Naming, R> {
    pub rt: &'a R,
    pub journal: &'a Journal<J>,
    pub pass: Mutex<Pass<J>>,
    pub calls: AtomicU64,
}

impl<J: Naming, R: Wait> Gate for Watch<'_, J, R> {
    fn at(&self, place: u32) {
        let front = {
            let mut pass = self.pass.lock(self.rt);
            self.journal.look(&mut pass)
        };
        let call = (u64::from(place) * 10 + 10).wrapping_add(front);
        let before = self.calls.load(Ordering::SeqCst);
        self.calls.store(
            before.wrapping_mul(100).wrapping_add(call),
            Ordering::SeqCst,
        );
    }
}
