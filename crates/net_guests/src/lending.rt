//! How a guest's number goes to the clock's guest while that decides, and comes back.
ghost use Rattle.std.specs.Prelude.{◌≡◌, ◌==◌, ℕ, List, false};
ghost use Rattle.net_base.specs.declared.noted.Noted.{Noted};
ghost use Rattle.journal.specs.Tokens.{HoldsPass};
ghost use Rattle.net_locks.specs.Guests.{HandsOver};
ghost use Rattle.net_guests.specs.Lent.{IsAway, IsBack, with_sight};
ghost use Rattle.net_guests.specs.Visits.{IsComplete, IsWith, Visit};

use crate::bundle::Bundle;
use journal::{Journal, Naming, Pass};
use net_locks::{Placing, calendars_stay_known, guests_hand_over};

impl<J: Naming + Placing> Bundle<J> {
    /// The number of this caller goes to the clock's guest, with which it then is; who was with that is still.
    pub fn lend(&mut self, journal: &Journal<J>, clock: &mut Bundle<J>)
        requires complete { IsComplete J.world J.run.roster self.old }
        requires clock { IsComplete J.world J.run.roster clock.old }
        ensures away { IsAway J.world self.old.visit self.new }
        ensures lent { IsWith J.world J.run.roster self.old.visit clock.new.visit.sight }
        ensures others { (v : Visit) → IsWith J.world J.run.roster v clock.old.visit.sight
            → IsWith J.world J.run.roster v clock.new.visit.sight }
        ensures complete { IsComplete J.world J.run.roster clock.new }
        ensures same { clock.new.visit ≡ with_sight clock.old.visit clock.new.visit.sight }
    {
        calendars_stay_known();
        guests_hand_over();
        let caller = self.visitor.bearer.caller;
        let (from, to) = (
            &mut self.visitor.bearer.pass,
            &mut clock.visitor.bearer.pass,
        );
        hand_over(journal, from, to, caller);
    }

    /// The number comes back from the clock's guest, and the moment is that one's.
    pub fn take_back(&mut self, journal: &Journal<J>, clock: &mut Bundle<J>)
        requires away { (v : Visit) × IsAway J.world v self.old × IsWith J.world J.run.roster v clock.old.visit.sight }
        requires clock { IsComplete J.world J.run.roster clock.old }
        requires other { (clock.old.visit.caller == self.old.visit.caller) ≡ false }
        ensures complete { IsComplete J.world J.run.roster self.new }
        ensures back { IsBack self.old.visit clock.old.visit.now self.new.visit }
        ensures with_itself { (v : Visit) → IsAway J.world v self.old
            → IsWith J.world J.run.roster v clock.old.visit.sight
            → IsWith J.world J.run.roster v self.new.visit.sight }
        ensures others { (v : Visit) → (v.caller == self.old.visit.caller) ≡ false
            → IsWith J.world J.run.roster v clock.old.visit.sight
            → IsWith J.world J.run.roster v clock.new.visit.sight }
        ensures clock { IsComplete J.world J.run.roster clock.new }
        ensures same { clock.new.visit ≡ with_sight clock.old.visit clock.new.visit.sight }
        ensures seen { clock.new.visit.sight.seen ≡ clock.old.visit.sight.seen }
    {
        calendars_stay_known();
        guests_hand_over();
        let caller = self.visitor.bearer.caller;
        let (from, to) = (
            &mut clock.visitor.bearer.pass,
            &mut self.visitor.bearer.pass,
        );
        hand_over(journal, from, to, caller);
        self.visitor.bearer.now = clock.visitor.bearer.now;
        self.visitor.touched.forget(clock.visitor.calendar.at);
    }
}

// A caller's number goes from one pass to another.
fn hand_over<J: Naming>(journal: &Journal<J>, from: &mut Pass<J>, to: &mut Pass<J>, caller: u32)
    requires { (es : List (ℕ × Noted)) × HoldsPass from.old caller es }
    ensures { HandsOver J.run.roster caller from.old to.old from.new to.new }
{
    let moved = journal.split_pass(from, caller);
    journal.meet(to, moved);
}
