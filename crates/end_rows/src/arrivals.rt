//! What a message that comes does to an IL end.
ghost use Rattle.std.specs.Prelude.{◌≡◌, OnOk};
ghost use Rattle.end_rows.specs.Arrivals as spec;

use crate::il::IlCount;
use net_base::{Cause, IlKind, IlMsg, IlState};
use std::alloc::AllocError;

fn is_sized(kind: IlKind, length: u64) -> bool
    ensures { result ≡ spec.is_length_of kind length }
{
    match kind {
        IlKind::Data => 0 < length && length <= 8192,
        IlKind::DataQuery => 0 < length && length <= 8192,
        _ => true,
    }
}

fn refuses(kind: IlKind, mark: u8) -> bool
    ensures { result ≡ spec.is_refusal kind mark }
{
    match kind {
        IlKind::Close => mark == 1,
        _ => false,
    }
}

impl IlCount {
    /// Takes a message that comes.
    pub fn arrive(&mut self, m: &IlMsg) -> Result<(), AllocError>
        ensures { OnOk result (self.new ≡ spec.counted_arrival m.now self.old) }
    {
        if !is_sized(m.kind, m.text.len() as u64) {
            return Ok(());
        }
        match self.state {
            IlState::Syncer => {
                self.at_syncer(m);
                Ok(())
            }
            IlState::Syncee => self.at_syncee(m),
            IlState::Established => self.at_established(m),
            IlState::Closing => {
                self.at_closing(m);
                Ok(())
            }
            IlState::Closed => Ok(()),
            IlState::Listening => Ok(()),
        }
    }

    fn at_syncer(&mut self, m: &IlMsg)
        ensures { self.new ≡ spec.counted_at_syncer m.now.kind m.now self.old }
    {
        match m.kind {
            IlKind::Sync => self.answered(m.id, m.ack),
            IlKind::Close => self.refused(m.spec, m.ack),
            _ => {}
        }
    }

    fn answered(&mut self, id: u32, ack: u32)
        ensures { self.new ≡ spec.sync_answered id ack self.old }
    {
        if ack == self.start {
            self.rstart = Some(id);
            self.state = IlState::Established;
        }
    }

    fn refused(&mut self, mark: u8, ack: u32)
        ensures { self.new ≡ spec.sync_refused mark ack self.old }
    {
        if mark == 1 && ack == self.start {
            self.close(Cause::Refused);
        }
    }

    fn at_syncee(&mut self, m: &IlMsg) -> Result<(), AllocError>
        ensures { OnOk result (self.new ≡ spec.counted_at_syncee m.now.kind m.now self.old) }
    {
        match m.kind {
            IlKind::Sync => Ok(()),
            _ => self.acknowledged(m),
        }
    }

    // The first message that acknowledges its sync.
    fn acknowledged(&mut self, m: &IlMsg) -> Result<(), AllocError>
        ensures { OnOk result (self.new ≡ spec.sync_acknowledged m.now self.old) }
    {
        if refuses(m.kind, m.spec) || m.ack != self.start {
            return Ok(());
        }
        self.state = IlState::Established;
        self.at_established(m)
    }

    fn at_established(&mut self, m: &IlMsg) -> Result<(), AllocError>
        ensures { OnOk result (self.new ≡ spec.counted_at_established m.now.kind m.now self.old) }
    {
        match m.kind {
            IlKind::Sync => Ok(()),
            IlKind::Data => self.take_data(m),
            IlKind::DataQuery => self.take_data(m),
            IlKind::Ack => {
                self.take_ack(m.ack);
                Ok(())
            }
            IlKind::Query => {
                self.take_ack(m.ack);
                Ok(())
            }
            IlKind::State => {
                self.take_ack(m.ack);
                Ok(())
            }
            IlKind::Close => {
                self.take_close(m);
                Ok(())
            }
        }
    }

    fn take_data(&mut self, m: &IlMsg) -> Result<(), AllocError>
        ensures { OnOk result (self.new ≡ spec.data_taken m.now self.old) }
    {
        self.take_ack(m.ack);
        self.accept(m.id, m.text.len() as u64)
    }

    // The id of the last message that was received in sequence.
    fn last_id(&self) -> u32
        ensures { result ≡ spec.last_id self.now }
    {
        let front = (self.received % 4_294_967_296) as u32;
        self.rstart.unwrap_or(0).wrapping_add(front)
    }

    // Whether a close comes after all messages.
    fn is_whole(&self, id: u32) -> bool
        ensures { result ≡ spec.is_whole id self.now }
    {
        id == self.last_id()
    }

    fn take_close(&mut self, m: &IlMsg)
        ensures { self.new ≡ spec.close_taken m.now self.old }
    {
        if m.spec != 0 {
            return;
        }
        let whole = self.is_whole(m.id);
        self.take_ack(m.ack);
        if whole {
            self.close(Cause::ByPeer);
        }
    }

    fn at_closing(&mut self, m: &IlMsg)
        ensures { self.new ≡ spec.counted_at_closing m.now.kind m.now self.old }
    {
        match m.kind {
            IlKind::Sync => {}
            IlKind::Close => self.closed_back(m),
            _ => self.take_ack(m.ack),
        }
    }

    // The other end answers its close. The cause stays.
    fn closed_back(&mut self, m: &IlMsg)
        ensures { self.new ≡ spec.close_answered m.now self.old }
    {
        if m.spec == 0 {
            self.take_ack(m.ack);
            self.state = IlState::Closed;
        }
    }
}
