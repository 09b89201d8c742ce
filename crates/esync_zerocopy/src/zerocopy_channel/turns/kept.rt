//! The turns of a channel as a stored state.
use super::Turns;
use esync_base::kept::Kept;
use std::alloc::AllocError;

impl<W: Copy> Kept for Turns<W> {
    fn kept(&self) -> Result<Self, AllocError> {
        Ok(Turns {
            capacity: self.capacity,
            spare: self.spare,
            held: self.held,
            sending: self.sending,
            receiving: self.receiving,
            send_waker: self.send_waker.kept()?,
            receive_waker: self.receive_waker.kept()?,
        })
    }
}
