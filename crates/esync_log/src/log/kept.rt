//! A copy of a log as it is now.
use super::{Holds, LogOver, Places};
use esync_base::kept::Kept;
use std::alloc::AllocError;
use std::marker::PhantomData;

impl<H: Holds + Kept, P: Places + Kept> Kept for LogOver<H, P> {
    fn kept(&self) -> Result<Self, AllocError> {
        Ok(LogOver {
            held: self.held.kept()?,
            next: self.next,
            message: PhantomData,
            positions: self.positions.kept()?,
            subscribers: self.subscribers,
        })
    }
}
