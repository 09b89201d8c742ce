//! A numbered pub-sub channel as a stored state.
use super::{Events, Tables};
use esync_base::kept::Kept;
use esync_base::waitqueue::WakerList;
use esync_log::log::LogStore;
use std::alloc::AllocError;

impl<const NAMES: usize> Kept for Tables<NAMES> {
    fn kept(&self) -> Result<Self, AllocError> {
        Ok(Tables {
            subscribers: self.subscribers.kept()?,
            publishers: self.publishers.kept()?,
        })
    }
}

impl<G: LogStore + Kept, S: WakerList, P: WakerList<Waker = S::Waker>, const NAMES: usize> Kept
    for Events<G, S, P, NAMES> {
    fn kept(&self) -> Result<Self, AllocError> {
        Ok(Events {
            state: self.state.kept()?,
            tables: self.tables.kept()?,
        })
    }
}
