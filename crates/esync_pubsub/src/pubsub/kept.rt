//! A pub-sub channel as a stored state.
use super::PubSubOver;
use esync_base::kept::Kept;
use esync_base::waitqueue::WakerList;
use esync_log::log::LogStore;
use std::alloc::AllocError;
use std::marker::PhantomData;

impl<G: LogStore + Kept, S: WakerList, P: WakerList<Waker = S::Waker>> Kept
    for PubSubOver<G, S, P> {
    fn kept(&self) -> Result<Self, AllocError> {
        Ok(PubSubOver {
            publishers: self.publishers,
            subscriber_wakers: self.subscriber_wakers.kept()?,
            publisher_wakers: self.publisher_wakers.kept()?,
            message: PhantomData,
            log: self.log.kept()?,
        })
    }
}
