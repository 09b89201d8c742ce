//! The value that is set once, by its own calls and by its future.
use crate::form::{Answered, Door, Doors, Form, heard};
use esync_base::waitqueue::{Context, Hand, Poll};
use esync_cells::once_lock::OnceLock;
use esync_cells::once_lock::machine::{Get, OnceCall, OnceHeard};
use esync_machine::primitive::Answer;
use esync_script::capacity::Capacity;
use esync_script::once::OnceWords;
use std::mem;

/// A value that is set once. A request for it borrows nothing between two polls, since a call takes the value from the
/// lock itself.
#[derive(Drop)]
pub struct Once<H> {
    lock: OnceLock<u64, u64, H>,
    hand: H,
    doors: Doors,
}

impl<H: Hand<u64> + Copy> Form for Once<H> {
    type Words = OnceWords<Capacity>;

    type Held = Get;

    fn begin(&mut self, ask: Get) -> Option<Get> {
        Some(ask)
    }

    fn poll(&mut self, _held: &mut Get, cx: &Context<u64>) -> Answered<Self> {
        Some(match self.doors.next() {
            Door::Own => heard!(self.lock.poll_get(cx), value => OnceHeard::Got(*value)),
            Door::Handle => heard!(self.lock.get().poll(cx), value => OnceHeard::Got(*value)),
            Door::Dynamic => self.get_again(cx),
        })
    }

    fn call(&mut self, call: OnceCall<u64>, _place: &mut Option<Get>) -> Answered<Self> {
        Some(Answer::Gives(match call {
            OnceCall::TryGet => OnceHeard::Found(self.lock.try_get().copied()),
            OnceCall::Init(value) => OnceHeard::HasSet(self.lock.init(value)),
            OnceCall::GetOrInit(value) => OnceHeard::Shown(*self.lock.get_or_init(move || value)),
            OnceCall::Take => OnceHeard::Found(self.take()),
            OnceCall::IsSet => OnceHeard::IsSet(self.lock.is_set()),
        }))
    }
}

impl<H: Hand<u64> + Copy> Once<H> {
    /// Returns a lock without a value, with this hand, called in these ways.
    pub fn new(hand: H, doors: Doors) -> Self {
        Once {
            lock: OnceLock::new(hand),
            hand,
            doors,
        }
    }

    // Gives the value once more: a future acts anew after it was ready.
    fn get_again(&self, cx: &Context<u64>) -> Answer<OnceHeard<u64>> {
        let mut get = self.lock.get();
        match get.poll(cx) {
            Poll::Ready(_shown) => heard!(get.poll(cx), value => OnceHeard::Got(*value)),
            Poll::Pending => Answer::Pending,
        }
    }

    // Takes the value. A lock that was taken apart leaves a lock without a value.
    fn take(&mut self) -> Option<u64> {
        match self.doors.next() {
            Door::Own | Door::Handle => self.lock.take(),
            Door::Dynamic => { mem::replace(&mut self.lock, OnceLock::new(self.hand)).into_inner() }
        }
    }
}
