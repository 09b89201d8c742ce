//! The signal: called by its own calls, by futures that are made for each wait, and by one future that waits again and
//! again.
use crate::form::{Answered, Door, Doors, Form, heard};
use esync_base::waitqueue::{Context, Hand, Poll};
use esync_cells::signal::machine::{SignalCall, SignalHeard, Wait};
use esync_cells::signal::{Signal, SignalWait};
use esync_machine::primitive::Answer;
use esync_script::capacity::Capacity;
use esync_script::signal::SignalWords;

/// A signal whose waits are polled in each way in turn.
#[derive(Drop)]
pub struct Signaling<'s, H> {
    signal: &'s Signal<u64, u64, H>,
    // Polls once more: a future acts anew after it was ready.
    again: SignalWait<'s, u64, u64, H>,
    doors: Doors,
}

/// The way in which a wait is polled.
#[derive(Drop)]
pub enum Held<'s, H> {
    /// By the signal itself.
    Own,
    /// By a future of its own.
    Future(SignalWait<'s, u64, u64, H>),
    /// By the future that waits again and again.
    Again,
}

impl<'s, H: Hand<u64>> Form for Signaling<'s, H> {
    type Words = SignalWords<Capacity>;

    type Held = Held<'s, H>;

    fn begin(&mut self, _ask: Wait) -> Option<Self::Held> {
        Some(match self.doors.next() {
            Door::Own => Held::Own,
            Door::Handle => Held::Future(self.signal.wait()),
            Door::Dynamic => Held::Again,
        })
    }

    fn poll(&mut self, held: &mut Self::Held, cx: &Context<u64>) -> Answered<Self> {
        let polled = match held {
            Held::Own => self.signal.poll_wait(cx),
            Held::Future(future) => future.poll(cx),
            Held::Again => self.again.poll(cx),
        };
        Some(heard!(polled, value => SignalHeard::Waited(value)))
    }

    fn call(&mut self, call: SignalCall<u64>, _place: &mut Option<Self::Held>) -> Answered<Self> {
        Some(match call {
            SignalCall::Signal(value) => {
                self.signal.signal(value);
                Answer::Done
            }
            SignalCall::Reset => {
                self.signal.reset();
                Answer::Done
            }
            SignalCall::TryTake => Answer::Gives(SignalHeard::Taken(self.signal.try_take())),
            SignalCall::Signaled => Answer::Gives(SignalHeard::Signaled(self.signal.signaled())),
        })
    }
}

impl<'s, H: Hand<u64>> Signaling<'s, H> {
    /// Returns this signal, called in these ways.
    pub fn new(signal: &'s Signal<u64, u64, H>, doors: Doors) -> Self {
        Signaling {
            signal,
            again: signal.wait(),
            doors,
        }
    }
}
