//! The watch: called by its own calls, and by its senders and receivers, which are made in several ways.
use crate::form::{Answered, Door, Doors, Form, Places, heard, if_memory};
use esync_base::waitqueue::{Context, Hand, Poll, WakerList};
use esync_cells::watch::machine::{Await, Reading, WatchCall, WatchHeard};
use esync_cells::watch::{AnonRcv, Judge, Rcv, SharedWatch, Snd, WatchBehavior};
use esync_machine::primitive::Answer;
use esync_script::capacity::Capacity;
use esync_script::watch::{Adds, Below, WatchWords};
use std::alloc::{AllocError, Global};

/// A watch of values for any number of receivers: the calls that its senders and receivers don't have.
pub trait Watches: WatchBehavior<Value = u64, Waker = u64> {
    /// Returns a sender.
    fn sending(&self, door: Door) -> Snd<'_, Self>;

    /// Adds a receiver, if there is a place for it.
    fn counted(&self, door: Door) -> Option<Rcv<'_, Self>>;

    /// Returns a receiver that never waits.
    fn anon(&self, door: Door) -> AnonRcv<'_, Self>;

    fn version(&self) -> u64;

    /// Reads the value, if there is one.
    fn found(&self) -> Result<Option<u64>, AllocError>;

    /// Reads the value, if there is one that passes the test.
    fn found_of(&self, below: Below) -> Result<Option<u64>, AllocError>;
}

impl<L: WakerList<Waker = u64>, H: Hand<u64>, const K: usize> Watches
    for SharedWatch<u64, L, H, K> {
    fn sending(&self, door: Door) -> Snd<'_, Self> {
        match door {
            Door::Own => self.sender(),
            Door::Handle => self.sender().as_dyn(),
            Door::Dynamic => self.dyn_sender(),
        }
    }

    fn counted(&self, door: Door) -> Option<Rcv<'_, Self>> {
        match door {
            Door::Own => self.receiver(),
            Door::Handle => Some(self.receiver()?.as_dyn()),
            Door::Dynamic => self.dyn_receiver(),
        }
    }

    fn anon(&self, door: Door) -> AnonRcv<'_, Self> {
        match door {
            Door::Own => self.anon_receiver(),
            Door::Handle => self.anon_receiver().as_dyn(),
            Door::Dynamic => self.dyn_anon_receiver(),
        }
    }

    fn version(&self) -> u64 {
        self.get_msg_id()
    }

    fn found(&self) -> Result<Option<u64>, AllocError> {
        self.try_get()
    }

    fn found_of(&self, below: Below) -> Result<Option<u64>, AllocError> {
        self.try_get_and(|value| below.holds(value))
    }
}

/// A watch with its receivers, whose calls are made in each way in turn.
#[derive(Drop)]
pub struct Watching<'w, B: Watches> {
    watch: &'w B,
    receivers: Places<Receiver<'w, B>>,
    doors: Doors,
}

// A receiver that has a number.
#[derive(Drop)]
enum Receiver<'w, B: WatchBehavior> {
    Counted(Rcv<'w, B>),
    Anon(AnonRcv<'w, B>),
}

// What a receiver reads.
macro_rules! reads {
    ($receiver:ident, $read:ident) => {
        match $read {
            Reading::Get => $receiver.try_get(),
            Reading::Changed => $receiver.try_changed(),
            Reading::GetAnd(below) => $receiver.try_get_and(|value| below.holds(value)),
            Reading::ChangedAnd(below) => $receiver.try_changed_and(|value| below.holds(value)),
        }
    };
}

impl<'w, B: WatchBehavior<Value = u64, Waker = u64>> Receiver<'w, B> {
    fn read(&mut self, read: Reading<Below>) -> Result<Option<u64>, AllocError> {
        match self {
            Receiver::Counted(receiver) => reads!(receiver, read),
            Receiver::Anon(receiver) => reads!(receiver, read),
        }
    }

    fn contains_value(&self) -> bool {
        match self {
            Receiver::Counted(receiver) => receiver.contains_value(),
            Receiver::Anon(receiver) => receiver.contains_value(),
        }
    }
}

// Polls the future that a receiver's call returns. The future borrows the receiver, and so is made anew for each poll.
fn polls<B: WatchBehavior<Value = u64, Waker = u64>>(
    receiver: &mut Rcv<'_, B>,
    read: Reading<Below>,
    cx: &Context<u64>,
) -> Result<Poll<u64>, AllocError> {
    match read {
        Reading::Get => receiver.get().poll(cx),
        Reading::Changed => receiver.changed().poll(cx),
        Reading::GetAnd(below) => receiver.get_and(|value| below.holds(value)).poll(cx),
        Reading::ChangedAnd(below) => receiver.changed_and(|value| below.holds(value)).poll(cx),
    }
}

// Returns the answer to a read.
fn has_found(found: Result<Option<u64>, AllocError>) -> Answer<WatchHeard<u64>> {
    if_memory!(found, found => Answer::Gives(WatchHeard::Found(found)))
}

impl<'w, B: Watches> Form for Watching<'w, B> {
    type Words = WatchWords<Capacity>;

    type Held = Await<Below>;

    fn begin(&mut self, ask: Await<Below>) -> Option<Await<Below>> {
        match self.receivers.holder(ask.receiver)? {
            Receiver::Counted(_) => Some(ask),
            Receiver::Anon(_) => None,
        }
    }

    fn poll(&mut self, held: &mut Await<Below>, cx: &Context<u64>) -> Answered<Self> {
        let Receiver::Counted(receiver) = self.receivers.holder(held.receiver)? else {
            return None;
        };
        Some(if_memory!(polls(receiver, held.read, cx), polled =>
            heard!(polled, value => WatchHeard::Waited(value))))
    }

    fn call(
        &mut self,
        call: WatchCall<u64, Adds, Below>,
        _place: &mut Option<Await<Below>>,
    ) -> Answered<Self> {
        Some(match call {
            WatchCall::Receiver(h) => Answer::Gives(WatchHeard::Counted(self.join(h)?)),
            WatchCall::Anon(h) => {
                let place = self.receivers.free(h)?;
                *place = Some(Receiver::Anon(self.watch.anon(self.doors.next())));
                Answer::Done
            }
            WatchCall::Leave(h) => self.receivers.end(h)?,
            WatchCall::Clear => {
                self.sender().clear();
                Answer::Done
            }
            WatchCall::Send(value) => Answer::Gives(WatchHeard::Sent(self.sender().send(value))),
            WatchCall::Modify(change) => {
                Answer::Gives(WatchHeard::Modified(self.sender().send_modify(&change)))
            }
            WatchCall::ModifyIf(change) => {
                Answer::Gives(WatchHeard::Modified(self.sender().send_if_modified(&change)))
            }
            WatchCall::TryGet => has_found(self.try_get()),
            WatchCall::Read(h, read) => self.read(h, read)?,
            WatchCall::Id => Answer::Gives(WatchHeard::Version(self.watch.version())),
            WatchCall::Contains => Answer::Gives(WatchHeard::HasValue(self.contains_value())),
        })
    }

    fn leaves(call: &WatchCall<u64, Adds, Below>, held: &Await<Below>) -> bool {
        match call {
            WatchCall::Leave(h) => held.receiver == *h,
            _ => false,
        }
    }
}

impl<'w, B: Watches> Watching<'w, B> {
    /// Returns this watch without receivers, called in these ways.
    ///
    /// # Errors
    ///
    /// Returns the error if there is no memory.
    pub fn new(alloc: Global, watch: &'w B, doors: Doors) -> Result<Self, AllocError> {
        Ok(Watching {
            watch,
            receivers: Places::new(alloc)?,
            doors,
        })
    }

    fn sender(&mut self) -> Snd<'w, B> {
        let watch = self.watch;
        watch.sending(self.doors.next())
    }

    // Adds a counted receiver, if there is room for one more. Returns whether there is.
    fn join(&mut self, h: usize) -> Option<bool> {
        let place = self.receivers.free(h)?;
        match self.watch.counted(self.doors.next()) {
            Some(receiver) => {
                *place = Some(Receiver::Counted(receiver));
                Some(true)
            }
            None => Some(false),
        }
    }

    // Reads the value without a receiver.
    fn try_get(&mut self) -> Result<Option<u64>, AllocError> {
        match self.doors.next() {
            Door::Own => self.watch.found(),
            Door::Handle | Door::Dynamic => self.sender().try_get(),
        }
    }

    // Reads the value for the receiver at the number. A value that it found by a test is an answer only if a read
    // without a version finds it too.
    fn read(&mut self, h: usize, read: Reading<Below>) -> Answered<Self> {
        let found = self.receivers.holder(h)?.read(read);
        if let Reading::GetAnd(below) = read {
            if self.try_get_and(below) != found {
                return None;
            }
        }
        Some(has_found(found))
    }

    // Reads the value that passes the test without a receiver.
    fn try_get_and(&mut self, below: Below) -> Result<Option<u64>, AllocError> {
        match self.doors.next() {
            Door::Own => self.watch.found_of(below),
            Door::Handle | Door::Dynamic => self.sender().try_get_and(|value| below.holds(value)),
        }
    }

    fn contains_value(&mut self) -> bool {
        match self.doors.next() {
            Door::Own => self.watch.contains_value(),
            Door::Handle => self.sender().contains_value(),
            Door::Dynamic => match self.receivers.first() {
                Some(receiver) => receiver.contains_value(),
                None => self.watch.contains_value(),
            },
        }
    }
}
