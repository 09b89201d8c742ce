//! Messages with consecutive numbers, and how far each subscriber has read.
ghost use Rattle.std.specs.Prelude.{◌≡◌, true, false, ◌+◌, ◌-◌, ◌<◌, ◌≤◌, [], Some, None, length, IsTrue, replicate, slice_get, slice_index_or, IfOk, OnOk, OnErr};
ghost use Rattle.std.specs.Option.{option_copied};
ghost use Rattle.esync_log.specs.Log.{oldest, has_subscribers, last_number, published, with_room, is_last, settled, moved, is_live, position, ClonesAt, MayFailAt, Takes, IsRefused, Reads, caught, found};

use esync_base::extent::{Chosen, Fixed};
use esync_base::limited::Limit;
pub use held::{Held, Holds};
pub use positions::{Places, Positions};
use std::alloc::AllocError;
use std::fmt::{self, Debug};
use std::marker::{Model, PhantomData};
pub use store::{FixedLog, LogStore};
use thiserror::Error;

mod held;
mod kept;
mod positions;
mod store;

/// Why a message was not published. The message is in the error.
#[derive(Clone, Copy, Debug, PartialEq, Eq, Error)]
#[error_bound(T: Debug)]
pub enum TryPublishError<T> {
    /// As many messages are held as there is room for.
    #[error("the channel is full")]
    Full(T),
    /// The numbers of messages have run out.
    #[error("the numbers have run out")]
    Exhausted(T),
}

/// The numbers have run out, and nothing was published. The message is in the error.
#[derive(Clone, Copy, Debug, PartialEq, Eq, Error)]
#[error_bound(T: Debug)]
#[error("the numbers have run out")]
pub struct Exhausted<T>(pub T);

/// What a subscriber reads.
#[derive(Clone, Copy, Debug, PartialEq, Eq)]
pub enum WaitResult<T> {
    /// How many messages left the log before the subscriber read them.
    Lagged(u64),
    /// The next message.
    Message(T),
}

/// At most `CAP` messages, and at most `SUBS` subscribers, known by their places.
pub type Log<T, const CAP: usize, const SUBS: usize> = LogOver<
    Held<T, Fixed<CAP>, CAP>,
    Positions<Fixed<SUBS>, SUBS>,
>;

/// A log whose capacity and number of places are chosen when it is made: `B.limit` messages, even where `CAP` is greater,
/// and `S.limit` places for subscribers, even where `ROOM` is greater.
pub type LimitedLog<T, B, S, const CAP: usize, const ROOM: usize> = LogOver<
    Held<T, Chosen<B>, CAP>,
    Positions<Chosen<S>, ROOM>,
>;

/// Messages with their counts, and how far each subscriber has read, in any two parts.
#[derive_where(Debug; H: fmt::Debug, P: fmt::Debug)]
#[derive(Drop)]
pub struct LogOver<H: Holds, P: Places> {
    next: u64,
    subscribers: usize,
    // Names what a message borrows, which the checker looks for in the type of a field.
    #[derive_where(skip)]
    message: PhantomData<H::Message>,
    positions: P,
    held: H,
}

impl<H: Holds, P: Places> Model for LogOver<H, P> {
    ghost use Rattle.esync_log.specs.Log.{Log as Logged, log_code};
    ghost use Rattle.esync_log.specs.Counts.{IsLog};

    ghost Value = { Logged H.Message };

    ghost coded = { log_code H.Message.code };

    ghost view = { λ a. record { held = (H.held a.held).messages; next = a.next; positions = P.numbers a.positions } };

    ghost invariant = { λ a. IsLog H.capacity P.extent (H.held a.held).messages (H.held a.held).counts a.next (P.numbers a.positions) a.subscribers };
}

impl<T: Drop, B: Limit, S: Limit, const CAP: usize, const ROOM: usize> LimitedLog<
    T,
    B,
    S,
    CAP,
    ROOM,
> {
    /// Returns a log without messages and subscribers. Its first message gets the number `next`. Its capacity is the
    /// number that `B` stands for, from 1 to `CAP`, and the number of its places the one that `S` stands for, at most
    /// `ROOM`.
    pub fn new_at(capacity: usize, places: usize, next: u64) -> Self
        requires capacity { capacity ≡ B.limit }
        requires some { 1 ≤ capacity }
        requires at_most { capacity ≤ CAP }
        requires places { places ≡ S.limit }
        requires room { places ≤ ROOM }
        ensures { result ≡ record { held = []; next = next; positions = replicate S.limit None } }
    {
        let held = Held::new(Chosen::new(capacity));
        let positions = Positions::new(Chosen::new(places));
        LogOver::over(held, positions, next)
    }
}

impl<H: Holds, P: Places> LogOver<H, P>
where
    H::Message: Drop,
{
    /// Returns a log of two parts that are empty. Its first message gets the number `next`.
    pub fn over(held: H, positions: P, next: u64) -> Self
        requires messages { 1 ≤ H.capacity }
        requires held { H.held held ≡ record { messages = []; counts = [] } }
        requires positions { P.numbers positions ≡ replicate P.extent None }
        ensures { result ≡ record { held = []; next = next; positions = replicate P.extent None } }
    {
        LogOver {
            held,
            next,
            message: PhantomData,
            positions,
            subscribers: 0,
        }
    }

    /// Returns message `index`, counted from the oldest that is held. Returns `None` if no more than `index` messages are
    /// held.
    pub fn message(&self, index: usize) -> Option<&H::Message>
        ensures { option_copied result ≡ slice_get self.now.held index }
    {
        if index < self.held.len() {
            Some(self.held.message(index))
        } else {
            None
        }
    }

    /// Returns the number that each subscriber reads next, at its place.
    pub fn positions(&self) -> &[Option<u64>]
        ensures { result.now ≡ self.now.positions }
    {
        self.positions.as_slice()
    }

    /// Returns the number that the next message gets.
    pub fn next_number(&self) -> u64
        ensures { result ≡ self.now.next }
    {
        self.next
    }

    // The number of the oldest held message, or the next number if none is held.
    fn oldest(&self) -> u64
        ensures { result ≡ oldest self.now }
    {
        self.next - self.held.len() as u64
    }

    // The number that the subscriber at this place reads next.
    fn position(&self, place: usize) -> u64
        requires { IsTrue (is_live place self.now) }
        ensures value { result ≡ position place self.now }
        ensures live { slice_index_or self.now.positions place None ≡ Some result }
        ensures within { result ≤ self.now.next }
        ensures place { place < P.extent }
    {
        let Some(position) = self.positions.get(place) else {
            unreachable!()
        };
        position
    }

    // Moves the subscriber at the place to another position. At both positions it reads all held messages.
    fn lag_at(&mut self, place: usize, number: u64)
        requires live { IsTrue (is_live place self.old) }
        requires lags { position place self.old ≤ oldest self.old }
        requires within { number ≤ oldest self.old }
        ensures { self.new ≡ moved place number self.old }
    {
        self.positions.put(place, Some(number));
    }

    // Moves the subscriber at the place to the oldest message if it lags.
    fn catch_up(&mut self, place: usize)
        requires { IsTrue (is_live place self.old) }
        ensures state { self.new ≡ caught place self.old }
        ensures live { IsTrue (is_live place self.new) }
        ensures from { oldest self.new ≤ position place self.new }
    {
        let oldest = self.oldest();
        if self.position(place) < oldest {
            self.lag_at(place, oldest);
        }
    }

    // How many held messages are below the number: none if a subscriber at the number lags.
    fn first_unread(&self, number: u64) -> usize
        ensures { result ≡ number - oldest self.now }
    {
        number.saturating_sub(self.oldest()) as usize
    }

    // Appends a message for all subscribers.
    fn hold(&mut self, message: H::Message)
        requires room { length self.old.held < H.capacity }
        requires number { self.old.next < last_number }
        requires live { has_subscribers self.old ≡ true }
        ensures { self.new ≡ published message self.old }
    {
        self.held.push(message, self.subscribers);
        self.next += 1;
    }
}

impl<H: Holds, P: Places> LogOver<H, P>
where
    H::Message: Clone,
{
    // Drops the oldest message if the log is full.
    fn make_room(&mut self)
        ensures state { self.new ≡ with_room H.capacity self.old }
        ensures room { length self.new.held < H.capacity }
    {
        if self.is_full() {
            self.held.pop();
        }
    }

    // Whether only the subscriber at the place has still to read the message at the position.
    fn is_last(&self, place: usize, position: u64) -> bool
        requires live { slice_index_or self.now.positions place None ≡ Some position }
        requires from { oldest self.now ≤ position }
        requires held { position < self.now.next }
        ensures { result ≡ is_last place position self.now }
    {
        self.held.count((position - self.oldest()) as usize) == 1
    }

    // Takes the message at the position, which is the oldest, for its last reader.
    fn take_last(&mut self, place: usize, position: u64) -> H::Message
        requires live { slice_index_or self.old.positions place None ≡ Some position }
        requires from { oldest self.old ≤ position }
        requires held { position < self.old.next }
        requires last { IsTrue (is_last place position self.old) }
        ensures message { slice_get self.old.held (position - oldest self.old) ≡ Some result }
        ensures state { self.new ≡ settled (moved place (position + 1) self.old) }
    {
        let Some(message) = self.held.take_front() else {
            unreachable!()
        };
        self.positions.put(place, Some(position + 1));
        message
    }

    // Clones the message at the position for the subscriber at the place. The message stays for its other readers.
    fn take_clone(&mut self, place: usize, position: u64) -> Result<H::Message, AllocError>
        requires live { slice_index_or self.old.positions place None ≡ Some position }
        requires from { oldest self.old ≤ position }
        requires held { position < self.old.next }
        requires shared { is_last place position self.old ≡ false }
        ensures ok { IfOk result (λ given. ClonesAt H.Message.is_clone (position - oldest self.old) self.old.held given) }
        ensures state { OnOk result (self.new ≡ settled (moved place (position + 1) self.old)) }
        ensures refused { OnErr result (MayFailAt H.Message.is_infallible (position - oldest self.old) self.old.held) }
        ensures err { OnErr result (self.new ≡ self.old) }
    {
        let index = (position - self.oldest()) as usize;
        let message = self.held.message(index).clone()?;
        self.held.lower(index);
        self.positions.put(place, Some(position + 1));
        Ok(message)
    }

    // Reads the message at the position of the subscriber at this place.
    fn take(&mut self, place: usize, position: u64) -> Result<H::Message, AllocError>
        requires live { slice_index_or self.old.positions place None ≡ Some position }
        requires from { oldest self.old ≤ position }
        requires held { position < self.old.next }
        ensures ok { IfOk result (λ given. Takes H.Message.is_clone place position self.old given self.new) }
        ensures refused { OnErr result (IsRefused H.Message.is_infallible place position self.old) }
        ensures err { OnErr result (self.new ≡ self.old) }
    {
        if self.is_last(place, position) {
            Ok(self.take_last(place, position))
        } else {
            self.take_clone(place, position)
        }
    }

    // Reads for the subscriber at the place, which doesn't lag.
    fn take_next(&mut self, place: usize) -> Result<Option<H::Message>, AllocError>
        requires live { IsTrue (is_live place self.old) }
        requires from { oldest self.old ≤ position place self.old }
        ensures ok { IfOk result (λ answer. Reads H.Message.is_clone place self.old (found answer) self.new) }
        ensures refused { OnErr result (IsRefused H.Message.is_infallible place (position place self.old) self.old) }
        ensures err { OnErr result (self.new ≡ self.old) }
    {
        let position = self.position(place);
        if position == self.next_number() {
            return Ok(None);
        }
        let message = self.take(place, position)?;
        Ok(Some(message))
    }
}

impl<H: Holds, P: Places> LogStore for LogOver<H, P>
where
    H::Message: Clone,
{
    type Message = H::Message;

    ghost capacity = { H.capacity };

    ghost places = { P.extent };

    ghost log = { λ log. log };

    fn capacity(&self) -> usize {
        self.held.capacity()
    }

    fn len(&self) -> usize {
        self.held.len()
    }

    fn is_empty(&self) -> bool {
        self.held.is_empty()
    }

    fn is_full(&self) -> bool {
        self.held.len() >= self.held.capacity()
    }

    fn is_live(&self, place: usize) -> bool {
        self.positions.get(place).is_some()
    }

    fn available(&self, place: usize) -> u64 {
        match self.positions.get(place) {
            Some(position) => self.next - position,
            None => 0,
        }
    }

    fn reader_count(&self, index: usize) -> Option<usize> {
        let len = self.held.len();
        if index < len {
            Some(self.held.count(index))
        } else {
            None
        }
    }

    fn has_subscribers(&self) -> bool {
        self.subscribers > 0
    }

    fn join(&mut self) -> Option<usize> {
        let Some(place) = self.positions.free_place() else {
            return None;
        };
        self.positions.put(place, Some(self.next));
        self.subscribers += 1;
        Some(place)
    }

    fn leave(&mut self, place: usize) {
        let Some(position) = self.positions.get(place) else {
            unreachable!()
        };
        let from = self.first_unread(position);
        self.positions.put(place, None);
        self.subscribers -= 1;
        self.held.lower_from(from);
        self.held.free();
    }

    fn publish(&mut self, message: H::Message) -> Result<(), TryPublishError<H::Message>> {
        if !self.has_subscribers() {
            return Ok(());
        }
        if self.is_full() {
            return Err(TryPublishError::Full(message));
        }
        if self.next == u64::MAX {
            return Err(TryPublishError::Exhausted(message));
        }
        self.hold(message);
        Ok(())
    }

    fn publish_immediate(&mut self, message: H::Message) -> Result<(), Exhausted<H::Message>> {
        if !self.has_subscribers() {
            return Ok(());
        }
        if self.next == u64::MAX {
            return Err(Exhausted(message));
        }
        self.make_room();
        self.hold(message);
        Ok(())
    }

    fn clear(&mut self) {
        self.held.clear();
    }

    fn read(&mut self, place: usize) -> Result<Option<WaitResult<H::Message>>, AllocError> {
        let position = self.position(place);
        let oldest = self.oldest();
        if position < oldest {
            self.lag_at(place, oldest);
            return Ok(Some(WaitResult::Lagged(oldest - position)));
        }
        match self.take_next(place)? {
            Some(message) => Ok(Some(WaitResult::Message(message))),
            None => Ok(None),
        }
    }

    fn read_on(&mut self, place: usize) -> Result<Option<H::Message>, AllocError> {
        let position = self.position(place);
        let oldest = self.oldest();
        self.catch_up(place);
        match self.take_next(place) {
            Ok(answer) => Ok(answer),
            Err(error) => {
                if position < oldest {
                    self.lag_at(place, position);
                }
                Err(error)
            }
        }
    }
}

impl<T: Clone, const CAP: usize, const SUBS: usize> FixedLog for Log<T, CAP, SUBS> {
    fn new_at(next: u64) -> Self {
        LogOver::over(Held::new(Fixed {}), Positions::new(Fixed {}), next)
    }

    fn messages() -> usize {
        CAP
    }
}
