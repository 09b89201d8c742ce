//! A log whose capacity and number of places aren't in its type, as a pub-sub channel uses it.
ghost use Rattle.std.specs.Prelude.{◌≡◌, ℕ, ◌+◌, ◌-◌, ◌<◌, ◌≤◌, ◌↔◌, not, nat_lt, [], Some, None, length, IsTrue, replicate, IfOk, OnErr};
ghost use Rattle.esync_log.specs.Counts.{readers_of};
ghost use Rattle.esync_log.specs.Log.{oldest, has_subscribers, left, cleared, is_live, position, Joins, Publishes, PublishesAtOnce, IsRefused, Reads, ReadsOn, caught};

use super::{Exhausted, TryPublishError, WaitResult};
use std::alloc::AllocError;

/// Messages with consecutive numbers, of which a fixed number can be held, and a fixed number of places for
/// subscribers.
pub trait LogStore {
    type Message: Clone;

    ghost use Rattle.std.specs.Prelude.{ℕ};
    ghost use Rattle.esync_log.specs.Log.{Log};

    /// How many messages there is room for.
    ghost capacity: { ℕ };

    /// How many subscribers there may be.
    ghost places: { ℕ };

    /// The held messages, the number of the next one, and how far each subscriber has read.
    ghost log: { Self → Log Self.Message };

    /// Returns how many messages there is room for.
    fn capacity(&self) -> usize
        ensures { result ≡ capacity };

    /// Returns how many messages are held.
    fn len(&self) -> usize
        ensures value { result ≡ length (log self.now).held }
        ensures within { result ≤ capacity }
        ensures numbered { length (log self.now).held ≤ (log self.now).next };

    /// Returns whether no message is held.
    fn is_empty(&self) -> bool
        ensures { IsTrue result ↔ ((log self.now).held ≡ []) };

    /// Returns whether as many messages are held as there is room for.
    fn is_full(&self) -> bool
        ensures answer { result ≡ not (nat_lt (length (log self.now).held) capacity) }
        ensures within { length (log self.now).held ≤ capacity };

    /// Returns whether a subscriber is at the place.
    fn is_live(&self, place: usize) -> bool
        ensures { result ≡ is_live place (log self.now) };

    /// Returns how many messages were published that the subscriber at the place hasn't read, whether held or not.
    fn available(&self, place: usize) -> u64
        requires { IsTrue (is_live place (log self.now)) }
        ensures { result ≡ (log self.now).next - position place (log self.now) };

    /// Returns how many subscribers have still to read message `index`, counted from the oldest that is held. Returns
    /// `None` if no more than `index` messages are held.
    fn reader_count(&self, index: usize) -> Option<usize>
        ensures held { index < length (log self.now).held → result ≡ Some (readers_of (oldest (log self.now) + index) (log self.now).positions) }
        ensures none { length (log self.now).held ≤ index → result ≡ None };

    /// Returns whether there are subscribers.
    fn has_subscribers(&self) -> bool
        ensures { result ≡ has_subscribers (log self.now) };

    /// Adds a subscriber at the least free place, and returns the place. The subscriber reads what is published from
    /// now on. Returns `None` if all places are taken.
    fn join(&mut self) -> Option<usize>
        ensures { Joins (log self.old) result (log self.new) };

    /// Removes the subscriber at the place. The messages in front that no subscriber has still to read leave with it.
    fn leave(&mut self, place: usize)
        requires { IsTrue (is_live place (log self.old)) }
        ensures { log self.new ≡ left place (log self.old) };

    /// Publishes a message for all subscribers. Without subscribers the message is dropped. After an error nothing has
    /// changed, and the message is in the error.
    fn publish(&mut self, message: Self::Message) -> Result<(), TryPublishError<Self::Message>>
        ensures { Publishes capacity message (log self.old) result (log self.new) };

    /// Publishes a message at once: a full log drops its oldest message. Without subscribers the message is dropped.
    /// After an error nothing has changed, and the message is in the error.
    fn publish_immediate(&mut self, message: Self::Message) -> Result<(), Exhausted<Self::Message>>
        ensures { PublishesAtOnce capacity message (log self.old) result (log self.new) };

    /// Drops all messages. A subscriber that hadn't read them lags.
    fn clear(&mut self)
        ensures { log self.new ≡ cleared (log self.old) };

    /// Reads for the subscriber at the place, and returns its next message or how many it missed. Returns `None` if it
    /// has read all. After a refused clone nothing has changed.
    fn read(&mut self, place: usize) -> Result<Option<WaitResult<Self::Message>>, AllocError>
        requires { IsTrue (is_live place (log self.old)) }
        ensures ok { IfOk result (λ answer. Reads Self.Message.is_clone place (log self.old) answer (log self.new)) }
        ensures refused { OnErr result (IsRefused Self.Message.is_infallible place (position place (log self.old)) (log self.old)) }
        ensures err { OnErr result (log self.new ≡ log self.old) }
        ensures place { place < places };

    /// Reads on for the subscriber at the place, and returns its next message. If it lags, it goes on from the oldest
    /// message. Returns `None` if it has read all. After a refused clone nothing has changed.
    fn read_on(&mut self, place: usize) -> Result<Option<Self::Message>, AllocError>
        requires { IsTrue (is_live place (log self.old)) }
        ensures ok { IfOk result (λ answer. ReadsOn Self.Message.is_clone place (log self.old) answer (log self.new)) }
        ensures refused { OnErr result (IsRefused Self.Message.is_infallible place (position place (caught place (log self.old))) (log self.old)) }
        ensures err { OnErr result (log self.new ≡ log self.old) }
        ensures place { place < places };
}

/// A log whose capacity stands in its type.
pub trait FixedLog: LogStore {
    /// Returns a log without messages and subscribers. Its first message gets the number `next`.
    fn new_at(next: u64) -> Self
        requires { 1 ≤ Self.capacity }
        ensures { Self.log result ≡ record { held = []; next = next; positions = replicate Self.places None } };

    /// Returns how many messages each log of this type has room for.
    fn messages() -> usize
        ensures { result ≡ Self.capacity };
}
