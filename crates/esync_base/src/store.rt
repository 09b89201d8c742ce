//! Where a channel keeps its messages, and where a pipe keeps its bytes. A queue and a priority queue are two such
//! stores.
ghost use Rattle.std.specs.Prelude.{◌≡◌, ℕ, ◌-◌, ◌<◌, ◌≤◌, ◌++◌, [], List, length, min, take, drop, ◌↔◌, IsTrue, OnOk, OnErr, OnSome, IfSome, IfErr, IfNone};
ghost use Rattle.esync_base.specs.Keeping.{Keeping};
ghost use Rattle.esync_base.specs.Ring.{Ringed, slot};

/// A store of messages, of fixed capacity.
pub trait Store: Drop {
    type Message: Drop;

    /// The capacity, and which message leaves first.
    ghost keeping: { Keeping Self.Message };

    /// The messages in the store.
    ghost held: { Self → List Self.Message };

    /// Returns how many messages are in the store.
    fn len(&self) -> usize
        ensures value { result ≡ length (held self.now) }
        ensures within { result ≤ keeping.capacity };

    /// Returns how many messages the store has room for.
    fn capacity(&self) -> usize
        ensures { result ≡ keeping.capacity };

    /// Puts a message in. If the store is full, returns the message as the error, and the messages stay as they are.
    fn put(&mut self, message: Self::Message) -> Result<(), Self::Message>
        ensures room { OnOk result (length (held self.old) < keeping.capacity) }
        ensures ok { OnOk result (keeping.Puts (held self.old) message (held self.new)) }
        ensures full { OnErr result (keeping.capacity ≤ length (held self.old)) }
        ensures err { OnErr result (held self.new ≡ held self.old) }
        ensures returned { IfErr result (λ back. back ≡ message) };

    /// Takes the message that leaves first. Returns `None` if the store is empty.
    fn take(&mut self) -> Option<Self::Message>
        ensures some { IfSome result (λ message. keeping.Takes (held self.old) message (held self.new)) }
        ensures empty { IfNone result (held self.old ≡ []) }
        ensures none { IfNone result (held self.new ≡ []) };

    /// Drops all messages.
    fn clear(&mut self)
        ensures { held self.new ≡ [] };
}

/// A store of messages whose capacity stands in its type.
pub trait FixedStore: Store {
    /// Returns an empty store.
    fn new() -> Self
        ensures { Self.held result ≡ [] };

    /// Returns how many messages each store of this type has room for.
    fn places() -> usize
        ensures { result ≡ Self.keeping.capacity };
}

/// A store of bytes in a ring of places, of fixed capacity.
pub trait ByteStore: Drop {
    /// How many bytes the store has room for.
    ghost capacity: { ℕ };

    /// The bytes in the store, oldest first, and the place of the oldest.
    ghost ring: { Self → Ringed ℕ };

    /// Returns how many bytes are in the store.
    fn len(&self) -> usize
        ensures value { result ≡ length (ring self.now).items }
        ensures within { result ≤ capacity };

    /// Returns how many bytes the store has room for.
    fn capacity(&self) -> usize
        ensures { result ≡ capacity };

    /// Appends as many of the slice's bytes as there is room for, and returns how many.
    fn write(&mut self, from: &[u8]) -> usize
        ensures count { result ≡ min (length from.now) (capacity - length (ring self.old).items) }
        ensures items { (ring self.new).items ≡ (ring self.old).items ++ take result from.now }
        ensures front { (ring self.new).front ≡ (ring self.old).front }
        ensures within { length (ring self.new).items ≤ capacity };

    /// Takes the oldest bytes out into the slice, as many as there are and as the slice has room for. Returns how many.
    fn read(&mut self, to: &mut [u8]) -> usize
        ensures count { result ≡ min (length to.old) (length (ring self.old).items) }
        ensures bytes { to.new ≡ take result (ring self.old).items ++ drop result to.old }
        ensures items { (ring self.new).items ≡ drop result (ring self.old).items }
        ensures front { (ring self.new).front ≡ slot capacity (ring self.old).front result };

    /// Returns the oldest bytes, up to the wrap of the ring. They stay in the store. The slice is empty only if the
    /// store is.
    fn filled(&self) -> &[u8]
        ensures value { result.now ≡ take (capacity - (ring self.now).front) (ring self.now).items }
        ensures some { 0 < length (ring self.now).items → 0 < length result.now };

    /// Drops the `n` oldest bytes. The store has to hold at least `n`.
    fn consume(&mut self, n: usize)
        requires { n ≤ length (ring self.old).items }
        ensures items { (ring self.new).items ≡ drop n (ring self.old).items }
        ensures front { (ring self.new).front ≡ slot capacity (ring self.old).front n };

    /// Drops all bytes, and begins again at the first place.
    fn clear(&mut self)
        ensures items { (ring self.new).items ≡ [] }
        ensures front { (ring self.new).front ≡ 0 };
}

/// A store of bytes whose capacity stands in its type.
pub trait FixedBytes: ByteStore {
    /// Returns an empty store, which begins at the first place.
    fn new() -> Self
        ensures items { (Self.ring result).items ≡ [] }
        ensures front { (Self.ring result).front ≡ 0 };

    /// Returns how many bytes each store of this type has room for.
    fn places() -> usize
        ensures { result ≡ Self.capacity };
}
