//! Primitives. A primitive sees one of its requests at a time, and no number.
ghost use Rattle.std.specs.Prelude.{◌≡◌, ◌≤◌, ℕ, [], Some, None, false, IfSome, ◌⊎◌};
ghost use Rattle.esync_base.specs.Registration.{IsAmong};
ghost use Rattle.esync_machine.specs.Rules.{Rules, IsApart, IsOwed, IsIdle, IdleIsPending, OnlyRequests, MakesNoRequests, Finds, ended};
ghost use Rattle.esync_machine.specs.Wakings.{Wakings, IsHanded, polled, called};

use esync_base::waitqueue::Wakes;

/// The answer to a command.
#[derive(Clone, Copy, Debug, PartialEq, Eq)]
pub enum Answer<A> {
    /// The command was done, and there is nothing to tell.
    Done,
    /// The request that was polled waits.
    Pending,
    /// The command names what isn't there. Nothing changed.
    NoSuch,
    /// There was no memory for a clone. Nothing changed.
    NoMemory,
    Gives(A),
}

/// The commands of a machine whose requests have numbers.
#[derive(Clone, Copy, Debug, PartialEq, Eq)]
pub enum Command<Q, W, C> {
    /// Makes a request at a free number, and doesn't poll it.
    Start(usize, Q),
    /// Polls the request with a waker.
    Poll(usize, W),
    /// Ends what stands at the number.
    End(usize),
    /// Another call of the primitive.
    Call(C),
}

/// The numbers that a call concerns.
#[derive(Clone, Copy, Debug, PartialEq, Eq)]
pub enum Reach {
    /// No number.
    Nobody,
    /// The number in the variant, with what stands there.
    Number(usize),
    /// The numbers of all requests of a subscriber or receiver that leaves: the call ends them first.
    Leavers,
}

/// The answer to a poll or a call, and what stands at the number afterwards.
#[derive(Drop)]
pub struct Turn<A, H> {
    pub answer: Answer<A>,
    pub place: Option<H>,
}

impl<A, H> Turn<A, H> {
    /// Returns a turn after which the request is over and its number free.
    pub fn over(heard: A) -> Self
        ensures answer { result.answer ≡ Answer.Gives heard }
        ensures place { result.place ≡ None }
    {
        Turn {
            answer: Answer::Gives(heard),
            place: None,
        }
    }

    /// Returns a turn after which the request waits.
    pub fn waits(held: H) -> Self
        ensures answer { result.answer ≡ Answer.Pending }
        ensures place { result.place ≡ Some held }
    {
        Turn {
            answer: Answer::Pending,
            place: Some(held),
        }
    }
}

/// A primitive with its wakers. It sees what stands at one number at a time: a request, or what a request became.
pub trait Primitive<const K: usize> {
    /// What a request asks for.
    type Ask: Drop;

    /// What stands at a number.
    type Held: Drop;

    /// A call that is no start, poll or end.
    type Call: Drop;

    type Heard;

    type Waker: Copy + Eq;

    /// The meaning of the primitive.
    ghost rules: { Rules Self.Ask Self.Held Self.Call Self.Heard };

    /// The object of the primitive, without the requests.
    ghost core: { Self → rules.Core };

    /// The table of wakes.
    ghost wakings: { Wakings rules.Core Self.Held Self.Call Self.Heard Self.Waker };

    /// Which wakers are registered where.
    ghost registrations: { Self → wakings.Registered };

    /// The greatest number of wakers that a step hands out.
    ghost most: { ℕ };

    /// The waker is registered where it will be handed out for the request, and the request is not due.
    ghost Owes: { Self → Self.Held → Self.Waker → Type 0 };

    /// What ties what stands at a number to the state.
    ghost Fits: { Self → Self.Held → Type 0 };

    /// What tells apart what stands at two numbers.
    ghost Apart: { Self.Held → Self.Held → Type 0 };

    /// Returns the request that is asked for, or `None` if `ask` names what isn't there.
    fn begin(&self, ask: Self::Ask) -> Option<Self::Held>
        ensures allowed { rules.begins (core self.now) ask result }
        ensures fits { IfSome result (λ held. Fits self.now held) }
        ensures others { (other : Self.Held) → Fits self.now other → IsApart Apart result other };

    /// Polls the request with the waker. Returns the answer, and what stands at the request's number afterwards.
    fn poll(
        &mut self,
        held: Self::Held,
        waker: Self::Waker,
        wakes: &mut Wakes<Self::Waker, K>,
    ) -> Turn<Self::Heard, Self::Held>
        requires empty { wakes.old ≡ [] }
        requires room { most ≤ K }
        requires fits { Fits self.old held }
        ensures allowed { rules.polls (core self.old) held result.answer (core self.new) result.place }
        ensures exact { IsHanded (polled wakings (core self.old) (registrations self.old) held waker result.answer result.place) wakes.new (registrations self.new) }
        ensures quiet { (rules.WakesItself → ⊥) → result.answer ≡ Answer.Pending → core self.new ≡ core self.old → result.place ≡ Some held → IsAmong Self.Waker.eq waker wakes.new → ⊥ }
        ensures registered { result.answer ≡ Answer.Pending → IsAmong Self.Waker.eq waker wakes.new ⊎ IsOwed Owes self.new result.place waker }
        ensures kept { (other : Self.Held) (v : Self.Waker) → Fits self.old other → Apart held other → Owes self.old other v → IsAmong Self.Waker.eq v wakes.new ⊎ Owes self.new other v }
        ensures fits { IfSome result.place (λ after. Fits self.new after) }
        ensures others { (other : Self.Held) → Fits self.old other → Apart held other → Fits self.new other × IsApart Apart result.place other };

    /// Ends what stands at a number. The number is free afterwards.
    fn end(&mut self, held: Self::Held, wakes: &mut Wakes<Self::Waker, K>)
        requires empty { wakes.old ≡ [] }
        requires room { most ≤ K }
        requires fits { Fits self.old held }
        ensures allowed { rules.ends (core self.old) held (core self.new) }
        ensures exact { IsHanded (wakings.ends (core self.old) (registrations self.old) held) wakes.new (registrations self.new) }
        ensures kept { (other : Self.Held) (v : Self.Waker) → Fits self.old other → Apart held other → Owes self.old other v → IsAmong Self.Waker.eq v wakes.new ⊎ Owes self.new other v }
        ensures others { (other : Self.Held) → Fits self.old other → Apart held other → Fits self.new other };

    /// Returns which numbers the call concerns.
    fn reach(call: &Self::Call) -> Reach
        ensures { result ≡ rules.reach call.now };

    /// Returns whether the call, which reaches `Leavers`, first ends what stands at this number.
    fn leaves(&self, call: &Self::Call, held: &Self::Held) -> bool
        ensures { result ≡ rules.leaves (core self.now) call.now held.now };

    /// Makes a call that is no start, poll or end. `place` is what stands at the number that the call concerns, and
    /// `None` if it concerns no number. Returns the answer, and what stands at the number afterwards.
    fn call(
        &mut self,
        call: Self::Call,
        place: &mut Option<Self::Held>,
        wakes: &mut Wakes<Self::Waker, K>,
    ) -> Answer<Self::Heard>
        requires empty { wakes.old ≡ [] }
        requires room { most ≤ K }
        requires finds { Finds (rules.reach call) place.old }
        requires fits { IfSome place.old (λ held. Fits self.old held) }
        ensures allowed { rules.calls (core self.old) call place.old result (core self.new) place.new }
        ensures exact { IsHanded (called wakings (core self.old) (registrations self.old) call place.old result) wakes.new (registrations self.new) }
        ensures own { (v : Self.Waker) → IsOwed Owes self.old place.old v → IsAmong Self.Waker.eq v wakes.new ⊎ IsOwed Owes self.new place.new v }
        ensures kept { (other : Self.Held) (v : Self.Waker) → Fits self.old other → IsApart Apart place.old other → ended rules (core self.old) (rules.reach call) call other ≡ false → Owes self.old other v → IsAmong Self.Waker.eq v wakes.new ⊎ Owes self.new other v }
        ensures fits { IfSome place.new (λ after. Fits self.new after) }
        ensures others { (other : Self.Held) → Fits self.old other → IsApart Apart place.old other → ended rules (core self.old) (rules.reach call) call other ≡ false → Fits self.new other × IsApart Apart place.new other };

    /// A law: if a request is owed a waker, a poll of it may now be answered Pending with nothing changed.
    ghost idle: { (m : Self) (h : Self.Held) (w : Self.Waker) → Fits m h → Owes m h w → IsIdle rules (core m) h };

    /// A law: if a poll may be answered Pending without a change, nothing else is allowed.
    ghost pending: { IdleIsPending rules };

    /// A law: only a request can be polled.
    ghost no_such: { OnlyRequests rules };

    ghost symmetric: { (h k : Self.Held) → Apart h k → Apart k h };

    /// A law: requests are made by `begin` alone.
    ghost no_requests: { MakesNoRequests rules };
}
