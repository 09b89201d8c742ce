//! The watch as a machine that takes commands.
ghost use Rattle.std.specs.Prelude.{◌≡◌, ℕ, ◌+◌, ◌<◌, ◌≤◌, ◌++◌, List, Option, slice_set, [], None, Some, true, false, length, nat_lt, max, IfOk, OnErr};
ghost use Rattle.std.proofs.Math.ListN.{replicate};
ghost use Rattle.esync_base.specs.Registration.{registered_if, displaced_if};
ghost use Rattle.esync_machine.specs.Names.{is_free, counted};
ghost use Rattle.esync_machine.specs.Numbers.{at_number};
ghost use Rattle.esync_machine.specs.Object.{GoodRunOver};
ghost use Rattle.esync_machine.specs.Wakings.{IsHanded, polled as poll_handed, called};
ghost use Rattle.esync_cells.specs.Watch.{fresh, Answers, seen_after, polled, waiter_where_pending};
ghost use Rattle.esync_cells.specs.Receivers.{count, is_counted, seen_at, with_seen};
ghost use Rattle.esync_cells.specs.WatchRules.{watch_rules, watch_wakings, watch_of, shows, marks, Polls, Calls, Joins, JoinsAnon, Leaves, TriesGet, Reads, Sends, Modifies, IsReceiving, answer_hands};
ghost use Rattle.esync_cells.specs.WatchNews.{TellsOnce};

use super::{Change, Exhausted, Judge, WatchOver};
use esync_base::kept::Kept;
use esync_base::waitqueue::{Context, FixedList, Poll, Registered, WakerList, Wakes};
use esync_machine::names::Names;
use esync_machine::primitive::{Answer, Command, Primitive, Reach, Turn};
use esync_machine::requests::Requests;
use esync_machine::run::{Reply, run};
use std::alloc::{AllocError, Global};
use std::fmt;
use std::marker::{Model, PhantomData};

/// A receiver: whether it is counted, and the version that it has seen.
#[derive(Clone, Copy, Debug, PartialEq, Eq)]
pub struct Seen {
    pub is_counted: bool,
    pub version: u64,
}

/// What a receiver reads of a watch.
#[derive(Clone, Copy, Debug, PartialEq, Eq)]
pub enum Reading<J> {
    /// The value.
    Get,
    /// The value, if its version is newer than the one that the receiver has seen.
    Changed,
    /// The value, if it passes the test.
    GetAnd(J),
    /// The value, if it passes the test and its version is newer than the one that the receiver has seen.
    ChangedAnd(J),
}

/// A request of the counted receiver at a number, for what it reads.
#[derive(Clone, Copy, Debug, PartialEq, Eq)]
pub struct Await<J> {
    pub receiver: usize,
    pub read: Reading<J>,
}

/// The calls of a watch that are no start, poll or end.
#[derive(Clone, Copy, Debug, PartialEq, Eq)]
pub enum WatchCall<T, C, J> {
    /// Makes a counted receiver at a free number, if there is room for one more.
    Receiver(usize),
    /// Makes an anonymous receiver at a free number.
    Anon(usize),
    /// Ends the receiver at the number, and all its requests.
    Leave(usize),
    /// Drops the value.
    Clear,
    Send(T),
    /// Changes the value and sends it.
    Modify(C),
    /// Changes the value, and sends it if the change answers that there is another value.
    ModifyIf(C),
    /// Reads the value for no receiver.
    TryGet,
    /// Reads for the receiver at the number.
    Read(usize, Reading<J>),
    /// Asks for the version.
    Id,
    /// Asks whether there is a value.
    Contains,
}

/// The answers of a watch.
#[derive(Clone, Copy, Debug, PartialEq, Eq)]
pub enum WatchHeard<T> {
    /// The value that the request waited for.
    Waited(T),
    /// Whether there was room for one more counted receiver.
    Counted(bool),
    /// Whether the value was sent.
    Sent(Result<(), Exhausted<T>>),
    /// Whether the change was made.
    Modified(Result<(), Exhausted<()>>),
    /// What a read found.
    Found(Option<T>),
    Version(u64),
    HasValue(bool),
}

impl<T: Clone, L: WakerList> WatchOver<T, L> {
    // Whether the value, if there is one, is shown to a receiver that reads this and has seen that version.
    fn shows<J: Judge<T>>(&self, read: &Reading<J>, seen: u64) -> bool
        ensures { result ≡ shows J.passes self.now.value self.now.version seen read.now }
    {
        match read {
            Reading::Get => true,
            Reading::Changed => self.is_newer(seen),
            Reading::GetAnd(judge) => self.judged(judge),
            Reading::ChangedAnd(judge) => self.judged_newer(judge, seen),
        }
    }

    // Whether a read of this marks the version as seen even if it finds nothing.
    fn marks<J>(&self, read: &Reading<J>, seen: u64) -> bool
        ensures { result ≡ marks self.now.version seen read.now }
    {
        match read {
            Reading::Get => true,
            Reading::Changed => self.is_newer(seen),
            Reading::GetAnd(_) | Reading::ChangedAnd(_) => false,
        }
    }
}

// Counts one receiver less, if the one that leaves is counted.
fn drop_counted<T: Drop, L: WakerList>(state: &mut WatchOver<T, L>, is_counted: bool)
    requires { is_counted ≡ true → 1 ≤ state.old.receivers }
    ensures state { state.new ≡ record state.old { receivers = state.new.receivers } }
    ensures count { state.old.receivers ≡ counted is_counted state.new.receivers }
{
    if is_counted {
        state.drop_receiver();
    }
}

/// A watch with its receivers, at the numbers below `NAMES`.
#[derive_where(Debug; T: fmt::Debug + Drop, L: fmt::Debug)]
#[derive(Drop)]
pub struct Watched<T, L: WakerList, C, J, const NAMES: usize> {
    state: WatchOver<T, L>,
    receivers: Names<Seen, NAMES>,
    change: PhantomData<C>,
    judge: PhantomData<J>,
}

impl<T, L: WakerList, C, J, const NAMES: usize> Model for Watched<T, L, C, J, NAMES> {
    ghost use Rattle.esync_cells.specs.Receivers.{Followed, followed_code, IsCounted};

    ghost Value = { Followed T L.Waker };

    ghost coded = { followed_code T.code L.Waker.code };

    ghost view = { λ a. record { state = a.state; receivers = a.receivers } };

    ghost invariant = { λ a. IsCounted NAMES a.state.receivers a.receivers };
}

impl<T, L: WakerList, C, J, const NAMES: usize> Registered for Watched<T, L, C, J, NAMES> {
    type Waker = L::Waker;

    ghost use Rattle.esync_base.specs.Standing.{at_one};

    ghost at = { λ m. at_one m.state.waiters };

    fn registered(&self, place: usize, i: usize) -> Option<L::Waker> {
        self.state.registered(place, i)
    }
}

impl<T: Copy, L: WakerList, C: Drop, J: Drop, const NAMES: usize> Kept
    for Watched<T, L, C, J, NAMES> {
    fn kept(&self) -> Result<Self, AllocError> {
        Ok(Watched {
            state: self.state.kept()?,
            receivers: self.receivers.kept()?,
            change: PhantomData,
            judge: PhantomData,
        })
    }
}

impl<
    T: Clone + Drop,
    L: FixedList,
    C: Change<T> + Drop,
    J: Judge<T> + Drop,
    const NAMES: usize,
> Watched<T, L, C, J, NAMES> {
    /// Returns a watch without receivers and without a value, at version 0.
    pub fn new() -> Self
        ensures state { result.state ≡ fresh None 0 }
        ensures receivers { result.receivers ≡ replicate NAMES None }
    {
        Watched::with_state(WatchOver::new())
    }

    /// Returns a watch without receivers, with the value at version 0, which is news to no receiver.
    pub fn new_with(value: T) -> Self
        ensures state { result.state ≡ fresh (Some value) 0 }
        ensures receivers { result.receivers ≡ replicate NAMES None }
    {
        Watched::with_state(WatchOver::new_with(value))
    }

    /// Returns a watch without receivers and without a value, at the version.
    pub fn new_at(version: u64) -> Self
        ensures state { result.state ≡ fresh None version }
        ensures receivers { result.receivers ≡ replicate NAMES None }
    {
        Watched::with_state(WatchOver::new_at(version))
    }
}

impl<
    T: Clone + Drop,
    L: WakerList,
    C: Change<T> + Drop,
    J: Judge<T> + Drop,
    const NAMES: usize,
> Watched<T, L, C, J, NAMES> {
    // The version that the receiver at the number has seen, or 0 if no receiver is there.
    fn seen_at(&self, h: usize) -> u64
        ensures { result ≡ seen_at self.now.receivers h }
    {
        match self.receivers.get(h) {
            Some(receiver) => receiver.version,
            None => 0,
        }
    }

    // Marks the version as seen by the receiver at the number, if one is there.
    fn mark(&mut self, h: usize, version: u64)
        ensures { self.new ≡ record self.old { receivers = with_seen h version self.old.receivers } }
    {
        if let Some(receiver) = self.receivers.get(h) {
            let marked = Seen {
                is_counted: receiver.is_counted,
                version,
            };
            self.receivers.put(h, Some(marked));
        }
    }

    /// Returns a watch without receivers over this list, in which no waker may be, and with the value at the version, if
    /// one is given.
    pub fn over(list: L, value: Option<T>, version: u64) -> Self
        requires { L.wakers list ≡ [] }
        ensures state { result.state ≡ fresh value version }
        ensures receivers { result.receivers ≡ replicate NAMES None }
    {
        Watched::with_state(WatchOver::over(list, value, version))
    }

    /// Returns the watch's state by reference: the latest value, its version, and the registered wakers.
    pub fn state(&self) -> &WatchOver<T, L>
        ensures { result.now ≡ self.now.state }
    {
        &self.state
    }

    /// Returns the receiver at each number.
    pub fn receivers(&self) -> &[Option<Seen>]
        ensures { result.now ≡ self.now.receivers }
    {
        self.receivers.as_slice()
    }

    // A watch without receivers in this state, in which no receiver is counted.
    fn with_state(state: WatchOver<T, L>) -> Self
        requires { state.receivers ≡ 0 }
        ensures state { result.state ≡ state }
        ensures receivers { result.receivers ≡ replicate NAMES None }
    {
        Watched {
            state,
            receivers: Names::new(),
            change: PhantomData,
            judge: PhantomData,
        }
    }

    // Whether a counted receiver has the number.
    fn is_counted(&self, h: usize) -> bool
        ensures { result ≡ is_counted (at_number self.now.receivers h) }
    {
        match self.receivers.get(h) {
            Some(receiver) => receiver.is_counted,
            None => false,
        }
    }

    // Does nothing, and says in its contract: if a receiver is counted, there is a place for a waker.
    fn has_place(&self, h: usize)
        requires { is_counted (at_number self.now.receivers h) ≡ true }
        ensures { 1 ≤ L.room }
    {
        let _counted = self.state.receivers();
        let _receiver = self.receivers.get(h);
    }

    // What a poll does.
    fn turn<const K: usize>(
        &mut self,
        held: Await<J>,
        cx: &Context<L::Waker>,
        wakes: &mut Wakes<L::Waker, K>,
    ) -> Turn<WatchHeard<T>, Await<J>>
        requires empty { wakes.old ≡ [] }
        requires room { L.room ≤ K }
        requires fits { IsReceiving (watch_of self.old) held }
        ensures allowed { Polls T.is_clone T.is_infallible J.passes (watch_of self.old) held result.answer (watch_of self.new) result.place }
        ensures exact { IsHanded (poll_handed (watch_wakings L.Waker.eq L.room C.tells) (watch_of self.old) self.old.state.waiters held cx.now result.answer result.place) wakes.new self.new.state.waiters }
    {
        self.has_place(held.receiver);
        let mut seen = self.seen_at(held.receiver);
        let shows = self.state.shows(&held.read, seen);
        match self.state.poll(shows, &mut seen, cx, wakes) {
            Ok(Poll::Ready(value)) => {
                self.mark(held.receiver, seen);
                Turn::over(WatchHeard::Waited(value))
            }
            Ok(Poll::Pending) => Turn::waits(held),
            Err(AllocError) => Turn {
                answer: Answer::NoMemory,
                place: Some(held),
            },
        }
    }

    // Makes a counted receiver at the number.
    fn join(&mut self, h: usize) -> Answer<WatchHeard<T>>
        ensures allowed { Joins (is_free h self.old.receivers) (nat_lt (count self.old.receivers) L.room) h (watch_of self.old) result (watch_of self.new) }
        ensures waiters { self.new.state.waiters ≡ self.old.state.waiters }
    {
        if !self.receivers.is_free(h) {
            return Answer::NoSuch;
        }
        if !self.state.add_receiver() {
            return Answer::Gives(WatchHeard::Counted(false));
        }
        let receiver = Seen {
            is_counted: true,
            version: 0,
        };
        self.receivers.put(h, Some(receiver));
        Answer::Gives(WatchHeard::Counted(true))
    }

    // Makes an anonymous receiver at the number.
    fn join_anon(&mut self, h: usize) -> Answer<WatchHeard<T>>
        ensures allowed { JoinsAnon (is_free h self.old.receivers) h (watch_of self.old) result (watch_of self.new) }
        ensures waiters { self.new.state.waiters ≡ self.old.state.waiters }
    {
        if !self.receivers.is_free(h) {
            return Answer::NoSuch;
        }
        let receiver = Seen {
            is_counted: false,
            version: 0,
        };
        self.receivers.put(h, Some(receiver));
        Answer::Done
    }

    // Ends the receiver at the number.
    fn leave(&mut self, h: usize) -> Answer<WatchHeard<T>>
        ensures allowed { Leaves (at_number self.old.receivers h) h (watch_of self.old) result (watch_of self.new) }
        ensures waiters { self.new.state.waiters ≡ self.old.state.waiters }
    {
        let Some(receiver) = self.receivers.get(h) else {
            return Answer::NoSuch;
        };
        drop_counted(&mut self.state, receiver.is_counted);
        self.receivers.put(h, None);
        Answer::Done
    }

    // Reads the value for no receiver.
    fn try_get(&self) -> Answer<WatchHeard<T>>
        ensures { TriesGet T.is_clone T.is_infallible (watch_of self.now) result (watch_of self.now) }
    {
        let mut seen = 0;
        match self.state.try_get(&mut seen) {
            Ok(found) => Answer::Gives(WatchHeard::Found(found)),
            Err(AllocError) => Answer::NoMemory,
        }
    }

    // Reads for the receiver at the number.
    fn read(&mut self, h: usize, read: &Reading<J>) -> Answer<WatchHeard<T>>
        ensures allowed { Reads T.is_clone T.is_infallible J.passes (at_number self.old.receivers h) h read.now (watch_of self.old) result (watch_of self.new) }
        ensures waiters { self.new.state.waiters ≡ self.old.state.waiters }
    {
        let Some(receiver) = self.receivers.get(h) else {
            return Answer::NoSuch;
        };
        let mut seen = receiver.version;
        let (shows, marks) = (self.state.shows(read, seen), self.state.marks(read, seen));
        match self.state.read(shows, marks, &mut seen) {
            Ok(found) => {
                self.mark(h, seen);
                Answer::Gives(WatchHeard::Found(found))
            }
            Err(AllocError) => Answer::NoMemory,
        }
    }

    // What a call that puts a value does.
    fn send<const K: usize>(
        &mut self,
        value: T,
        wakes: &mut Wakes<L::Waker, K>,
    ) -> Answer<WatchHeard<T>>
        requires empty { wakes.old ≡ [] }
        requires room { L.room ≤ K }
        ensures allowed { Sends value (watch_of self.old) result (watch_of self.new) }
        ensures exact { IsHanded (answer_hands true result self.old.state.waiters) wakes.new self.new.state.waiters }
    {
        Answer::Gives(WatchHeard::Sent(self.state.send(value, wakes)))
    }

    // What a call that changes the value does.
    fn modify<const K: usize>(
        &mut self,
        change: &C,
        wakes: &mut Wakes<L::Waker, K>,
    ) -> Answer<WatchHeard<T>>
        requires empty { wakes.old ≡ [] }
        requires room { L.room ≤ K }
        ensures allowed { Modifies (C.changed change.now self.old.state.value) true (watch_of self.old) result (watch_of self.new) }
        ensures exact { IsHanded (answer_hands true result self.old.state.waiters) wakes.new self.new.state.waiters }
    {
        Answer::Gives(WatchHeard::Modified(self.state.send_modify(change, wakes)))
    }

    // What a call does that sends the value only if the change answers that there is another one.
    fn modify_if<const K: usize>(
        &mut self,
        change: &C,
        wakes: &mut Wakes<L::Waker, K>,
    ) -> Answer<WatchHeard<T>>
        requires empty { wakes.old ≡ [] }
        requires room { L.room ≤ K }
        ensures allowed { Modifies (C.changed change.now self.old.state.value) (C.tells change.now self.old.state.value) (watch_of self.old) result (watch_of self.new) }
        ensures exact { IsHanded (answer_hands (C.tells change.now self.old.state.value) result self.old.state.waiters) wakes.new self.new.state.waiters }
    {
        Answer::Gives(WatchHeard::Modified(self.state.send_if_modified(change, wakes)))
    }

    // What a call does.
    fn perform<const K: usize>(
        &mut self,
        call: WatchCall<T, C, J>,
        wakes: &mut Wakes<L::Waker, K>,
    ) -> Answer<WatchHeard<T>>
        requires empty { wakes.old ≡ [] }
        requires room { L.room ≤ K }
        ensures allowed { Calls L.room T.is_clone T.is_infallible C.changed C.tells J.passes (watch_of self.old) call result (watch_of self.new) }
        ensures exact { IsHanded (called (watch_wakings L.Waker.eq L.room C.tells) (watch_of self.old) self.old.state.waiters call None result) wakes.new self.new.state.waiters }
    {
        match call {
            WatchCall::Receiver(h) => self.join(h),
            WatchCall::Anon(h) => self.join_anon(h),
            WatchCall::Leave(h) => self.leave(h),
            WatchCall::Clear => {
                self.state.clear();
                Answer::Done
            }
            WatchCall::Send(value) => self.send(value, wakes),
            WatchCall::Modify(change) => self.modify(&change, wakes),
            WatchCall::ModifyIf(change) => self.modify_if(&change, wakes),
            WatchCall::TryGet => self.try_get(),
            WatchCall::Read(h, read) => self.read(h, &read),
            WatchCall::Id => Answer::Gives(WatchHeard::Version(self.state.get_msg_id())),
            WatchCall::Contains => {
                Answer::Gives(WatchHeard::HasValue(self.state.contains_value()))
            }
        }
    }
}

impl<
    T: Clone + Drop,
    L: WakerList,
    C: Change<T> + Drop,
    J: Judge<T> + Drop,
    const NAMES: usize,
    const K: usize,
> Primitive<K> for Watched<T, L, C, J, NAMES> {
    type Ask = Await<J>;

    type Held = Await<J>;

    type Call = WatchCall<T, C, J>;

    type Heard = WatchHeard<T>;

    type Waker = L::Waker;

    ghost use Rattle.esync_cells.specs.WatchRules.{watch_rules, watch_wakings, watch_of, IsReceiving, OwesNews};
    ghost use Rattle.esync_cells.specs.WatchLaws.{watch_idle, watch_pending};

    ghost rules = { watch_rules L.room T.is_clone T.is_infallible C.changed C.tells J.passes };

    ghost core = { watch_of };

    ghost wakings = { watch_wakings L.Waker.eq L.room C.tells };

    ghost registrations = { λ m. m.state.waiters };

    ghost most = { max L.room 1 };

    ghost Owes = { λ m held w. OwesNews J.passes L.Waker.eq (watch_of m) m.state.waiters held w };

    ghost Fits = { λ m held. IsReceiving (watch_of m) held };

    ghost Apart = { λ held other. Unit };

    fn begin(&self, ask: Await<J>) -> Option<Await<J>> {
        if self.is_counted(ask.receiver) {
            Some(ask)
        } else {
            None
        }
    }

    fn poll(
        &mut self,
        held: Await<J>,
        waker: L::Waker,
        wakes: &mut Wakes<L::Waker, K>,
    ) -> Turn<WatchHeard<T>, Await<J>> {
        self.turn(held, &Context::from_waker(waker), wakes)
    }

    fn end(&mut self, _held: Await<J>, _wakes: &mut Wakes<L::Waker, K>) {}

    fn reach(call: &WatchCall<T, C, J>) -> Reach {
        match call {
            WatchCall::Leave(_) => Reach::Leavers,
            _ => Reach::Nobody,
        }
    }

    fn leaves(&self, call: &WatchCall<T, C, J>, held: &Await<J>) -> bool {
        match call {
            WatchCall::Leave(h) => held.receiver == *h && self.receivers.get(*h).is_some(),
            _ => false,
        }
    }

    fn call(
        &mut self,
        call: WatchCall<T, C, J>,
        _place: &mut Option<Await<J>>,
        wakes: &mut Wakes<L::Waker, K>,
    ) -> Answer<WatchHeard<T>> {
        self.perform(call, wakes)
    }

    ghost idle = { λ m held w f owes. watch_idle L.room T.is_clone T.is_infallible C.changed C.tells J.passes L.Waker.eq (watch_of m) m.state.waiters held w owes };

    ghost pending = { watch_pending L.room T.is_clone T.is_infallible C.changed C.tells J.passes };

    ghost no_such = { λ o h a o2 p n k. absurd (n tt) };

    ghost symmetric = { λ h k a. tt };

    ghost use Rattle.esync_machine.specs.RulesLaws.{all_requests};

    ghost no_requests = { all_requests (watch_rules L.room T.is_clone T.is_infallible C.changed C.tells J.passes) (λ h. tt) (λ o o2 call p p2 a c. c.1) };
}

/// A watch as a machine, with requests at the numbers below `REQS`. Its receivers are at the numbers below `NAMES`, and
/// at most `N` of them are counted.
pub type WatchRun<
    T,
    W,
    C,
    J,
    const N: usize,
    const NAMES: usize,
    const REQS: usize,
    const K: usize,
> = Requests<Watched<T, Wakes<W, N>, C, J, NAMES>, REQS, K>;

/// The commands of a watch.
pub type WatchCommand<T, W, C, J> = Command<Await<J>, W, WatchCall<T, C, J>>;

/// The reply of a watch to a command, with the wakers that it hands out.
pub type WatchReply<T, W, const K: usize> = Reply<Answer<WatchHeard<T>>, W, K>;

/// Gives the commands to the watch, one after another, as `run` does, and returns the replies in order. After an error
/// no command was taken.
///
/// Each answer is one that the latest value with its version, and what each receiver has seen, allow. No live request
/// that last heard Pending would now be answered Ready, unless its waker was handed out in that poll or since. No
/// Pending poll that changes nothing hands out its own waker.
///
/// A change is told once. It is told by a receiver's read, or by a poll that showed it a value. From then on until a
/// send, the receiver's reads of what changed find nothing, and its requests for what changed wait on, whether they
/// stood at their numbers before the run or were started in it. A poll at a number without a request is answered
/// `NoSuch`.
pub fn run_watch<
    T: Clone + Drop,
    W: Copy + Eq,
    C: Change<T> + Drop,
    J: Judge<T> + Drop,
    const N: usize,
    const NAMES: usize,
    const REQS: usize,
    const K: usize,
>(
    alloc: Global,
    machine: &mut WatchRun<T, W, C, J, N, NAMES, REQS, K>,
    commands: Vec<WatchCommand<T, W, C, J>>,
) -> Result<Vec<WatchReply<T, W, K>>, AllocError>
    ensures run { IfOk result (λ replies. GoodRunOver (watch_rules N T.is_clone T.is_infallible C.changed C.tells J.passes) watch_of (watch_wakings W.eq N C.tells) (λ m. m.state.waiters) W.eq K machine.old commands.items replies.items machine.new) }
    ensures news { IfOk result (λ replies. (h : ℕ) → TellsOnce h machine.old.requests commands.items replies.items) }
    ensures refused { OnErr result (machine.new ≡ machine.old) }
{
    // The receiver of each request is counted, also at first.
    machine.tied();
    run(alloc, machine, commands)
}
