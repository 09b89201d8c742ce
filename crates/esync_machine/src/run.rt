//! Machines that take commands, and whole runs of them.
ghost use Rattle.std.specs.Prelude.{◌≡◌, ℕ, Some, IfOk, OnErr, ◌↔◌, IsTrue, IsSome};
ghost use Rattle.esync_base.specs.Rows.{items_of};
ghost use Rattle.esync_machine.specs.Runs.{Semantics, GoodRunOf, OwedAreIdle, IdleIsPending, OnlyLiveArePolled};
ghost use Rattle.esync_machine.specs.Keeps.{KeepsRequests};
ghost use Rattle.esync_machine.specs.Histories.{Turn, IsLike};

use esync_base::waitqueue::Wakes;
use std::alloc::{AllocError, Global};

/// An answer, with the wakers that were handed out.
#[derive_where(Clone, Copy; A: Copy, W: Copy)]
#[derive_where(PartialEq, Eq; A, W)]
#[derive(Drop)]
pub struct Reply<A, W, const K: usize> {
    pub answer: A,
    pub wakes: Wakes<W, K>,
}

/// A machine that takes commands, some of which poll a request by its number with a waker.
pub trait Machine {
    type Command;

    type Reply;

    type Waker: Copy + Eq;

    /// The meaning of the machine, and how its states are read.
    ghost semantics: { Semantics Self Self.Command Self.Reply Self.Waker };

    /// Takes one command and returns its reply. The contract is one record, `Turn`.
    fn step(&mut self, command: Self::Command) -> Self::Reply
        ensures { Turn semantics self.old command result self.new };

    /// A law: if a request is owed a waker, a poll of it may now be answered Pending with the object left as it is.
    ghost idle: { OwedAreIdle semantics };

    /// A law: if a poll may be answered Pending with the object left as it is, nothing else is allowed.
    ghost pending: { IdleIsPending semantics.meaning };

    /// A law: a poll of a number without a live request is answered that it names what isn't there.
    ghost no_such: { OnlyLiveArePolled semantics.meaning };
}

/// A machine whose requests are started, polled and ended by their numbers.
pub trait Awaits: Machine {
    type Ask;

    /// The command that starts a request for this at the number.
    ghost starting: { ℕ → Self.Ask → Self.Command };

    ghost REQS: { ℕ };

    /// The count of numbers: the valid ones are those below it.
    const REQS: usize;

    /// Returns the command that starts a request for `ask` at the number.
    fn start(r: usize, ask: Self::Ask) -> Self::Command
        ensures { result ≡ starting r ask };

    /// Returns the command that polls the request at the number with the waker.
    fn poll(r: usize, waker: Self::Waker) -> Self::Command
        ensures { Self.semantics.meaning.polls result ≡ Some (r, waker) };

    /// Returns the command that ends what stands at the number.
    fn end(r: usize) -> Self::Command
        ensures { Self.semantics.meaning.ends result ≡ Some r };

    /// Returns whether the command starts a request.
    fn is_start(command: &Self::Command) -> bool
        ensures { IsTrue result ↔ IsSome (Self.semantics.meaning.starts command.now) };

    /// Returns whether the command polls a request.
    fn is_poll(command: &Self::Command) -> bool
        ensures { IsTrue result ↔ IsSome (Self.semantics.meaning.polls command.now) };

    /// Returns whether the reply says that the request waits.
    fn is_pending(reply: &Self::Reply) -> bool
        ensures { IsTrue result ↔ Self.semantics.meaning.IsPending reply.now };

    /// Returns whether the reply says that the command names what isn't there.
    fn is_no_such(reply: &Self::Reply) -> bool
        ensures { IsTrue result ↔ Self.semantics.meaning.IsNoSuch reply.now };

    /// Returns whether the reply says that there was no memory.
    fn is_refused(reply: &Self::Reply) -> bool
        ensures { IsTrue result ↔ Self.semantics.meaning.IsRefused reply.now };

    /// Returns the wakers that the reply hands out, in order, in a row that may have empty places behind them.
    fn wakes(reply: &Self::Reply) -> &[Option<Self::Waker>]
        ensures { items_of result.now ≡ Self.semantics.meaning.wakes reply.now };

    ghost starts: { (r : ℕ) (ask : Self.Ask) → Self.semantics.meaning.starts (starting r ask) ≡ Some r };

    /// A law: what the commands do to the requests.
    ghost keeps: { KeepsRequests Self.semantics.meaning };

    /// A law: wakers are compared by the `==` of their type.
    ghost same: { (v w : Self.Waker) → Self.semantics.meaning.same v w ≡ Self.Waker.eq v w };
}

/// A machine of which a copy can be kept.
pub trait Keep: Awaits {
    /// Returns a machine with the same object and the same registered wakers. An error means that there was no memory
    /// for it.
    fn keep(&self) -> Result<Self, AllocError>
        ensures { IfOk result (λ kept. IsLike Self.semantics kept self.now) };
}

/// Ends what stands at the number, and returns the reply. No request is there afterwards, so a poll of the number is
/// answered that it names what isn't there.
pub fn end_request<M: Awaits>(machine: &mut M, r: usize) -> M::Reply
    ensures turn { (c : M.Command) × (M.semantics.meaning.ends c ≡ Some r) × Turn M.semantics machine.old c result machine.new }
    ensures gone { M.semantics.meaning.IsLive (M.semantics.object machine.new) r → ⊥ }
{
    machine.step(M::end(r))
}

/// Gives the commands to the machine, one after another, and returns the replies in order.
///
/// Room for all replies is made before the first step, so after an error no command was taken. The commands are
/// dropped.
pub fn run<M: Machine>(
    alloc: Global,
    machine: &mut M,
    commands: Vec<M::Command>,
) -> Result<Vec<M::Reply>, AllocError>
where
    M::Command: Drop,
    M::Reply: Drop,
    ensures run { IfOk result (λ replies. GoodRunOf M.semantics machine.old commands.items replies.items machine.new) }
    ensures refused { OnErr result (machine.new ≡ machine.old) }
{
    let mut replies = Vec::with_capacity(alloc, commands.len())?;
    let mut rest = commands.into_iter();
    while let Some(command) = rest.next() {
        replies.push(machine.step(command))?;
    }
    Ok(replies)
}
