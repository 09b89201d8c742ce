//! The signal as a machine that takes commands.
ghost use Rattle.std.specs.Prelude.{◌≡◌, [], None, IfOk, OnErr};
ghost use Rattle.esync_machine.specs.Object.{GoodRunOver};
ghost use Rattle.esync_cells.specs.SignalRules.{signal_rules, signal_wakings};

use super::SignalState;
use esync_base::waitqueue::{Context, Poll, Wakes};
use esync_machine::primitive::{Answer, Command, Primitive, Reach, Turn};
use esync_machine::requests::Requests;
use esync_machine::run::{Reply, run};
use std::alloc::{AllocError, Global};

/// A request for the value.
#[derive(Clone, Copy, Debug, PartialEq, Eq)]
pub struct Wait {}

/// The calls of a signal that are no start, poll or end.
#[derive(Clone, Copy, Debug, PartialEq, Eq)]
pub enum SignalCall<T> {
    Signal(T),
    Reset,
    TryTake,
    Signaled,
}

/// The answers of a signal.
#[derive(Clone, Copy, Debug, PartialEq, Eq)]
pub enum SignalHeard<T> {
    /// The value that the request waited for.
    Waited(T),
    Taken(Option<T>),
    Signaled(bool),
}

impl<T: Drop, W: Copy + Eq, const K: usize> Primitive<K> for SignalState<T, W> {
    type Ask = Wait;

    type Held = Wait;

    type Call = SignalCall<T>;

    type Heard = SignalHeard<T>;

    type Waker = W;

    ghost use Rattle.esync_cells.specs.SignalRules.{signal_rules, signal_wakings};
    ghost use Rattle.esync_cells.specs.SignalLaws.{OwesWait, signal_idle, signal_pending};

    ghost rules = { signal_rules T };

    ghost core = { λ m. m.value };

    ghost wakings = { signal_wakings W.eq };

    ghost registrations = { λ m. m.waiter };

    ghost most = { 1 };

    ghost Owes = { λ m h w. OwesWait W.eq m w };

    ghost Fits = { λ m h. Unit };

    ghost Apart = { λ h k. Unit };

    fn begin(&self, ask: Wait) -> Option<Wait> {
        Some(ask)
    }

    fn poll(
        &mut self,
        held: Wait,
        waker: W,
        wakes: &mut Wakes<W, K>,
    ) -> Turn<SignalHeard<T>, Wait> {
        match self.poll_wait(&Context::from_waker(waker), wakes) {
            Poll::Ready(value) => Turn::over(SignalHeard::Waited(value)),
            Poll::Pending => Turn::waits(held),
        }
    }

    fn end(&mut self, _held: Wait, _wakes: &mut Wakes<W, K>) {}

    fn reach(_call: &SignalCall<T>) -> Reach {
        Reach::Nobody
    }

    fn leaves(&self, _call: &SignalCall<T>, _held: &Wait) -> bool {
        false
    }

    fn call(
        &mut self,
        call: SignalCall<T>,
        _place: &mut Option<Wait>,
        wakes: &mut Wakes<W, K>,
    ) -> Answer<SignalHeard<T>> {
        match call {
            SignalCall::Signal(value) => {
                self.signal(value, wakes);
                Answer::Done
            }
            SignalCall::Reset => {
                self.reset();
                Answer::Done
            }
            SignalCall::TryTake => Answer::Gives(SignalHeard::Taken(self.try_take())),
            SignalCall::Signaled => Answer::Gives(SignalHeard::Signaled(self.signaled())),
        }
    }

    ghost idle = { λ m h w f o. signal_idle m.value h o.0 };

    ghost pending = { signal_pending };

    ghost no_such = { λ o h a o2 p n k. absurd (n tt) };

    ghost symmetric = { λ h k a. tt };

    ghost use Rattle.esync_machine.specs.RulesLaws.{all_requests};

    ghost no_requests = { all_requests (signal_rules T) (λ h. tt) (λ o o2 call p p2 a c. c.1) };
}

/// A signal as a machine, with requests at the numbers below `REQS`.
pub type SignalRun<T, W, const REQS: usize, const K: usize> = Requests<SignalState<T, W>, REQS, K>;

/// The commands of a signal.
pub type SignalCommand<T, W> = Command<Wait, W, SignalCall<T>>;

/// The reply of a signal to a command, with the wakers that it hands out.
pub type SignalReply<T, W, const K: usize> = Reply<Answer<SignalHeard<T>>, W, K>;

/// Gives the commands to the signal, one after another, as `run` does, and returns the replies in order. The answers
/// are those of an optional value, and no wake is lost.
pub fn run_signal<T: Drop, W: Copy + Eq, const REQS: usize, const K: usize>(
    alloc: Global,
    machine: &mut SignalRun<T, W, REQS, K>,
    commands: Vec<SignalCommand<T, W>>,
) -> Result<Vec<SignalReply<T, W, K>>, AllocError>
    ensures run { IfOk result (λ replies. GoodRunOver (signal_rules T) (λ m. m.value) (signal_wakings W.eq) (λ m. m.waiter) W.eq K machine.old commands.items replies.items machine.new) }
    ensures refused { OnErr result (machine.new ≡ machine.old) }
{
    run(alloc, machine, commands)
}
