//! The greedy semaphore as a machine that takes commands.
ghost use Rattle.std.specs.Prelude.{◌≡◌, ◌≤◌, IfOk, OnErr};
ghost use Rattle.esync_machine.specs.Object.{GoodRunOver};
ghost use Rattle.esync_permits.specs.GreedyRules.{greedy, greedy_rules, greedy_wakings};
ghost use Rattle.esync_permits.specs.PermitRules.{Tries};
ghost use Rattle.esync_permits.specs.PermitSums.{AddsUp, total};

use super::{PermitCall, PermitHeard, PermitHeld, tried};
use crate::semaphore::{Amount, GreedyState};
use esync_base::waitqueue::{Poll, Wakes};
use esync_machine::primitive::{Answer, Command, Primitive, Reach, Turn};
use esync_machine::requests::Requests;
use esync_machine::run::{Reply, run};
use std::alloc::{AllocError, Global};

/// What stands at a number of a greedy semaphore. The semaphore has no name for a request that waits.
pub type GreedyHeld = PermitHeld<()>;

/// The answers of a greedy semaphore. A request hears how many permits it was granted.
pub type GreedyHeard = PermitHeard<usize>;

// Takes permits for a free number, if they are there.
fn try_at<W: Copy + Eq>(
    state: &mut GreedyState<W>,
    amount: Amount,
    place: &mut Option<GreedyHeld>,
) -> Answer<GreedyHeard>
    ensures allowed { Tries greedy state.old.permits amount place.old result state.new.permits place.new }
    ensures fewer { state.new.permits ≤ state.old.permits }
    ensures waiter { state.new.waiter ≡ state.old.waiter }
{
    if place.is_some() {
        return Answer::NoSuch;
    }
    tried(state.try_take(amount), place)
}

impl<W: Copy + Eq, const K: usize> Primitive<K> for GreedyState<W> {
    type Ask = Amount;

    type Held = GreedyHeld;

    type Call = PermitCall;

    type Heard = GreedyHeard;

    type Waker = W;

    ghost use Rattle.esync_permits.specs.GreedyRules.{OwesFor};

    ghost rules = { greedy_rules };

    ghost core = { λ m. m.permits };

    ghost wakings = { greedy_wakings W.eq };

    ghost registrations = { λ m. m.waiter };

    ghost most = { 1 };

    ghost Owes = { λ m held w. OwesFor W.eq m.permits m.waiter held w };

    ghost Fits = { λ m held. Unit };

    ghost Apart = { λ held other. Unit };

    fn begin(&self, ask: Amount) -> Option<GreedyHeld> {
        Some(PermitHeld::Waiting(ask, ()))
    }

    fn poll(
        &mut self,
        held: GreedyHeld,
        waker: W,
        wakes: &mut Wakes<W, K>,
    ) -> Turn<GreedyHeard, GreedyHeld> {
        let PermitHeld::Waiting(amount, ()) = held else {
            return Turn {
                answer: Answer::NoSuch,
                place: Some(held),
            };
        };
        match GreedyState::poll(self, amount, waker, wakes) {
            Poll::Ready(permits) => Turn {
                answer: Answer::Gives(PermitHeard::Granted(permits)),
                place: Some(PermitHeld::Releaser(permits)),
            },
            Poll::Pending => Turn::waits(held),
        }
    }

    fn end(&mut self, held: GreedyHeld, wakes: &mut Wakes<W, K>) {
        if let PermitHeld::Releaser(permits) = held {
            self.release(permits, wakes);
        }
    }

    fn reach(call: &PermitCall) -> Reach {
        call.reach()
    }

    fn leaves(&self, _call: &PermitCall, _held: &GreedyHeld) -> bool {
        false
    }

    fn call(
        &mut self,
        call: PermitCall,
        place: &mut Option<GreedyHeld>,
        wakes: &mut Wakes<W, K>,
    ) -> Answer<GreedyHeard> {
        match call {
            PermitCall::Try(_, amount) => try_at(self, amount, place),
            PermitCall::Disarm(_) => {
                let Some(PermitHeld::Releaser(permits)) = *place else {
                    return Answer::NoSuch;
                };
                *place = None;
                Answer::Gives(PermitHeard::Count(permits))
            }
            PermitCall::Release(permits) => {
                self.release(permits, wakes);
                Answer::Done
            }
            PermitCall::Set(permits) => {
                self.set(permits, wakes);
                Answer::Done
            }
            PermitCall::Permits => Answer::Gives(PermitHeard::Count(GreedyState::permits(self))),
        }
    }

    ghost use Rattle.esync_permits.specs.GreedyLaws.{greedy_idle, greedy_pending};
    ghost use Rattle.esync_permits.specs.PermitLaws.{permit_no_such, permit_no_requests};

    ghost idle = { λ m held w f h. greedy_idle W.eq m.permits m.waiter held w h };

    ghost pending = { greedy_pending };

    ghost no_such = { permit_no_such greedy };

    ghost symmetric = { λ h k a. tt };

    ghost no_requests = { permit_no_requests greedy };
}

/// A greedy semaphore as a machine, with requests at the numbers below `REQS`.
pub type GreedyRun<W, const REQS: usize, const K: usize> = Requests<GreedyState<W>, REQS, K>;

/// The commands of a greedy semaphore.
pub type GreedyCommand<W> = Command<Amount, W, PermitCall>;

/// The reply of a greedy semaphore to a command, with the wakers that it hands out.
pub type GreedyReply<W, const K: usize> = Reply<Answer<GreedyHeard>, W, K>;

/// Gives the commands to the greedy semaphore, one after another, as `run` does, and returns the replies in order.
/// After an error no command was taken.
///
/// Each answer is one that the number of permits allows. No live request that last heard Pending would now be answered
/// Ready, unless its waker was handed out in that poll or since. No Pending poll that changes nothing hands out its own
/// waker.
///
/// Permits are kept: as long as no command sets, disarms or releases, the permits that are there and those of the live
/// releasers add up to the same number.
pub fn run_greedy<W: Copy + Eq, const REQS: usize, const K: usize>(
    alloc: Global,
    machine: &mut GreedyRun<W, REQS, K>,
    commands: Vec<GreedyCommand<W>>,
) -> Result<Vec<GreedyReply<W, K>>, AllocError>
    ensures run { IfOk result (λ replies. GoodRunOver greedy_rules (λ m. m.permits) (greedy_wakings W.eq) (λ m. m.waiter) W.eq K machine.old commands.items replies.items machine.new) }
    ensures total { IfOk result (λ replies. AddsUp (total greedy (record { core = machine.old.state.permits; requests = machine.old.requests })) commands.items (total greedy (record { core = machine.new.state.permits; requests = machine.new.requests }))) }
    ensures refused { OnErr result (machine.new ≡ machine.old) }
{
    run(alloc, machine, commands)
}
