//! The fair semaphore as a machine that takes commands.
ghost use Rattle.std.specs.Prelude.{◌≡◌, [], IfOk, OnErr, None};
ghost use Rattle.std.proofs.Math.ListN.{replicate};
ghost use Rattle.esync_machine.specs.Object.{GoodRunOver};
ghost use Rattle.esync_permits.specs.FairRules.{fair, fair_rules, fair_wakings, object_of};
ghost use Rattle.esync_permits.specs.FairOrder.{NobodyOvertakes};
ghost use Rattle.esync_permits.specs.FairTurns.{answer_of, place_of};
ghost use Rattle.esync_permits.specs.PermitRules.{Tries};
ghost use Rattle.esync_permits.specs.PermitSums.{AddsUp, total};

use super::{PermitCall, PermitHeard, PermitHeld, tried};
use crate::queue::WaitQueue;
use crate::semaphore::{Amount, FairOver, FairPoll, FairState, Ticket, WaitQueueFull};
use esync_base::waitqueue::Wakes;
use esync_machine::primitive::{Answer, Command, Primitive, Reach, Turn};
use esync_machine::requests::Requests;
use esync_machine::run::{Reply, run};
use std::alloc::{AllocError, Global};

/// What stands at a number of a fair semaphore. A request has a ticket once it waits.
pub type FairHeld = PermitHeld<Option<Ticket>>;

/// The answers of a fair semaphore. A request hears how many permits it was granted, or that there was no place for it.
pub type FairHeard = PermitHeard<Result<usize, WaitQueueFull>>;

// The answer to a poll, and what stands at the number afterwards.
fn turn_of(amount: Amount, poll: FairPoll) -> Turn<FairHeard, FairHeld>
    ensures answer { result.answer ≡ answer_of poll }
    ensures place { result.place ≡ place_of amount poll }
{
    match poll {
        FairPoll::Pending(ticket) => Turn::waits(PermitHeld::Waiting(amount, Some(ticket))),
        FairPoll::Ready(answer) => Turn {
            answer: Answer::Gives(PermitHeard::Granted(answer)),
            place: match answer {
                Ok(permits) => Some(PermitHeld::Releaser(permits)),
                Err(WaitQueueFull) => None,
            },
        },
    }
}

// Takes permits for a free number, if they are there and no request waits.
fn try_at<Q: WaitQueue>(
    state: &mut FairOver<Q>,
    amount: Amount,
    place: &mut Option<FairHeld>,
) -> Answer<FairHeard>
    ensures allowed { Tries (fair Q.places) (object_of state.old) amount place.old result (object_of state.new) place.new }
    ensures entries { state.new.entries ≡ state.old.entries }
{
    if place.is_some() {
        return Answer::NoSuch;
    }
    tried(state.try_take(amount), place)
}

impl<Q: WaitQueue, const K: usize> Primitive<K> for FairOver<Q> {
    type Ask = Amount;

    type Held = FairHeld;

    type Call = PermitCall;

    type Heard = FairHeard;

    type Waker = Q::Waker;

    ghost use Rattle.esync_permits.specs.FairRules.{OwesFor, FitsFor, AreApart};

    ghost rules = { fair_rules Q.places };

    ghost core = { object_of };

    ghost wakings = { fair_wakings };

    ghost registrations = { λ m. m.entries };

    ghost most = { 1 };

    ghost Owes = { OwesFor Q.Waker.eq };

    ghost Fits = { FitsFor };

    ghost Apart = { AreApart };

    fn begin(&self, ask: Amount) -> Option<FairHeld> {
        Some(PermitHeld::Waiting(ask, None))
    }

    fn poll(
        &mut self,
        held: FairHeld,
        waker: Q::Waker,
        wakes: &mut Wakes<Q::Waker, K>,
    ) -> Turn<FairHeard, FairHeld> {
        let PermitHeld::Waiting(amount, ticket) = held else {
            return Turn {
                answer: Answer::NoSuch,
                place: Some(held),
            };
        };
        turn_of(amount, FairOver::poll(self, amount, ticket, waker, wakes))
    }

    fn end(&mut self, held: FairHeld, wakes: &mut Wakes<Q::Waker, K>) {
        match held {
            PermitHeld::Waiting(_, ticket) => {
                if let Some(ticket) = ticket {
                    self.cancel(ticket, wakes);
                }
            }
            PermitHeld::Releaser(permits) => self.release(permits, wakes),
        }
    }

    fn reach(call: &PermitCall) -> Reach {
        call.reach()
    }

    fn leaves(&self, _call: &PermitCall, _held: &FairHeld) -> bool {
        false
    }

    fn call(
        &mut self,
        call: PermitCall,
        place: &mut Option<FairHeld>,
        wakes: &mut Wakes<Q::Waker, K>,
    ) -> Answer<FairHeard> {
        match call {
            PermitCall::Try(_, amount) => try_at(self, amount, place),
            PermitCall::Disarm(_) => {
                let Some(PermitHeld::Releaser(permits)) = *place else {
                    return Answer::NoSuch;
                };
                *place = None;
                Answer::Gives(PermitHeard::Count(permits))
            }
            PermitCall::Release(permits) => {
                self.release(permits, wakes);
                Answer::Done
            }
            PermitCall::Set(permits) => {
                self.set(permits, wakes);
                Answer::Done
            }
            PermitCall::Permits => Answer::Gives(PermitHeard::Count(FairOver::permits(self))),
        }
    }

    ghost use Rattle.esync_permits.specs.FairLaws.{fair_idle, fair_pending, AreApart-sym};
    ghost use Rattle.esync_permits.specs.PermitLaws.{permit_no_such, permit_no_requests};

    ghost idle = { λ m held w f h. fair_idle Q.places Q.Waker.eq m held w h };

    ghost pending = { fair_pending Q.places };

    ghost no_such = { permit_no_such (fair Q.places) };

    ghost symmetric = { AreApart-sym };

    ghost no_requests = { permit_no_requests (fair Q.places) };
}

/// A fair semaphore as a machine, with requests at the numbers below `REQS`. At most `N` of them wait.
pub type FairRun<W, const N: usize, const REQS: usize, const K: usize> = Requests<
    FairState<W, N>,
    REQS,
    K,
>;

/// The commands of a fair semaphore.
pub type FairCommand<W> = Command<Amount, W, PermitCall>;

/// The reply of a fair semaphore to a command, with the wakers that it hands out.
pub type FairReply<W, const K: usize> = Reply<Answer<FairHeard>, W, K>;

/// Gives the commands to the fair semaphore, one after another, as `run` does, and returns the replies in order. After
/// an error no command was taken.
///
/// Each answer is one that the number of permits and the queue of at most `N` requests allow. No live request that last
/// heard Pending would now be answered Ready, unless its waker was handed out in that poll or since. No Pending poll
/// that changes nothing hands out its own waker.
///
/// Permits are kept: as long as no command sets, disarms or releases, the permits that are there and those of the live
/// releasers add up to the same number.
///
/// No request overtakes another, if the machine has no requests and an empty queue at first. Whenever a request is
/// granted, no request waits, or it is the first of those that wait, in the order in which they first heard Pending.
pub fn run_fair<W: Copy + Eq, const N: usize, const REQS: usize, const K: usize>(
    alloc: Global,
    machine: &mut FairRun<W, N, REQS, K>,
    commands: Vec<FairCommand<W>>,
) -> Result<Vec<FairReply<W, K>>, AllocError>
    ensures run { IfOk result (λ replies. GoodRunOver (fair_rules N) object_of fair_wakings (λ m. m.entries) W.eq K machine.old commands.items replies.items machine.new) }
    ensures total { IfOk result (λ replies. AddsUp (total (fair N) (record { core = object_of machine.old.state; requests = machine.old.requests })) commands.items (total (fair N) (record { core = object_of machine.new.state; requests = machine.new.requests }))) }
    ensures order { IfOk result (λ replies. machine.old.state.entries ≡ [] → machine.old.requests ≡ replicate REQS None → NobodyOvertakes [] commands.items replies.items) }
    ensures refused { OnErr result (machine.new ≡ machine.old) }
{
    run(alloc, machine, commands)
}
