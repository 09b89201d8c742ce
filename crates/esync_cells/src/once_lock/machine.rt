//! A value that is set once, as a machine that takes commands.
ghost use Rattle.std.specs.Prelude.{◌≡◌, IfOk, OnErr};
ghost use Rattle.esync_machine.specs.Object.{GoodRunOver};
ghost use Rattle.esync_cells.specs.OnceRules.{once_rules, once_wakings};
ghost use Rattle.esync_cells.specs.OnceSet.{StaysSet};

use super::{InitError, OnceState};
use esync_base::waitqueue::{Context, Poll, Wakes};
use esync_machine::primitive::{Answer, Command, Primitive, Reach, Turn};
use esync_machine::requests::Requests;
use esync_machine::run::{Reply, run};
use std::alloc::{AllocError, Global};

/// A request for the value. It is shown, and stays.
#[derive(Clone, Copy, Debug, PartialEq, Eq)]
pub struct Get {}

/// The calls of a once lock that are no start, poll or end.
#[derive(Clone, Copy, Debug, PartialEq, Eq)]
pub enum OnceCall<T> {
    TryGet,
    Init(T),
    GetOrInit(T),
    Take,
    IsSet,
}

/// The answers of a once lock.
#[derive(Clone, Copy, Debug, PartialEq, Eq)]
pub enum OnceHeard<T> {
    /// The value that the request waited for.
    Got(T),
    /// The value that is there, or that was taken.
    Found(Option<T>),
    /// Whether the value was set.
    HasSet(Result<(), InitError<T>>),
    /// The value that is there, set by this call if none was there before.
    Shown(T),
    IsSet(bool),
}

impl<T: Copy, W: Copy + Eq, const K: usize> Primitive<K> for OnceState<T, W> {
    type Ask = Get;

    type Held = Get;

    type Call = OnceCall<T>;

    type Heard = OnceHeard<T>;

    type Waker = W;

    ghost use Rattle.esync_cells.specs.OnceRules.{once_rules, once_wakings};
    ghost use Rattle.esync_cells.specs.OnceLaws.{once_pending};

    ghost rules = { once_rules T };

    ghost core = { λ m. m };

    ghost wakings = { once_wakings T W };

    ghost registrations = { λ m. tt };

    ghost most = { 1 };

    ghost Owes = { λ m h w. ⊥ };

    ghost Fits = { λ m h. Unit };

    ghost Apart = { λ h k. Unit };

    fn begin(&self, ask: Get) -> Option<Get> {
        Some(ask)
    }

    fn poll(&mut self, held: Get, waker: W, wakes: &mut Wakes<W, K>) -> Turn<OnceHeard<T>, Get> {
        match self.poll_get(&Context::from_waker(waker), wakes) {
            Poll::Ready(value) => Turn::over(OnceHeard::Got(*value)),
            Poll::Pending => Turn::waits(held),
        }
    }

    fn end(&mut self, _held: Get, _wakes: &mut Wakes<W, K>) {}

    fn reach(_call: &OnceCall<T>) -> Reach {
        Reach::Nobody
    }

    fn leaves(&self, _call: &OnceCall<T>, _held: &Get) -> bool {
        false
    }

    fn call(
        &mut self,
        call: OnceCall<T>,
        _place: &mut Option<Get>,
        _wakes: &mut Wakes<W, K>,
    ) -> Answer<OnceHeard<T>> {
        Answer::Gives(match call {
            OnceCall::TryGet => OnceHeard::Found(self.try_get().copied()),
            OnceCall::Init(value) => OnceHeard::HasSet(self.init(value)),
            OnceCall::GetOrInit(value) => OnceHeard::Shown(*self.get_or_init(move || value)),
            OnceCall::Take => OnceHeard::Found(self.take()),
            OnceCall::IsSet => OnceHeard::IsSet(self.is_set()),
        })
    }

    ghost idle = { λ m h w f o. absurd o };

    ghost pending = { once_pending };

    ghost no_such = { λ o h a o2 p n k. absurd (n tt) };

    ghost symmetric = { λ h k a. tt };

    ghost use Rattle.esync_machine.specs.RulesLaws.{all_requests};

    ghost no_requests = { all_requests (once_rules T) (λ h. tt) (λ o o2 call p p2 a c. c.1) };
}

/// A once lock as a machine, with requests at the numbers below `REQS`.
pub type OnceRun<T, W, const REQS: usize, const K: usize> = Requests<OnceState<T, W>, REQS, K>;

/// The commands of a once lock.
pub type OnceCommand<T, W> = Command<Get, W, OnceCall<T>>;

/// The reply of a once lock to a command, with the wakers that it hands out.
pub type OnceReply<T, W, const K: usize> = Reply<Answer<OnceHeard<T>>, W, K>;

/// Gives the commands to the value, one after another, as `run` does, and returns the replies in order. After an error
/// no command was taken.
///
/// The answers are those of an optional value, and no wake is lost, since a poll that finds no value wakes itself.
///
/// A value that was set stays until a `Take`, whether it was set before the run, by a successful `Init` or by a
/// `GetOrInit`. Each call shows it. So does each poll of a request, whether the request stood at its number before the
/// run or was started in it. A poll at a number without a request is answered `NoSuch`.
pub fn run_once<T: Copy, W: Copy + Eq, const REQS: usize, const K: usize>(
    alloc: Global,
    machine: &mut OnceRun<T, W, REQS, K>,
    commands: Vec<OnceCommand<T, W>>,
) -> Result<Vec<OnceReply<T, W, K>>, AllocError>
    ensures run { IfOk result (λ replies. GoodRunOver (once_rules T) (λ m. m) (once_wakings T W) (λ m. tt) W.eq K machine.old commands.items replies.items machine.new) }
    ensures set { IfOk result (λ replies. StaysSet machine.old.state machine.old.requests commands.items replies.items) }
    ensures refused { OnErr result (machine.new ≡ machine.old) }
{
    run(alloc, machine, commands)
}
