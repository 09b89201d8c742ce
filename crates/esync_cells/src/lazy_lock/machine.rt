//! A value that is made when it is first asked for, as a machine that takes commands.
ghost use Rattle.std.specs.Prelude.{◌≡◌, Option, IfOk, OnErr, None, Some};
ghost use Rattle.esync_machine.specs.Object.{GoodRunOver};
ghost use Rattle.std.specs.Option.{option_copied};
ghost use Rattle.esync_cells.specs.LazyLock.{Lazy};
ghost use Rattle.esync_cells.specs.LazyRules.{lazy_rules, lazy_wakings};

use super::{LazyState, Maker};
use esync_base::kept::Kept;
use esync_base::waitqueue::{Registered, Wakes};
use esync_machine::primitive::{Answer, Command, Primitive, Reach, Turn};
use esync_machine::requests::Requests;
use esync_machine::run::{Reply, run};
use std::alloc::{AllocError, Global};
use std::fmt;
use std::marker::{Model, PhantomData};

/// A request, of which there is none: no task waits for the value.
#[derive(Clone, Copy, Debug, PartialEq, Eq)]
pub struct NoAsk {}

/// The calls of a lazy lock.
#[derive(Clone, Copy, Debug, PartialEq, Eq)]
pub enum LazyCall {
    Get,
    /// Takes the value out. Nothing is there afterwards.
    Into,
}

/// A value that is made when it is first asked for, until it is taken out.
#[derive_where(Debug; T: fmt::Debug + Drop, M: fmt::Debug + Drop)]
#[derive(Drop)]
pub struct LazyHolder<T, M, W> {
    state: Option<LazyState<T, M>>,
    wakers: PhantomData<W>,
}

impl<T, M, W> Model for LazyHolder<T, M, W> {
    ghost use Rattle.std.specs.Prelude.{Option};
    ghost use Rattle.std.specs.Coded.{coded_option};
    ghost use Rattle.esync_cells.specs.LazyLock.{Lazy, lazy_code};

    ghost Value = { Option (Lazy T M) };

    ghost coded = { coded_option (lazy_code T.code M.code) };

    ghost view = { λ a. a.state };
}

impl<T: Copy, M: Copy, W> Kept for LazyHolder<T, M, W> {
    fn kept(&self) -> Result<Self, AllocError> {
        let state = match &self.state {
            Some(state) => Some(state.kept()?),
            None => None,
        };
        Ok(LazyHolder {
            state,
            wakers: PhantomData,
        })
    }
}

/// No waker is registered: no task waits for the value.
impl<T, M, W> Registered for LazyHolder<T, M, W> {
    type Waker = W;

    ghost use Rattle.std.specs.Prelude.{[]};

    ghost at = { λ m place. [] };

    fn registered(&self, _place: usize, _i: usize) -> Option<W> {
        None
    }
}

impl<T: Drop, M: Maker<T> + Drop, W> LazyHolder<T, M, W> {
    /// Returns a lock whose value isn't made yet.
    pub fn new(maker: M) -> Self
        ensures { result ≡ Some (record { value = None; maker = maker }) }
    {
        LazyHolder {
            state: Some(LazyState::new(maker)),
            wakers: PhantomData,
        }
    }

    /// Returns the lock, unless its value was taken out.
    pub fn state(&self) -> Option<&LazyState<T, M>>
        ensures { option_copied result ≡ self.now }
    {
        self.state.as_ref()
    }
}

impl<T: Copy, M: Maker<T> + Drop, W: Copy + Eq, const K: usize> Primitive<K>
    for LazyHolder<T, M, W> {
    type Ask = NoAsk;

    type Held = NoAsk;

    type Call = LazyCall;

    type Heard = T;

    type Waker = W;

    ghost use Rattle.std.specs.Prelude.{Option};
    ghost use Rattle.esync_cells.specs.LazyLock.{Lazy};
    ghost use Rattle.esync_cells.specs.LazyRules.{lazy_rules, lazy_wakings};

    ghost rules = { lazy_rules M.Makes };

    ghost core = { λ m. m };

    ghost wakings = { lazy_wakings (Option (Lazy T M)) T W };

    ghost registrations = { λ m. tt };

    ghost most = { 0 };

    ghost Owes = { λ m h w. ⊥ };

    ghost Fits = { λ m h. Unit };

    ghost Apart = { λ h k. Unit };

    fn begin(&self, _ask: NoAsk) -> Option<NoAsk> {
        None
    }

    fn poll(&mut self, held: NoAsk, _waker: W, _wakes: &mut Wakes<W, K>) -> Turn<T, NoAsk> {
        Turn {
            answer: Answer::NoSuch,
            place: Some(held),
        }
    }

    fn end(&mut self, _held: NoAsk, _wakes: &mut Wakes<W, K>) {}

    fn reach(_call: &LazyCall) -> Reach {
        Reach::Nobody
    }

    fn leaves(&self, _call: &LazyCall, _held: &NoAsk) -> bool {
        false
    }

    fn call(
        &mut self,
        call: LazyCall,
        _place: &mut Option<NoAsk>,
        _wakes: &mut Wakes<W, K>,
    ) -> Answer<T> {
        match call {
            LazyCall::Get => match &mut self.state {
                Some(state) => Answer::Gives(*state.get()),
                None => Answer::NoSuch,
            },
            LazyCall::Into => match self.state.take() {
                Some(state) => Answer::Gives(state.into_inner()),
                None => Answer::NoSuch,
            },
        }
    }

    ghost idle = { λ m h w f o. absurd o };

    ghost pending = { λ o h a o2 p i k. (let f = i.0 in absurd cc) };

    ghost no_such = { λ o h a o2 p n k. k.0 };

    ghost symmetric = { λ h k a. tt };

    ghost no_requests = { record { polls = λ o o2 h h2 a k live. absurd live; calls = λ o o2 call p a h2 k live. absurd live } };
}

/// A lazy lock as a machine, with the numbers below `REQS`.
pub type LazyRun<T, M, W, const REQS: usize, const K: usize> = Requests<
    LazyHolder<T, M, W>,
    REQS,
    K,
>;

/// The commands of a lazy lock.
pub type LazyCommand<W> = Command<NoAsk, W, LazyCall>;

/// The reply of a lazy lock to a command. It hands out no waker.
pub type LazyReply<T, W, const K: usize> = Reply<Answer<T>, W, K>;

/// Gives the commands to the value, one after another, as `run` does, and returns the replies in order. After an error
/// no command was taken. The value is what its maker made at the first command that asked for it. Nothing is there once
/// it was taken out.
pub fn run_lazy<T: Copy, M: Maker<T> + Drop, W: Copy + Eq, const REQS: usize, const K: usize>(
    alloc: Global,
    machine: &mut LazyRun<T, M, W, REQS, K>,
    commands: Vec<LazyCommand<W>>,
) -> Result<Vec<LazyReply<T, W, K>>, AllocError>
    ensures run { IfOk result (λ replies. GoodRunOver (lazy_rules M.Makes) (λ m. m) (lazy_wakings (Option (Lazy T M)) T W) (λ m. tt) W.eq K machine.old commands.items replies.items machine.new) }
    ensures refused { OnErr result (machine.new ≡ machine.old) }
{
    run(alloc, machine, commands)
}
