//! A post box for one subscriber, which may leave: leaving ends all requests that wait for a message.
ghost use Rattle.std.specs.Prelude.{◌≡◌, [], None, false, IfOk, OnErr};
ghost use Rattle.esync_machine.specs.Object.{GoodRunOver};
ghost use Rattle.example_primitive.specs.PostBox.{post_rules, post_wakings};

use embassy_sync::run::primitive::{Answer, Command, Primitive, Reach, Turn};
use embassy_sync::run::requests::Requests;
use embassy_sync::run::run::{Reply, run};
use embassy_sync::waitqueue::{WakerRegistration, Wakes};
use std::alloc::{AllocError, Global};

/// A request for the next message of the subscriber.
#[derive(Clone, Copy, Debug, PartialEq, Eq)]
pub struct NextMessage {}

/// The calls of a post box beside its requests.
#[derive(Clone, Copy, Debug, PartialEq, Eq)]
pub enum PostCall {
    /// Adds the subscriber.
    Join,
    /// Removes the subscriber: its requests end, and its message is dropped.
    Leave,
    /// Posts a message to the subscriber, if it is there, in place of a message that it didn't read.
    Post(u32),
}

/// The state of a post box: whether the subscriber is there, its message, if there is one, and the waker of a task that
/// waits for one.
#[derive(Debug, Drop)]
pub struct PostBox<W> {
    is_live: bool,
    message: Option<u32>,
    reader: WakerRegistration<W>,
}

impl<W: Copy + Eq> PostBox<W> {
    /// Returns a post box without a subscriber.
    pub fn new() -> Self
        ensures { result ≡ record { is_live = false; message = None; reader = [] } }
    {
        PostBox {
            is_live: false,
            message: None,
            reader: WakerRegistration::new(),
        }
    }
}

impl<W: Copy + Eq, const K: usize> Primitive<K> for PostBox<W> {
    type Ask = NextMessage;

    type Held = NextMessage;

    type Call = PostCall;

    type Heard = u32;

    type Waker = W;

    ghost use Rattle.example_primitive.specs.PostBox.{post_rules, OwesReader, post_idle, post_pending};

    ghost rules = { post_rules };

    ghost core = { λ m. record { is_live = m.is_live; message = m.message } };

    ghost wakings = { post_wakings W.eq };

    ghost registrations = { λ m. m.reader };

    ghost most = { 1 };

    ghost Owes = { λ m h w. OwesReader W.eq m.message m.reader w };

    ghost use Rattle.std.specs.Prelude.{true};

    ghost Fits = { λ m h. m.is_live ≡ true };

    ghost Apart = { λ h k. Unit };

    fn begin(&self, ask: NextMessage) -> Option<NextMessage> {
        if self.is_live { Some(ask) } else { None }
    }

    fn poll(
        &mut self,
        held: NextMessage,
        waker: W,
        wakes: &mut Wakes<W, K>,
    ) -> Turn<u32, NextMessage> {
        match self.message.take() {
            Some(message) => Turn::over(message),
            None => {
                self.reader.register(waker, wakes);
                Turn::waits(held)
            }
        }
    }

    fn end(&mut self, _held: NextMessage, _wakes: &mut Wakes<W, K>) {}

    fn reach(call: &PostCall) -> Reach {
        match call {
            PostCall::Leave => Reach::Leavers,
            PostCall::Join => Reach::Nobody,
            PostCall::Post(_) => Reach::Nobody,
        }
    }

    fn leaves(&self, _call: &PostCall, _held: &NextMessage) -> bool {
        true
    }

    fn call(
        &mut self,
        call: PostCall,
        _place: &mut Option<NextMessage>,
        wakes: &mut Wakes<W, K>,
    ) -> Answer<u32> {
        match call {
            PostCall::Join => {
                self.is_live = true;
                Answer::Done
            }
            PostCall::Leave => {
                self.is_live = false;
                self.message = None;
                Answer::Done
            }
            PostCall::Post(message) => {
                if self.is_live {
                    self.message = Some(message);
                    self.reader.wake(wakes);
                }
                Answer::Done
            }
        }
    }

    ghost idle = { λ m h w f o. post_idle (record { is_live = m.is_live; message = m.message }) h o.0 };

    ghost pending = { post_pending };

    ghost no_such = { λ o h a o2 p n k. absurd (n tt) };

    ghost symmetric = { λ h k a. tt };

    ghost use Rattle.esync_machine.specs.RulesLaws.{all_requests};

    ghost no_requests = { all_requests post_rules (λ h. tt) (λ o o2 call p p2 a c. c.1) };
}

/// The post box as a machine of 16 requests, of which a step hands out at most one waker.
pub type PostRun<W> = Requests<PostBox<W>, 16, 1>;

/// Runs the commands on the post box, one after another, and returns a reply to each. As `run` says of every machine,
/// the replies are a run of it, no wakeup is lost, and each step hands out exactly the wakers of the table.
pub fn run_post<W: Copy + Eq>(
    alloc: Global,
    machine: &mut PostRun<W>,
    commands: Vec<Command<NextMessage, W, PostCall>>,
) -> Result<Vec<Reply<Answer<u32>, W, 1>>, AllocError>
    ensures run { IfOk result (λ replies. GoodRunOver post_rules (λ m. record { is_live = m.is_live; message = m.message }) (post_wakings W.eq) (λ m. m.reader) W.eq 1 machine.old commands.items replies.items machine.new) }
    ensures refused { OnErr result (machine.new ≡ machine.old) }
{
    run(alloc, machine, commands)
}
