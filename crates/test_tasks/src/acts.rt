// Futures written by hand.
ghost use Rattle.esync_tasks.specs.Polled.{IfReady, OnPending};

use esync_base::waitqueue::{Context, Hand, Poll, TaskId};
use esync_channel::channel::Channel;
use esync_tasks::future::{Either, Future};

/// How many numbers go over a line.
pub const ROUNDS: u32 = 300;

/// The sum of the numbers below ROUNDS.
pub const SUM: u64 = 44_850;

/// A line of one number.
pub type Line<H> = Channel<u32, TaskId, H, 1>;

/// Wakes its own task at so many polls, and gives how often it was polled.
#[derive(Drop)]
pub struct Yields<'a, H> {
    hand: &'a H,
    left: u64,
    polls: u64,
}

/// A future that wakes its own task, by this hand, at so many polls.
pub fn yielding<H>(hand: &H, left: u64) -> Yields<'_, H> {
    Yields {
        hand,
        left,
        polls: 0,
    }
}

impl<H: Hand<TaskId>> Future<TaskId> for Yields<'_, H> {
    type Output = u64;

    fn poll(&mut self, cx: &Context<TaskId>) -> Poll<u64> {
        self.polls = self.polls.wrapping_add(1);
        if self.left == 0 {
            return Poll::Ready(self.polls);
        }
        self.left -= 1;
        self.hand.wake(cx.waker());
        Poll::Pending
    }
}

/// Is ready at its second poll.
#[derive(Drop)]
pub struct SleepsOnce {
    pub has_slept: bool,
}

impl Future<TaskId> for SleepsOnce {
    type Output = bool;

    fn poll(&mut self, _cx: &Context<TaskId>) -> Poll<bool> {
        if self.has_slept {
            return Poll::Ready(true);
        }
        self.has_slept = true;
        Poll::Pending
    }
}

/// A line of eight numbers.
pub type Notes<H> = Channel<u64, TaskId, H, 8>;

/// Notes its number at each poll, and wakes itself.
#[derive(Drop)]
pub struct Writes<'a, H> {
    line: &'a Notes<H>,
    yields: Yields<'a, H>,
}

impl<H: Hand<TaskId>> Future<TaskId> for Writes<'_, H> {
    type Output = u64;

    fn poll(&mut self, cx: &Context<TaskId>) -> Poll<u64> {
        let _ = self.line.try_send(cx.waker().0);
        self.yields.poll(cx)
    }
}

/// A future that notes its number at each poll, and wakes itself at so many.
pub fn writing<'a, H>(line: &'a Notes<H>, hand: &'a H, left: u64) -> Writes<'a, H> {
    Writes {
        line,
        yields: yielding(hand, left),
    }
}

/// Sends the numbers below ROUNDS, and gives how often it was polled.
#[derive(Drop)]
pub struct Sends<'a, H> {
    line: &'a Line<H>,
    next: u32,
    polls: u64,
}

impl<H: Hand<TaskId>> Future<TaskId> for Sends<'_, H> {
    type Output = u64;

    fn poll(&mut self, cx: &Context<TaskId>) -> Poll<u64> {
        self.polls = self.polls.wrapping_add(1);
        for number in self.next..ROUNDS {
            if self.line.try_send_with_context(number, Some(cx)).is_err() {
                self.next = number;
                return Poll::Pending;
            }
        }
        Poll::Ready(self.polls)
    }
}

/// Receives ROUNDS numbers, and gives their sum.
#[derive(Drop)]
pub struct Receives<'a, H> {
    line: &'a Line<H>,
    next: u32,
    sum: u64,
}

impl<H: Hand<TaskId>> Future<TaskId> for Receives<'_, H> {
    type Output = u64;

    fn poll(&mut self, cx: &Context<TaskId>) -> Poll<u64> {
        for round in self.next..ROUNDS {
            match self.line.poll_receive(cx) {
                Poll::Ready(number) => self.sum = self.sum.wrapping_add(u64::from(number)),
                Poll::Pending => {
                    self.next = round;
                    return Poll::Pending;
                }
            }
        }
        Poll::Ready(self.sum)
    }
}

/// The task at one end of a line.
pub type End<'a, H> = Either<Sends<'a, H>, Receives<'a, H>>;

/// The task that sends over a line.
pub fn sender_of<H>(line: &Line<H>) -> End<'_, H> {
    Either::First(Sends {
        line,
        next: 0,
        polls: 0,
    })
}

/// The task that receives over a line.
pub fn receiver_of<H>(line: &Line<H>) -> End<'_, H> {
    Either::Second(Receives {
        line,
        next: 0,
        sum: 0,
    })
}
