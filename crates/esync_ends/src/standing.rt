//! The states of a script's requests.
use crate::Delivery;
use esync_machine::primitive::{Answer, Command};
use esync_words::vocabulary::REQS;
use std::ops::Range;

// The state of a request.
#[derive(Clone, Copy, Debug, PartialEq, Eq)]
pub enum Standing {
    // The request isn't started, or is over.
    Free,
    // The request is started, and its last poll, if there was one, wasn't answered Pending.
    Started,
    // The request's last poll was answered Pending. `is_told` says whether its waker was handed out in that poll or
    // since.
    Waits { waker: u64, is_told: bool },
}

impl Standing {
    // Notes the wakers that were handed out.
    fn hear<D: Delivery>(&mut self, delivery: &D, wakers: &[Option<u64>]) {
        if let Standing::Waits { waker, is_told } = self {
            *is_told |= delivery.arrives(*waker, wakers);
        }
    }
}

// The state of the request of each number.
#[derive(Clone, Copy)]
pub struct Standings {
    places: [Standing; REQS],
    // One more than the greatest number that was ever in use, or 0.
    used: usize,
}

impl Standings {
    // Returns the states before any request was started.
    pub fn new() -> Self {
        Standings {
            places: [Standing::Free; REQS],
            used: 0,
        }
    }

    // Returns the numbers that were ever in use, and those below them.
    pub fn numbers(&self) -> Range<usize> {
        0..self.used
    }

    // Returns the state of the request.
    pub fn of(&self, request: usize) -> Standing {
        self.places.get(request).copied().unwrap_or(Standing::Free)
    }

    // Notes one more command, with its answer and the wakers that it handed out.
    pub fn hear<Q, C, A, D: Delivery>(
        &mut self,
        delivery: &D,
        command: &Command<Q, u64, C>,
        answer: &Answer<A>,
        wakers: &[Option<u64>],
    ) {
        match (command, answer) {
            (Command::Start(r, _), Answer::Done) => self.put(*r, Standing::Started),
            (Command::Poll(r, waker), Answer::Pending) => {
                let waits = Standing::Waits {
                    waker: *waker,
                    is_told: false,
                };
                self.put(*r, waits);
            }
            (Command::Poll(r, _), Answer::Done | Answer::Gives(_))
            | (Command::End(r), Answer::Done) => self.put(*r, Standing::Free),
            _ => {}
        }
        for standing in self.places.iter_mut().take(self.used) {
            standing.hear(delivery, wakers);
        }
    }

    fn put(&mut self, request: usize, standing: Standing) {
        if let Some(place) = self.places.get_mut(request) {
            *place = standing;
            self.used = self.used.max(request.saturating_add(1));
        }
    }
}
