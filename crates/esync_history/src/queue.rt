//! A queue of numbers, each of which stands in it at most once.
ghost use Rattle.std.specs.Prelude.{◌≡◌, ℕ, ◌<◌, [], ◌∷◌, IfOk, IfSome, IfNone, IsTrue, false, ◌↔◌};
ghost use Rattle.esync_base.specs.Listed.{is_in};
ghost use Rattle.esync_history.specs.Line.{Line, put_last};

use std::alloc::{AllocError, Global};
use std::collections::VecDeque;
use std::marker::Model;

/// A queue of numbers below a bound, oldest first, each at most once. Its room is made at the start.
#[derive(Drop)]
pub struct Queue {
    numbers: VecDeque<usize>,
    queued: Vec<bool>,
}

impl Model for Queue {
    ghost use Rattle.std.specs.Prelude.{length};
    ghost use Rattle.std.specs.VecDeque.{deque_capacity};
    ghost use Rattle.esync_history.specs.Line.{Line, IsLine};

    ghost Value = { Line };

    ghost view = { λ a. record { room = length a.queued.items; numbers = a.numbers.items } };

    ghost invariant = { λ a. IsLine a.numbers.items a.queued.items (deque_capacity a.numbers) };
}

impl Queue {
    /// Returns an empty queue for the numbers below `room`.
    ///
    /// # Errors
    ///
    /// Returns the error if there is no memory for them.
    pub fn new(alloc: Global, room: usize) -> Result<Self, AllocError>
        ensures { IfOk result (λ queue. queue ≡ record { room = room; numbers = [] }) }
    {
        Ok(Queue {
            numbers: VecDeque::with_capacity(alloc, room)?,
            queued: vec![in alloc; false; room]?,
        })
    }

    /// Returns whether no number is queued.
    pub fn is_empty(&self) -> bool
        ensures { IsTrue result ↔ (self.now.numbers ≡ []) }
    {
        self.numbers.is_empty()
    }

    /// Puts a number at the back, unless it is queued already.
    pub fn push(&mut self, number: usize)
        requires { number < self.old.room }
        ensures { self.new ≡ record { room = self.old.room; numbers = put_last self.old.numbers number } }
    {
        if !self.queued[number] {
            self.queued[number] = true;
            let _ = self.numbers.push_back(number);
        }
    }

    /// Takes the number at the front. Returns `None` if the queue is empty.
    pub fn pop(&mut self) -> Option<usize>
        ensures front { IfSome result (λ number. self.old.numbers ≡ number ∷ self.new.numbers) }
        ensures below { IfSome result (λ number. number < self.old.room) }
        ensures once { IfSome result (λ number. is_in number self.new.numbers ≡ false) }
        ensures empty { IfNone result (self.old.numbers ≡ []) }
        ensures none { IfNone result (self.new.numbers ≡ []) }
        ensures room { self.new.room ≡ self.old.room }
    {
        let number = self.numbers.pop_front()?;
        self.queued[number] = false;
        Some(number)
    }
}
