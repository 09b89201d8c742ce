//! What the acts of tasks were answered.
ghost use Rattle.std.specs.Prelude.{◌≡◌, ℕ, ◌-◌, ◌<◌, [], map, true, IfOk, length, slice_get, slice_index, slice_set};
ghost use Rattle.std.specs.Option.{option_copied};
ghost use Rattle.esync_history.specs.Answered.{noted};

use std::alloc::{AllocError, Global};
use std::marker::Model;

/// The answers that each task heard, in order. Room for all of them is made at the start.
#[derive(Drop)]
pub struct Replies<R> {
    heard: Vec<Vec<R>>,
}

impl<R> Model for Replies<R> {
    ghost use Rattle.std.specs.Prelude.{◌-◌, map, vec_len, vec_capacity};
    ghost use Rattle.esync_history.specs.Answered.{Answered};

    ghost Value = { Answered R };

    ghost view = { λ a. record { replies = map (λ v. v.items) a.heard.items; room = map (λ v. vec_capacity v - vec_len v) a.heard.items } };
}

impl<R> Replies<R> {
    /// Returns an empty record, with room for as many replies of each task as it has acts.
    ///
    /// # Errors
    ///
    /// Returns the error if there is no memory for it.
    pub fn new<A>(alloc: Global, tasks: &[Vec<A>]) -> Result<Self, AllocError>
    where
        R: Drop,
        ensures { IfOk result (λ heard. heard ≡ record { replies = map (λ _. []) tasks.now; room = map (λ acts. length acts.items) tasks.now }) }
    {
        let mut heard = Vec::with_capacity(alloc, tasks.len())?;
        for acts in tasks {
            heard.push(Vec::with_capacity(alloc, acts.len())?)?;
        }
        Ok(Replies { heard })
    }

    /// Returns the answers that the task heard, or `None` if there is no task of this number.
    pub fn get(&self, task: usize) -> Option<&[R]>
        ensures { option_copied result ≡ slice_get self.now.replies task }
    {
        let heard = self.heard.get(task)?;
        Some(heard)
    }

    /// Puts the reply behind those that the task heard. There must be room for it.
    pub fn push(&mut self, task: usize, reply: R)
        requires { 0 < slice_index self.old.room task }
        ensures { self.new ≡ record { replies = noted self.old.replies task true reply; room = slice_set self.old.room task (slice_index self.old.room task - 1) } }
    {
        self.heard[task].push_reserved(reply);
    }

    /// Returns the answers that each task heard, in the tasks' order.
    pub fn into_vec(self) -> Vec<Vec<R>>
        ensures { map (λ v. v.items) result.items ≡ self.replies }
    {
        self.heard
    }
}
