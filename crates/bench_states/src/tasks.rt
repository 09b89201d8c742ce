//! Who is woken, and what keeps a batch from being folded together.
use esync_base::waitqueue::{TaskId, Wakes};
use std::sync::atomic::{AtomicU64, Ordering};

/// Counts a wake of each task that a step hands out. A task that has no place in the row isn't counted.
pub fn hand_out<const K: usize>(wakes: &Wakes<TaskId, K>, woken: &mut [u64]) {
    for i in 0..wakes.len() {
        if let Some(TaskId(task)) = wakes.get(i) {
            if let Some(count) = woken.get_mut(task as usize) {
                *count = count.wrapping_add(1);
            }
        }
    }
}

/// A word that is read between two calls. No compiler moves what it knows of a state across such a read, so each call finds the
/// state in memory, as it would between two tasks.
#[derive(Drop)]
pub struct Turn {
    word: AtomicU64,
}

impl Turn {
    pub fn new() -> Self {
        Turn {
            word: AtomicU64::new(0),
        }
    }

    /// The next call's turn.
    pub fn next(&self) {
        let _ = self.word.load(Ordering::SeqCst);
    }
}
