//! A hand that stops a call of a shared form before it takes the state's lock, until another thread lets it go on.
use esync_base::waitqueue::Hand;
use std::sync::Wait;
use std::sync::atomic::{AtomicU32, AtomicU64, Ordering};

/// No call is stopped.
pub const RUNS: u32 = 0;

/// The next call is stopped before it takes the state's lock.
pub const STOPS: u32 = 1;

/// A call stands before the state's lock.
pub const STANDS: u32 = 2;

/// The call that stood is over.
pub const ENDED: u32 = 3;

/// How far a call is, and the sum of the wakers that were handed out.
#[derive(Drop)]
pub struct Marks {
    pub step: AtomicU32,
    pub given: AtomicU64,
}

impl Marks {
    /// No call is stopped, and no waker was handed out.
    pub fn new() -> Self {
        Marks {
            step: AtomicU32::new(RUNS),
            given: AtomicU64::new(0),
        }
    }

    /// The call is there now.
    pub fn set(&self, step: u32) {
        self.step.store(step, Ordering::SeqCst);
    }

    /// Waits until the call is there, or is over without having been there.
    pub fn awaits(&self, rt: &impl Wait, step: u32) {
        for _ in rt.forever() {
            let now = self.step.load(Ordering::SeqCst);
            if now == step || now == ENDED {
                break;
            }
        }
    }
}

/// A hand that stops a call before the state's lock, and adds up the wakers that it is given.
#[derive(Drop)]
pub struct Stopping<'a, R> {
    pub rt: &'a R,
    pub marks: &'a Marks,
}

impl<R: Wait> Hand<u64> for Stopping<'_, R> {
    type Rt = R;

    fn rt(&self) -> &R {
        if self.marks.step.load(Ordering::SeqCst) == STOPS {
            self.marks.set(STANDS);
            self.marks.awaits(self.rt, RUNS);
        }
        self.rt
    }

    fn wake(&self, waker: u64) {
        self.marks.given.fetch_add(waker, Ordering::SeqCst);
    }
}
