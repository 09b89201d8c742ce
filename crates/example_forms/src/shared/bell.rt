use embassy_sync::waitqueue::Hand;
use std::cell::Cell;
use std::sync::Wait;

/// A hand that notes the last task that was to be woken.
#[derive(Drop)]
pub struct Bell<'a, R> {
    rt: &'a R,
    rung_for: Cell<Option<u64>>,
}

impl<'a, R: Wait> Bell<'a, R> {
    pub fn new(rt: &'a R) -> Self {
        Bell {
            rt,
            rung_for: Cell::new(None),
        }
    }

    /// Returns the last task that was to be woken.
    pub fn rung_for(&self) -> Option<u64> {
        self.rung_for.get()
    }
}

impl<R: Wait> Hand<u64> for &Bell<'_, R> {
    type Rt = R;

    fn rt(&self) -> &R {
        self.rt
    }

    fn wake(&self, waker: u64) {
        self.rung_for.set(Some(waker));
    }
}
