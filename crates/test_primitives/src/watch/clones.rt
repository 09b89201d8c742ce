//! What a shared watch does where a clone of its value has no memory.
use esync_base::waitqueue::Context;
use esync_cells::watch::Watch;
use esync_notes::{Notes, holds, same, woken};
use std::alloc::AllocError;
use std::cell::Cell;
use std::process::Abort;

// A value whose first clones, so many, have no memory.
#[derive(Drop)]
struct Scarce {
    refusals: Cell<u32>,
    value: u32,
}

impl Clone for Scarce {
    fn clone(&self) -> Result<Self, AllocError> {
        let refusals = self.refusals.get();
        if refusals > 0 {
            self.refusals.set(refusals - 1);
            return Err(AllocError);
        }
        Ok(Scarce {
            refusals: Cell::new(0),
            value: self.value,
        })
    }
}

#[test]
fn a_refused_clone_marks_nothing(rt: HostRuntime) {
    let notes = Notes::new(&rt);
    let watch: Watch<Scarce, u64, _, 1> = Watch::new(&notes);
    let Some(mut receiver) = watch.receiver() else {
        rt.abort()
    };
    let first = Scarce {
        refusals: Cell::new(3),
        value: 3,
    };
    holds!(rt; watch.sender().send(first).is_ok());
    holds!(rt; receiver.try_get().is_err());
    holds!(rt; receiver.try_changed().is_err());
    holds!(rt; receiver.changed().poll(&Context::from_waker(1)).is_err());
    match receiver.try_changed() {
        Ok(Some(copy)) => same!(rt; copy.value, 3),
        _ => rt.abort(),
    }
    let second = Scarce {
        refusals: Cell::new(0),
        value: 4,
    };
    holds!(rt; watch.sender().send(second).is_ok());
    woken!(&rt, &notes, &[]);
}
