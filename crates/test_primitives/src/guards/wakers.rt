use esync_base::waitqueue::AtomicWaker;
use esync_notes::{Notes, woken};

#[test]
fn an_atomic_waker_keeps_the_latest(rt: HostRuntime) {
    let notes = Notes::new(&rt);
    let waker = AtomicWaker::new(&notes);
    waker.wake();
    woken!(&rt, &notes, &[]);
    waker.register(1);
    waker.register(2);
    woken!(&rt, &notes, &[]);
    waker.wake();
    waker.wake();
    woken!(&rt, &notes, &[2, 2]);
}
