//! A value that is made when it is first asked for: how often its maker is called, and what is dropped.
use esync_cells::lazy_lock::{Given, LazyLock, LazyState, Maker};
use esync_notes::same;
use std::sync::atomic::AtomicU64;
use std::sync::atomic::Ordering::SeqCst;

// Counts its calls.
#[derive(Drop)]
struct Counting<'a> {
    calls: &'a AtomicU64,
}

impl Maker<u32> for Counting<'_> {
    ghost use Rattle.std.specs.Prelude.{◌≡◌};

    ghost Makes = { λ maker x. x ≡ 20 };

    fn make(&self) -> u32 {
        self.calls.fetch_add(1, SeqCst);
        20
    }
}

#[test]
fn a_maker_is_called_once(rt: HostRuntime) {
    let calls = AtomicU64::new(0);
    let mut state = LazyState::new(Counting { calls: &calls });
    same!(rt; calls.load(SeqCst), 0);
    same!(rt; *state.get(), 20);
    same!(rt; *state.get(), 20);
    same!(rt; state.into_inner(), 20);
    same!(rt; calls.load(SeqCst), 1);
    drop(LazyState::<u32, Counting<'_>>::new(Counting { calls: &calls }));
    same!(rt; calls.load(SeqCst), 1);
    assert_eq!(rt;
        LazyState::<u32, Given<u32>>::new(Given { value: 7 }).into_inner(),
        7
    );
}

#[test]
fn a_closure_is_called_once(rt: HostRuntime) {
    let calls = AtomicU64::new(0);
    let lazy = LazyLock::new(|| {
        calls.fetch_add(1, SeqCst);
        20u32
    });
    same!(rt; calls.load(SeqCst), 0);
    same!(rt; *lazy.get(&rt), 20);
    same!(rt; *lazy.get(&rt), 20);
    same!(rt; lazy.into_inner(), 20);
    same!(rt; calls.load(SeqCst), 1);
}

#[test]
fn a_closure_is_not_called_where_nobody_asks(rt: HostRuntime) {
    let calls = AtomicU64::new(0);
    let lazy = LazyLock::new(|| {
        calls.fetch_add(1, SeqCst);
        20u32
    });
    drop(lazy);
    same!(rt; calls.load(SeqCst), 0);
    let lazy = LazyLock::new(|| {
        calls.fetch_add(1, SeqCst);
        21u32
    });
    same!(rt; lazy.into_inner(), 21);
    same!(rt; calls.load(SeqCst), 1);
}

// Counts when it is dropped.
struct DropCheck<'a> {
    drops: &'a AtomicU64,
}

impl Drop for DropCheck<'_> {
    fn drop(self) {
        let DropCheck { drops } = self;
        drops.fetch_add(1, SeqCst);
    }
}

#[test]
fn a_lazy_value_is_dropped_with_its_lock(rt: HostRuntime) {
    let drops = AtomicU64::new(0);
    let lazy = LazyLock::new(|| DropCheck { drops: &drops });
    same!(rt; drops.load(SeqCst), 0);
    let _ = lazy.get(&rt);
    same!(rt; drops.load(SeqCst), 0);
    drop(lazy);
    same!(rt; drops.load(SeqCst), 1);
}
