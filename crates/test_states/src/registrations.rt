use crate::shown::shows;
use esync_base::waitqueue::{
    AtomicWakerState, Context, MultiWakerRegistration, TaskId, WakerRegistration, Wakes,
};
use esync_notes::{holds, same};
use std::alloc::AllocError;
use std::process::Abort;

// Registers a waker, which hands out these.
fn registers(
    rt: &impl Abort,
    slot: &mut WakerRegistration<u32>,
    waker: u32,
    handed_out: Option<u32>,
) {
    let mut wakes: Wakes<u32, 1> = Wakes::new();
    slot.register(waker, &mut wakes);
    same!(rt; wakes.get(0), handed_out);
    holds!(rt; slot.occupied());
}

#[test]
fn an_equal_waker_stays_and_another_is_displaced(rt: HostRuntime) {
    let mut slot = WakerRegistration::new();
    holds!(rt; !slot.occupied());
    registers(&rt, &mut slot, 1, None);
    registers(&rt, &mut slot, 1, None);
    registers(&rt, &mut slot, 2, Some(1));
    let mut wakes: Wakes<u32, 1> = Wakes::new();
    slot.wake(&mut wakes);
    same!(rt; wakes.as_slice(), [Some(2)].as_slice());
    holds!(rt; !slot.occupied());
}

#[test]
fn an_empty_slot_hands_out_nothing(rt: HostRuntime) -> Result<(), AllocError> {
    let mut slot: WakerRegistration<TaskId> = WakerRegistration::default();
    let mut wakes: Wakes<TaskId, 2> = Wakes::new();
    slot.wake(&mut wakes);
    same!(rt; wakes.get(0), None);
    shows(&rt, rt.alloc(), &slot, "WakerRegistration { waker: None }")
}

#[test]
fn a_context_lends_its_waker(rt: HostRuntime) {
    same!(rt; Context::from_waker(TaskId(3)).waker(), TaskId(3));
}

type Pair = MultiWakerRegistration<u32, 2>;

// Registers a waker, which hands out these. The list isn't empty then.
fn lists(rt: &impl Abort, list: &mut Pair, waker: u32, handed_out: [Option<u32>; 2]) {
    let mut wakes: Wakes<u32, 2> = Wakes::new();
    list.register(waker, &mut wakes);
    same!(rt; wakes.as_slice(), handed_out.as_slice());
    holds!(rt; !list.is_empty());
}

// Wakes all that are listed, these. The list is empty then.
fn wakes_all(rt: &impl Abort, list: &mut Pair, handed_out: [Option<u32>; 2]) {
    let mut wakes: Wakes<u32, 2> = Wakes::new();
    list.wake(&mut wakes);
    same!(rt; wakes.as_slice(), handed_out.as_slice());
    holds!(rt; list.is_empty());
}

#[test]
fn a_full_list_is_handed_out_for_another(rt: HostRuntime) {
    let mut list = MultiWakerRegistration::new();
    holds!(rt; list.is_empty());
    lists(&rt, &mut list, 1, [None; 2]);
    lists(&rt, &mut list, 2, [None; 2]);
    lists(&rt, &mut list, 1, [None; 2]);
    lists(&rt, &mut list, 3, [Some(1), Some(2)]);
    wakes_all(&rt, &mut list, [Some(3), None]);
    wakes_all(&rt, &mut list, [None; 2]);
}

#[test]
fn an_atomic_waker_is_woken_again(rt: HostRuntime) {
    let mut waker = AtomicWakerState::new();
    let mut wakes: Wakes<u32, 3> = Wakes::new();
    waker.wake(&mut wakes);
    holds!(rt; wakes.is_empty());
    waker.register(1);
    waker.register(2);
    waker.wake(&mut wakes);
    waker.wake(&mut wakes);
    same!(rt; wakes.as_slice(), [Some(2), Some(2), None].as_slice());
}

#[test]
fn a_list_gives_its_wakers_in_order(rt: HostRuntime) {
    let mut wakes: Wakes<u32, 3> = Wakes::new();
    holds!(rt; wakes.iter().next().is_none());
    wakes.push(5);
    wakes.push(3);
    same!(rt; wakes.len(), 2);
    same!(rt; wakes.get(1), Some(3));
    let mut given = wakes.iter();
    same!(rt; (given.next(), given.next()), (Some(5), Some(3)));
    same!(rt; (given.next(), given.next()), (None, None));
}

#[test]
fn a_loop_goes_over_the_wakers_of_a_list(rt: HostRuntime) {
    let mut wakes: Wakes<u32, 3> = Wakes::new();
    wakes.push(5);
    wakes.push(3);
    let mut last = None;
    for waker in &wakes {
        last = Some(waker);
    }
    same!(rt; last, Some(3));
}
