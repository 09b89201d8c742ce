use embassy_sync::blocking_mutex::CriticalSectionMutex;
use embassy_sync::channel::ChannelState;
use embassy_sync::waitqueue::Wakes;
use esync_notes::{holds, same};
use std::sync::Wait;
use std::thread;

#[test]
fn a_mutex_lends_its_value(rt: HostRuntime) {
    let mut mutex = CriticalSectionMutex::new(1u32);
    same!(rt; mutex.lock(&rt, |value: &u32| *value), 1);
    mutex.lock_mut(&rt, |value: &mut u32| {
        *value = 2;
    });
    *mutex.get_mut() = mutex.lock(&rt, |value: &u32| *value).wrapping_add(1);
    same!(rt; mutex.into_inner(), 3);
}

type One = ChannelState<u32, u64, 1>;

fn sends(rt: &impl Wait, channel: &CriticalSectionMutex<One>) -> bool {
    channel.lock_mut(rt, |state: &mut One| {
        let mut wakes: Wakes<u64, 1> = Wakes::new();
        state.try_send(7, &mut wakes).is_ok()
    })
}

fn receives(rt: &impl Wait, channel: &CriticalSectionMutex<One>) -> Option<u32> {
    channel.lock_mut(rt, |state: &mut One| {
        let mut wakes: Wakes<u64, 1> = Wakes::new();
        state.try_receive(&mut wakes).ok()
    })
}

#[test]
fn two_threads_share_a_channel_state(rt: HostRuntime) {
    let channel: CriticalSectionMutex<One> = CriticalSectionMutex::new(ChannelState::new());
    let (sent, received) = thread::join(&rt, || sends(&rt, &channel), || receives(&rt, &channel));
    holds!(rt; sent);
    let left = channel.into_inner().len();
    holds!(rt; (received == Some(7) && left == 0) || (received == None && left == 1));
}
