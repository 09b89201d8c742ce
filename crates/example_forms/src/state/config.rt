use embassy_sync::waitqueue::{Context, Poll, Wakes};
use embassy_sync::watch::WatchState;
use std::io;

const TASK: u64 = 1;

/// A configuration that tasks watch. A task that waits for a change is woken when one comes, and reads each change once.
pub fn example(rt: &impl Print) -> io::Result<()> {
    // The baud rate that the device begins with is no news. There are places for two tasks that wait.
    let mut baud_rate: WatchState<u32, u64, 2> = WatchState::new_with(9600);
    let mut seen = 0;
    let news = baud_rate.try_changed(&mut seen);
    prove!(news == Ok(None));
    let begins = baud_rate.try_get(&mut seen);
    prove!(begins == Ok(Some(9600)));
    println!(rt; "begins with: {begins:?}")?;

    // A task waits for a change.
    let mut wakes: Wakes<u64, 2> = Wakes::new();
    let waits = baud_rate.poll_changed(&mut seen, &Context::from_waker(TASK), &mut wakes);
    prove!(waits == Ok(Poll::Pending));
    prove!(wakes.is_empty());

    // A change is sent, and the task is handed out.
    let sent = baud_rate.send(115_200, &mut wakes);
    prove!(sent == Ok(()));
    prove!(wakes.len() == 1);
    let first = wakes.get(0);
    prove!(first == Some(TASK));
    println!(rt; "to wake: {first:?}")?;

    // Polled again, the task reads the change, and then there is no further one.
    let mut wakes: Wakes<u64, 2> = Wakes::new();
    let comes = baud_rate.poll_changed(&mut seen, &Context::from_waker(TASK), &mut wakes);
    prove!(comes == Ok(Poll::Ready(115_200)));
    let news = baud_rate.try_changed(&mut seen);
    prove!(news == Ok(None));
    println!(rt; "changed to: {comes:?}")
}
