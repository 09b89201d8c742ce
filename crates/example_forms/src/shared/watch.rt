use super::bell::Bell;
use embassy_sync::waitqueue::Context;
use embassy_sync::watch::{Rcv, Snd, Watch, WatchBehavior};
use std::io;
use std::sync::Wait;

/// A value whose changes two receivers hear. They may read it at any time.
pub fn example<R: Print + Wait>(rt: &R) -> io::Result<()> {
    let bell = Bell::new(rt);
    let watch: Watch<u8, u64, _, 2> = Watch::new(&bell);
    hear_and_read(rt, &watch.sender(), watch.receiver(), watch.dyn_receiver())
}

fn hear_and_read<B: WatchBehavior<Value = u8, Waker = u64>>(
    rt: &impl Print,
    snd: &Snd<'_, B>,
    rcv0: Option<Rcv<'_, B>>,
    rcv1: Option<Rcv<'_, B>>,
) -> io::Result<()> {
    let (Some(mut rcv0), Some(mut rcv1)) = (rcv0, rcv1) else {
        return println!(rt; "watch: no place for a receiver");
    };
    hear(rt, snd, &mut rcv0)?;
    read(rt, snd, &mut rcv1)
}

// Each change is heard once, by a poll or a try.
fn hear<B: WatchBehavior<Value = u8, Waker = u64>>(
    rt: &impl Print,
    snd: &Snd<'_, B>,
    rcv: &mut Rcv<'_, B>,
) -> io::Result<()> {
    let none = rcv.try_changed();
    let sent = snd.send(10);
    let changed = rcv.changed().poll(&Context::from_waker(1));
    let unchanged = rcv.try_changed();
    println!(rt; "watch: {none:?}, {sent:?}, {changed:?}, {unchanged:?}")
}

// `get` marks the value as seen, and also returns when it is unchanged.
fn read<B: WatchBehavior<Value = u8, Waker = u64>>(
    rt: &impl Print,
    snd: &Snd<'_, B>,
    rcv: &mut Rcv<'_, B>,
) -> io::Result<()> {
    let sent = snd.send(20);
    let got = rcv.get().poll(&Context::from_waker(1));
    let unchanged = rcv.try_changed();
    let again = rcv.get().poll(&Context::from_waker(1));
    println!(rt; "watch: {sent:?}, {got:?}, {unchanged:?}, {again:?}")
}
