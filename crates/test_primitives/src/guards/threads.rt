use esync_base::waitqueue::{Context, Hand, Poll};
use esync_guards::mutex::{Mutex, TryLockError};
use esync_notes::{Deaf, same};
use std::process::Abort;
use std::sync::Wait;
use std::sync::atomic::{AtomicU32, Ordering};
use std::thread;

// Adds one under the lock, so many times. It tries until it has the lock.
fn adds<H: Hand<u64>>(rt: &impl Wait, mutex: &Mutex<u32, u64, H>, rounds: u32) {
    for _round in 0..rounds {
        for _try in rt.forever() {
            if let Ok(mut guard) = mutex.try_lock() {
                let value = guard.get_mut();
                *value = value.wrapping_add(1);
                break;
            }
        }
    }
}

#[test]
fn what_two_threads_add_under_the_lock_is_all_there(rt: HostRuntime) {
    let mutex: Mutex<u32, u64, Deaf<HostRuntime>> = Mutex::default();
    let shared = &mutex;
    let here = &rt;
    thread::scope(thread::scope_env(), here, |scope| {
        for _thread in 0..2 {
            if scope.spawn(move || adds(here, shared, 10_000)).is_err() {
                adds(here, shared, 10_000);
            }
        }
    });
    same!(rt; mutex.into_inner(), 20_000);
}

const NOT_TRIED: u32 = 0;

const REFUSED: u32 = 1;

const LOCKED: u32 = 2;

// Tries the lock, and tells by the flag what it was answered.
fn tells<H: Hand<u64>>(mutex: &Mutex<u32, u64, H>, flag: &AtomicU32) {
    let heard = match mutex.try_lock() {
        Ok(_guard) => LOCKED,
        Err(TryLockError) => REFUSED,
    };
    flag.store(heard, Ordering::SeqCst);
}

// Reads the flag until it tells something, at most so many times. Between two reads other threads may run.
fn awaits(flag: &AtomicU32, reads: u32) -> u32 {
    for _read in 0..reads {
        let told = flag.load(Ordering::SeqCst);
        if told != NOT_TRIED {
            return told;
        }
        thread::yield_now();
    }
    NOT_TRIED
}

#[test]
fn another_thread_is_refused_while_a_guard_reads_and_writes(rt: HostRuntime) {
    let mutex: Mutex<u32, u64, Deaf<HostRuntime>> = Mutex::new(1, Deaf::default());
    let flag = AtomicU32::new(NOT_TRIED);
    let (shared, told, here) = (&mutex, &flag, &rt);
    thread::scope(thread::scope_env(), here, |scope| {
        let Ok(mut guard) = shared.try_lock() else {
            here.abort()
        };
        if scope.spawn(move || tells(shared, told)).is_err() {
            here.abort()
        }
        *guard.get_mut() = 7;
        same!(here; awaits(told, 50_000_000), REFUSED);
        same!(here; *guard.get(), 7);
        guard.end();
    });
    same!(rt; mutex.into_inner(), 7);
}

const WOKEN: u32 = 3;

// A hand that lets another thread try the lock when it wakes, and then keeps what that was answered.
#[derive(Drop)]
struct Lets<'a, R> {
    rt: &'a R,
    woken: &'a AtomicU32,
    told: &'a AtomicU32,
}

impl<R: Wait> Hand<u64> for Lets<'_, R> {
    type Rt = R;

    fn rt(&self) -> &R {
        self.rt
    }

    fn wake(&self, _waker: u64) {
        self.woken.store(WOKEN, Ordering::SeqCst);
        let heard = awaits(self.told, 50_000_000);
        if heard != NOT_TRIED {
            self.woken.store(heard, Ordering::SeqCst);
        }
    }
}

// Tells what it is answered once it is woken.
fn tells_once_woken<H: Hand<u64>>(
    rt: &impl Wait,
    mutex: &Mutex<u32, u64, H>,
    woken: &AtomicU32,
    flag: &AtomicU32,
) {
    for _read in rt.forever() {
        if woken.load(Ordering::SeqCst) != NOT_TRIED {
            break;
        }
    }
    tells(mutex, flag);
}

#[test]
fn who_is_woken_can_lock_at_once(rt: HostRuntime) {
    let (woken, flag) = (AtomicU32::new(NOT_TRIED), AtomicU32::new(NOT_TRIED));
    let (asked, told, here) = (&woken, &flag, &rt);
    let mutex = Mutex::new(
        1u32,
        Lets {
            rt: here,
            woken: asked,
            told,
        },
    );
    let shared = &mutex;
    thread::scope(thread::scope_env(), here, |scope| {
        let Ok(guard) = shared.try_lock() else {
            here.abort()
        };
        if let Poll::Ready(_) = shared.lock().poll(&Context::from_waker(1)) {
            here.abort()
        }
        if scope
            .spawn(move || tells_once_woken(here, shared, asked, told))
            .is_err()
        {
            here.abort()
        }
        guard.end();
    });
    same!(rt; woken.load(Ordering::SeqCst), LOCKED);
}
