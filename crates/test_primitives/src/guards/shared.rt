use esync_guards::mutex::{Mutex, Second, TryLockError};
use esync_notes::{Deaf, Notes, same};
use std::process::Abort;

#[test]
fn a_mutex_of_a_value_has_it(rt: HostRuntime) {
    let mut mutex: Mutex<u32, u64, Deaf<HostRuntime>> = Mutex::from(5);
    *mutex.get_mut() = 6;
    same!(rt; mutex.into_inner(), 6);
}

#[test]
fn a_part_of_a_part_is_written(rt: HostRuntime) {
    let notes = Notes::new(&rt);
    let mutex = Mutex::new(((1u32, 2u32), (3u32, 4u32)), &notes);
    let guard = match mutex.try_lock() {
        Ok(guard) => guard,
        Err(TryLockError) => rt.abort(),
    };
    let mut part = guard.map(Second {}).map(Second {});
    same!(rt; *part.get(), 4);
    *part.get_mut() = 9;
    part.end();
    same!(rt; mutex.into_inner(), ((1, 2), (3, 9)));
}
