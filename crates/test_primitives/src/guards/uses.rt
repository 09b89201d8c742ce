//! What is known of a value behind a guard: what was last written through the guard is what is read.
ghost use Rattle.std.specs.Prelude.{◌≡◌, ◌+◌, ◌<◌, IfOk};
ghost use Rattle.std.specs.Sync.Mutex.{mutex_guard_value};

use esync_base::waitqueue::Hand;
use esync_guards::mutex::{Mutex, MutexGuard, Second, TryLockError};

/// Writes the value through a guard, and reads it.
pub fn writes_seven<H: Hand<u64>>(mutex: &Mutex<u32, u64, H>) -> Result<u32, TryLockError>
    ensures { IfOk result (λ read. read ≡ 7) }
{
    let mut guard = mutex.try_lock()?;
    *guard.get_mut() = 7;
    let read = *guard.get();
    guard.end();
    Ok(read)
}

/// Reads the value twice. Nobody else writes it in between.
pub fn reads_twice<H: Hand<u64>>(mutex: &Mutex<u32, u64, H>) -> Result<(u32, u32), TryLockError>
    ensures { IfOk result (λ reads. reads.1 ≡ reads.0) }
{
    let guard = mutex.try_lock()?;
    let first = *guard.get();
    let second = *guard.get();
    guard.end();
    Ok((first, second))
}

/// Adds one to the value that a guard has.
pub fn adds_one<H: Hand<u64>>(guard: &mut MutexGuard<'_, u32, u64, H>)
    requires { mutex_guard_value guard.old < 100 }
    ensures { mutex_guard_value guard.new ≡ mutex_guard_value guard.old + 1 }
{
    let value = guard.get_mut();
    *value += 1;
}

/// Writes a part of the value through a guard that is narrowed to it, and reads it.
pub fn writes_a_part<H: Hand<u64>>(mutex: &Mutex<(u32, u32), u64, H>) -> Result<u32, TryLockError>
    ensures { IfOk result (λ read. read ≡ 7) }
{
    let mut guard = mutex.try_lock()?;
    *guard.get_mut() = (4, 6);
    let mut part = guard.map(Second {});
    let before = *part.get();
    prove!(before == 6);
    *part.get_mut() = 7;
    let read = *part.get();
    part.end();
    Ok(read)
}
