use esync_base::blocking_mutex::NoopMutex;
use esync_notes::same;

#[test]
fn a_value_without_a_lock_is_lent_changed_and_given_back(rt: HostRuntime) {
    let mut mutex = NoopMutex::new(7u32);
    same!(rt; *mutex.borrow(), 7);
    same!(rt; mutex.lock(|value| *value == 7), true);
    *mutex.get_mut() = 8;
    same!(rt; mutex.into_inner(), 8);
}
