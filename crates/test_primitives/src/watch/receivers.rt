use esync_cells::watch::Watch;
use esync_notes::{Notes, holds};
use std::sync::Wait;

#[test]
fn a_watch_without_places_has_anonymous_receivers_alone(rt: HostRuntime) {
    let notes = Notes::new(&rt);
    let watch: Watch<u32, u64, _, 0> = Watch::new(&notes);
    holds!(rt; watch.receiver().is_none());
    let mut anonymous = watch.anon_receiver();
    holds!(rt; watch.sender().send(10) == Ok(()));
    holds!(rt; anonymous.try_get_and(|x| *x < 5) == Ok(None));
    holds!(rt; anonymous.try_changed_and(|x| *x > 5) == Ok(Some(10)));
    holds!(rt; anonymous.try_changed() == Ok(None));
    holds!(rt; anonymous.try_get() == Ok(Some(10)));
}

// A watch that so many receivers wait at, if there may be one whose calls hand out so many wakers.
fn with_room<'n, R: Wait, const N: usize>(
    notes: &'n Notes<'n, R>,
) -> Option<Watch<u32, u64, &'n Notes<'n, R>, N>> {
    if N < 65536 {
        return Some(Watch::new(notes));
    }
    None
}

#[test]
fn a_caller_compares_the_room_for_the_wakers_of_a_watch(rt: HostRuntime) {
    let notes = Notes::new(&rt);
    match with_room::<_, 3>(&notes) {
        Some(watch) => holds!(rt; watch.sender().send(10) == Ok(())),
        None => holds!(rt; false),
    }
}
