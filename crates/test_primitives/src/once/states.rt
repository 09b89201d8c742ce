use esync_cells::lazy_lock::{Given, LazyState};
use esync_cells::once_lock::{InitError, OnceState};
use esync_notes::{holds, same};
use std::alloc::AllocError;

#[test]
fn a_value_is_made_where_there_is_none(rt: HostRuntime) {
    let mut once: OnceState<u32, u64> = OnceState::new();
    let mut calls = 0u8;
    let made = *once.get_or_init(|| {
        calls = 1;
        5
    });
    same!(rt; made, 5);
    same!(rt; calls, 1);
    let shown = *once.get_or_init(|| {
        calls = 2;
        6
    });
    same!(rt; shown, 5);
    same!(rt; calls, 1);
    same!(rt; once.into_inner(), Some(5));
    let never: OnceState<u32, u64> = OnceState::new();
    same!(rt; never.into_inner(), None);
    same!(rt; InitError::Set(7u32).into_value(), 7);
}

#[test]
fn the_locks_show_their_value(rt: HostRuntime) -> Result<(), AllocError> {
    let mut once: OnceState<u32, u64> = OnceState::new();
    holds!(rt; once.init(3) == Ok(()));
    let shown = format!(in rt.alloc(); "{once:?}")?;
    assert!(rt; shown.starts_with("OnceState { data: Some(3)"), "{shown}");
    let lazy = LazyState::new(Given { value: 4u32 });
    let shown = format!(in rt.alloc(); "{lazy:?}")?;
    same!(rt;
        shown.as_str(),
        "LazyState { data: None, maker: Given { value: 4 } }"
    );
    Ok(())
}
