use esync_base::waitqueue::Wakes;
use esync_cells::watch::WatchState;
use esync_notes::same;
use std::process::Abort;

// Sends where no version is left.
fn sends_once_more() -> anyhow::Result<()> {
    let mut watch: WatchState<u32, u64, 1> = WatchState::new_at(u64::MAX);
    let mut wakes: Wakes<u64, 1> = Wakes::new();
    watch.send(1, &mut wakes)?;
    Ok(())
}

#[test]
fn an_exhausted_watch_says_why(rt: HostRuntime) -> anyhow::Result<()> {
    let Err(error) = sends_once_more() else {
        rt.abort()
    };
    let text = format!(in rt.alloc(); "{error}")?;
    same!(rt; text.as_str(), "the versions have run out");
    Ok(())
}
