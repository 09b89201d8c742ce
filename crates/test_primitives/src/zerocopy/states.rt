use esync_zerocopy::zerocopy_channel::ChannelState;
use std::test::Fail;

#[test]
fn a_channel_shows_its_slots(rt: HostRuntime) -> Result<(), Fail> {
    let channel: ChannelState<u32, u64> = ChannelState::new(vec![in rt.alloc(); 5, 6]?);
    let shown = format!(in rt.alloc(); "{channel:?}")?;
    assert!(rt;
        shown.starts_with("RowState { slots: [5, 6], turns: Turns {"),
        "{shown}"
    );
    Ok(())
}
