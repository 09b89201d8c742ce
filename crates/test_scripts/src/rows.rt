//! Scripts in memory whose answers go to a row of a fixed size.
use esync_notes::same;
use esync_script::play_bytes;
use esync_words::fault::Fault;
use esync_words::play::Replies;
use std::io::Cursor;
use std::test::Fail;

const SCRIPT: &[u8] = b"zerocopy 2\ntry-send\nwrite 7\ndone-send\ntry-receive\n";

#[test]
fn a_script_in_memory_is_answered_in_a_row(rt: HostRuntime) -> Result<(), Fail> {
    let mut row = [0u8; 64];
    let mut output = Cursor::new(&mut row[..]);
    let outcome = play_bytes(&mut Replies {}, SCRIPT, &mut output);
    let count = output.position() as usize;
    same!(rt; outcome, Ok(()));
    let answers = row.get(..count).unwrap_or(&[]);
    same!(rt;
        str::from_utf8(answers)?,
        "Some(0) | -\nOk | -\nOk | -\nSome(0,7) | -\n"
    );
    Ok(())
}

#[test]
fn a_row_without_room_ends_a_script(rt: HostRuntime) {
    let mut row = [0u8; 20];
    let mut output = Cursor::new(&mut row[..]);
    let outcome = play_bytes(&mut Replies {}, SCRIPT, &mut output);
    same!(rt; outcome, Err(Fault::InputOutput));
}
