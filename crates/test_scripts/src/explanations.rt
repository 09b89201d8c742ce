use esync_notes::same;
use esync_script::explain;
use std::io::{self, Write};
use std::test::Fail;

/// A writer of which every write fails.
#[derive(Drop)]
struct Closed {}

impl Write for Closed {
    fn write(&mut self, _buf: &[u8]) -> io::Result<usize> {
        Ok(0)
    }

    fn flush(&mut self) -> io::Result<()> {
        Ok(())
    }
}

#[test]
fn an_explanation_ends_where_a_note_is_not_written(rt: HostRuntime) -> Result<(), Fail> {
    let alloc = rt.alloc();
    let (mut output, mut errors) = (Vec::new(alloc), Vec::new(alloc));
    let input = "signal 1\nsignal 5\nsignal 6\n";
    let status = explain(alloc, input.as_bytes(), &mut output, Closed {}, &mut errors);
    same!(rt;
        str::from_utf8(&output)?,
        "1: signal 1\n2: signal 5\n   Ok | -\n"
    );
    same!(rt; str::from_utf8(&errors)?, "input or output failed\n");
    same!(rt; status, 3);
    Ok(())
}
