//! Scripts over the shared forms of their primitives.
use crate::bad_line::Reason;
use crate::inputs::first_line;
use crate::stopped::Stopped;
use esync_script::opening::Opening;
use esync_shared::compare::compare;
use esync_shared::form::{Door, Doors};
use esync_shared::play::{opening_of, play};
use std::alloc::Global;
use std::io::Write;
use std::sync::Wait;

/// Plays a script over a shared form, and writes its replies.
pub fn played<R: Wait, O: Write>(
    rt: &R,
    alloc: Global,
    text: &str,
    output: &mut O,
) -> Result<bool, Stopped> {
    is_shared(alloc, text)?;
    play(rt, alloc, Doors::from(Door::Own), text, output)?;
    Ok(true)
}

/// Whether a shared form answers as the machine does, by each way, which is written.
pub fn compared<R: Wait, O: Write>(
    rt: &R,
    alloc: Global,
    text: &str,
    output: &mut O,
) -> Result<bool, Stopped> {
    is_shared(alloc, text)?;
    let found = compare(rt, alloc, text)?;
    writeln!(output, "{found}")?;
    Ok(found.is_alike())
}

// That scripts can play the shared form of what line 1 names, if that is a primitive.
fn is_shared(alloc: Global, text: &str) -> Result<(), Stopped> {
    let line = first_line(text);
    let (column, text) = match opening_of(line) {
        Some(Opening::Lazy(_)) => {
            let why = "the shared form of lazy can't be played by scripts";
            (1, String::from_str(alloc, why)?)
        }
        Some(Opening::PubSub(_, first, _)) if first > 0 => {
            let number = line.split(' ').last().unwrap_or("");
            let before = line.len().saturating_sub(number.len());
            let text = format!(in alloc; "{number}: a shared pubsub begins at message 0")?;
            (before.saturating_add(1), text)
        }
        // (a line 1 that names none is told of when the script is played)
        _ => return Ok(()),
    };
    Err(Stopped::BadLine(1, Reason { column, text }))
}
