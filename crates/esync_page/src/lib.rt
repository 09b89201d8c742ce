//! The calls of a page in a browser: a script is played or explained, or a recorded run is judged, in memory that the
//! page lends.
//!
//! Nothing is allocated, and nothing is imported from the page. The page grows the module's memory, puts a text there,
//! and lends it with rows for the output and a place for what else is told.
//!
//! | Status | The script | `line` |
//! |---|---|---|
//! | 0 | came to its end | 0 |
//! | 2 | has a line that is no command | its number |
//! | 4 | has answers, or notes, that don't fit into their row | 0 |
//!
//! | Status | The recorded run | `found` has |
//! |---|---|---|
//! | 0 | is a run of the primitive that line 1 names | how many `commands` |
//! | 1 | has a reply that the primitive doesn't give | the `line`, what was `recorded` and what is `given` |
//! | 2 | has a line that is no command | its number in `line`, and 0 in `unanswered` |
//! | 2 | has a line without a reply | its number in `unanswered`, and 0 in `line` |
//! | 4 | has a script or replies that don't fit into their rows | 0 in both |
#![tactic(auto)]

ghost use Rattle.std.specs.Prelude.{◌≡◌, [], Some, IfOk, IfErr, take};
ghost use Rattle.esync_check.specs.Checked.{IsRun, IsAnother};
ghost use Rattle.esync_page.specs.Ended.{line_of};
ghost use Rattle.esync_page.specs.Found.{IsFound, written};
ghost use Rattle.esync_script.specs.Opening.{runs, PlaysScript, status_of_outcome};
ghost use Rattle.esync_words.specs.Explained.{explained_story};
ghost use Rattle.esync_words.specs.Story.{replies_story};

use crate::found::Found;
use crate::row::Row;
use esync_check::check_script;
use esync_check::fault::Unchecked;
use esync_check::room::Room;
use esync_script::play_bytes;
use esync_words::explain::Explained;
use esync_words::fault::Fault;
use esync_words::play::{Replies, Telling};

pub mod found;
pub mod row;

/// Plays a script, writes its answers into a row, and returns its status. `play_into` says what is proved of the
/// answers.
#[unsafe(no_mangle)]
pub extern "C" fn play(text: &[u8], answers: &mut Row, line: &mut u64) -> u8 {
    ended(play_into(text, answers), line)
}

/// Plays a script, writes each line with its number and its answer into a row, and returns its status. To `notes` it
/// writes why each waker was handed out, which wakers are registered then, and what requests and questions would hear,
/// each note behind the number of its line. `explain_into` says what is proved of the answers.
#[unsafe(no_mangle)]
pub extern "C" fn explain(text: &[u8], answers: &mut Row, notes: &mut Row, line: &mut u64) -> u8 {
    ended(explain_into(text, answers, notes), line)
}

/// Judges a recorded run, stores what is found, and returns its status.
///
/// At status 0 the text is such a run, of so many commands. At status 1 the recorded reply of the stored line is the
/// first that the primitive doesn't give. Three rows are room for the script and the replies.
#[unsafe(no_mangle)]
pub extern "C" fn check(
    text: &[u8],
    script: &mut Row,
    replies: &mut Row,
    given: &mut Row,
    found: &mut Found,
) -> u8
    ensures run { result ≡ 0 → IsRun text.now found.new.commands }
    ensures another { result ≡ 1 → IsAnother text.now found.new.line (written found.new.recorded) (written found.new.given) }
{
    match check_into(text, script, replies, given, found) {
        Ok(true) => 0,
        Ok(false) => 1,
        Err(unchecked) => found.store_fault(unchecked),
    }
}

/// Plays a script, and writes its answers into the row, whose old bytes are forgotten.
///
/// The commands are those that the lines say, the replies are a run of the primitive that line 1 names, and the answers
/// are their text.
///
/// # Errors
///
/// Returns which line is no command, or that the row has no room.
pub fn play_into(text: &[u8], answers: &mut Row) -> Result<(), Fault>
    ensures plays { PlaysScript runs replies_story (Some text.now) (Some []) (Some (take answers.new.len answers.new.bytes)) result }
    ensures err { IfErr result (λ fault. fault ≡ Fault.InputOutput → ⊥) }
{
    answers.clear();
    match play_row(&mut Replies {}, text, answers) {
        Err(Fault::InputOutput) => Err(Fault::OutOfMemory),
        outcome => outcome,
    }
}

/// Plays a script, and writes its lines with their answers into a row, whose old bytes are forgotten. Writes the notes
/// into the row `notes`, each behind the number of its line. No contract speaks of the notes.
///
/// # Errors
///
/// Returns which line is no command, or that a row has no room.
pub fn explain_into<'n>(text: &[u8], answers: &mut Row, notes: &'n mut Row) -> Result<(), Fault>
    ensures plays { PlaysScript runs explained_story (Some text.now) (Some []) (Some (take answers.new.len answers.new.bytes)) result }
    ensures err { IfErr result (λ fault. fault ≡ Fault.InputOutput → ⊥) }
{
    answers.clear();
    notes.clear();
    match play_row(&mut Explained::numbered(notes), text, answers) {
        Err(Fault::InputOutput) => Err(Fault::OutOfMemory),
        outcome => outcome,
    }
}

/// Judges a recorded run, stores the verdict, and returns whether it is a run.
///
/// # Errors
///
/// Returns which line is no command or has no reply, if the replies before it are the primitive's, or `OutOfMemory` if
/// a row has no room. Then `found` may have parts of a verdict.
pub fn check_into(
    text: &[u8],
    script: &mut Row,
    replies: &mut Row,
    given: &mut Row,
    found: &mut Found,
) -> Result<bool, Unchecked>
    ensures ok { IfOk result (λ is_run. IsFound text.now is_run found.new) }
    ensures err { IfErr result (λ unchecked. unchecked ≡ Unchecked.Script Fault.InputOutput → ⊥) }
{
    let verdict = check_script(text, script, replies, given)?;
    Ok(found.store(&verdict)?)
}

// Plays a script, and writes what is told of it into an empty row.
fn play_row<T: Telling>(telling: &mut T, text: &[u8], row: &mut Row) -> Result<(), Fault>
    requires { take row.old.len row.old.bytes ≡ [] }
    ensures { PlaysScript runs T.story (Some text.now) (Some []) (Some (take row.new.len row.new.bytes)) result }
{
    play_bytes(telling, text, row)
}

// Returns the status of a script with this outcome, and stores the number of the line that is no command, or 0.
fn ended(outcome: Result<(), Fault>, line: &mut u64) -> u8
    ensures status { result ≡ status_of_outcome outcome }
    ensures line { line.new ≡ line_of outcome }
{
    *line = match outcome {
        Err(Fault::NotACommand(number)) => number,
        _ => 0,
    };
    match outcome {
        Ok(()) => 0,
        Err(fault) => fault.status(),
    }
}
