//! A script with each answer beside its command.
ghost use Rattle.std.specs.Prelude.{◌≡◌, ℕ, List, OnOk, IfErr, ◌++◌, ◌∷◌, []};
ghost use Rattle.std.specs.Io.KnownBytes.{Appends};
ghost use Rattle.esync_base.specs.Rows.{items_of};
ghost use Rattle.esync_words.specs.Beside.{spaces_behind, column_text};
ghost use Rattle.esync_words.specs.Played.{IsJudged};

use crate::fault::Fault;
use crate::play::{Giver, Telling};
use crate::printing::print_reply;
use crate::vocabulary::Vocabulary;
use esync_machine::primitive::Answer;
use std::io::{self, Write};

/// A telling of each line with its answer behind it, in a column of its own.
#[derive(Clone, Copy, Debug, PartialEq, Eq)]
pub struct Beside {}

impl Telling for Beside {
    ghost use Rattle.esync_words.specs.Beside.{beside_story};

    ghost story = { beside_story };

    ghost noted = { λ beside. tt };

    fn open<W: Write>(&mut self, line: &str, output: &mut W) -> Result<(), Fault> {
        writeln!(output, "{line}")?;
        Ok(())
    }

    fn tell<V: Vocabulary, W: Write>(
        &mut self,
        _number: u64,
        line: &str,
        _giver: Giver,
        answer: &Answer<V::Heard>,
        wakers: &[Option<u64>],
        output: &mut W,
    ) -> Result<(), Fault> {
        print_column(line, output)?;
        print_reply::<V, W>(answer, wakers, output)
    }

    fn close<W: Write>(&self, _output: &mut W) -> Result<(), Fault> {
        Ok(())
    }
}

// Returns the spaces behind a line of so many bytes, up to a column of 28.
fn spaces_behind(len: usize) -> &'static [u8]
    ensures { result.now ≡ spaces_behind len }
{
    let column = b"                            ";
    if len < 28 { &column[len..] } else { &[] }
}

fn print_column<W: Write>(line: &str, output: &mut W) -> io::Result<()>
    ensures { OnOk result (Appends (W.contents output.old) (W.contents output.new) (column_text line.now)) }
{
    write!(output, "{line}")?;
    output.write_all(spaces_behind(line.len()))?;
    write!(output, " ")
}
