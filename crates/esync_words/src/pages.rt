//! A script as a document of Markdown, with its sequence diagram in pages.
ghost use Rattle.std.specs.Prelude.{◌≡◌, [], None, Option, OnOk, IfErr, slice_set};
ghost use Rattle.std.specs.Io.KnownBytes.{Appends};
ghost use Rattle.esync_base.specs.Rows.{items_of};
ghost use Rattle.esync_machine.specs.Numbers.{swept_place};
ghost use Rattle.esync_words.specs.Text.{each_text};
ghost use Rattle.esync_words.specs.Diagram.{nobody, noted_first, noted_next, waker_if_pending, waits_behind, is_woken, waits_still, waits_text, between_text, page_text, break_text, fence_text};
ghost use Rattle.esync_words.specs.Played.{IsJudged};

use crate::diagram::{print_head, print_step};
use crate::fault::Fault;
use crate::lines::LONGEST;
use crate::play::{Giver, Telling};
use crate::printing::is_empty;
use crate::vocabulary::{REQS, Vocabulary};
use arrayvec::ArrayString;
use esync_machine::primitive::Answer;
use std::io::{self, Write};
use std::marker::Model;

/// A telling as diagrams in a document of Markdown, each in a fence and of at most 50 lines, since viewers of Mermaid
/// take a limited diagram: 50,000 bytes by default. A page with long lines or hundreds of waiting requests can be longer.
///
/// Each page names the primitive as line 1 does, and begins with a note for each request that waits: its last poll was
/// answered Pending, and its waker wasn't handed out since. A request that ended when its subscriber or its publisher
/// left stays noted until its number is started, polled or ended again.
#[derive(Drop)]
pub struct Pages {
    name: ArrayString<LONGEST>,
    // For each number of a request, the waker with which it waits.
    waits: [Option<u64>; REQS],
}

impl Model for Pages {
    ghost use Rattle.esync_words.specs.Diagram.{Noted};

    ghost Value = { Noted };

    ghost view = { λ a. record { name = a.name.bytes; waits = a.waits } };
}

impl Pages {
    /// Returns a telling that has noted nothing yet.
    pub fn new() -> Self
        ensures { result ≡ noted_first [] }
    {
        Pages {
            name: ArrayString::new(),
            waits: nobody(),
        }
    }

    // Begins a new page if this line is the first of one.
    fn turn<W: Write>(&self, number: u64, output: &mut W) -> io::Result<()>
        ensures { OnOk result (Appends (W.contents output.old) (W.contents output.new) (break_text number self.now)) }
    {
        if number % 50 == 1 {
            print_page(number, self.name.as_str(), &self.waits, output)?;
        }
        Ok(())
    }

    // Notes which requests wait behind a command with this answer and these wakers.
    fn hear<A>(&mut self, giver: Giver, answer: &Answer<A>, wakers: &[Option<u64>])
        ensures { self.new ≡ noted_next self.old giver answer.now (items_of wakers.now) }
    {
        hear_command(&mut self.waits, giver, answer);
        hear_wakers(&mut self.waits, wakers);
    }
}

impl Telling for Pages {
    ghost use Rattle.esync_words.specs.Diagram.{pages_story};

    ghost story = { pages_story };

    ghost noted = { λ pages. pages };

    fn open<W: Write>(&mut self, line: &str, output: &mut W) -> Result<(), Fault> {
        self.name = ArrayString::from(line).map_err(|_| Fault::OutOfMemory)?;
        self.waits = nobody();
        print_fence(output)?;
        print_head(line, output)?;
        Ok(())
    }

    fn tell<V: Vocabulary, W: Write>(
        &mut self,
        number: u64,
        line: &str,
        giver: Giver,
        answer: &Answer<V::Heard>,
        wakers: &[Option<u64>],
        output: &mut W,
    ) -> Result<(), Fault> {
        let turned = self.turn(number, output);
        self.hear(giver, answer, wakers);
        turned?;
        print_step::<V, W>(number, line, giver, answer, wakers, output)?;
        Ok(())
    }

    fn close<W: Write>(&self, output: &mut W) -> Result<(), Fault> {
        writeln!(output, "```")?;
        Ok(())
    }
}

// Returns no waker for each number below `N`.
fn nobody<const N: usize>() -> [Option<u64>; N]
    ensures { result ≡ nobody N }
{
    [None; N]
}

fn hear_command<A>(waits: &mut [Option<u64>; REQS], giver: Giver, answer: &Answer<A>)
    ensures { waits.new ≡ waits_behind waits.old giver answer.now }
{
    match giver {
        Giver::Task { request, waker } => put(waits, request, waker_if_pending(waker, answer)),
        Giver::Starter(r) => {
            if let Answer::Done = answer {
                put(waits, r, None);
            }
        }
        Giver::Dropper(r) => put(waits, r, None),
        Giver::Caller => {}
    }
}

fn waker_if_pending<A>(waker: u64, answer: &Answer<A>) -> Option<u64>
    ensures { result ≡ waker_if_pending waker answer.now }
{
    match answer {
        Answer::Pending => Some(waker),
        _ => None,
    }
}

// Notes a request's waker. A number that is no request's changes nothing.
fn put(waits: &mut [Option<u64>; REQS], request: usize, waker: Option<u64>)
    ensures { waits.new ≡ slice_set waits.old request waker }
{
    if request < REQS {
        waits[request] = waker;
    }
}

// Forgets the requests whose wakers were handed out.
fn hear_wakers(waits: &mut [Option<u64>; REQS], wakers: &[Option<u64>])
    ensures { waits.new ≡ waits_still waits.old (items_of wakers.now) }
{
    if is_empty(wakers) {
        return;
    }
    for r in 0..REQS {
        waits[r] = unless_woken(waits[r], wakers);
    }
}

fn unless_woken(waker: Option<u64>, wakers: &[Option<u64>]) -> Option<u64>
    ensures { result ≡ swept_place (is_woken (items_of wakers.now)) waker }
{
    let own = waker?;
    if is_woken(own, wakers) {
        return None;
    }
    waker
}

fn is_woken(waker: u64, wakers: &[Option<u64>]) -> bool
    ensures { result ≡ is_woken (items_of wakers.now) waker }
{
    wakers.contains(&Some(waker))
}

fn print_page<W: Write>(
    number: u64,
    name: &str,
    waits: &[Option<u64>],
    output: &mut W,
) -> io::Result<()>
    ensures { OnOk result (Appends (W.contents output.old) (W.contents output.new) (page_text number (record { name = name.now; waits = waits.now }))) }
{
    print_between(number, output)?;
    print_fence(output)?;
    print_head(name, output)?;
    print_waits(waits, output)?;
    Ok(())
}

fn print_between<W: Write>(number: u64, output: &mut W) -> io::Result<()>
    ensures { OnOk result (Appends (W.contents output.old) (W.contents output.new) (between_text number)) }
{
    write!(output, "```\n\nFrom line {number}:\n\n")
}

fn print_fence<W: Write>(output: &mut W) -> io::Result<()>
    ensures { OnOk result (Appends (W.contents output.old) (W.contents output.new) fence_text) }
{
    writeln!(output, "```mermaid")
}

// Prints a note for each request that waits.
fn print_waits<W: Write>(waits: &[Option<u64>], output: &mut W) -> io::Result<()>
    ensures { OnOk result (Appends (W.contents output.old) (W.contents output.new) (each_text waits_text (items_of waits.now))) }
{
    for waker in waits {
        if let Some(waker) = waker {
            print_waiting(*waker, output)?;
        }
    }
    Ok(())
}

fn print_waiting<W: Write>(waker: u64, output: &mut W) -> io::Result<()>
    ensures { OnOk result (Appends (W.contents output.old) (W.contents output.new) (waits_text waker)) }
{
    writeln!(output, "    Note over task_{waker}: waits")
}
