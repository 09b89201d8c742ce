//! A script with an explanation of each line: why each waker was handed out, which wakers are registered where after
//! the line, what a poll of each request would hear then, and what the primitive would answer.
ghost use Rattle.std.specs.Prelude.{◌≡◌, ◌≤◌, ◌⊎◌, ℕ, List, [], ◌∷◌, length, true, false, OnOk, IfErr, Err, ◌++◌, codes};
ghost use Rattle.std.specs.Io.KnownBytes.{Appends};
ghost use Rattle.esync_base.specs.Rows.{items_of};
ghost use Rattle.esync_words.specs.Explained.{numbered_text};
ghost use Rattle.esync_words.specs.Played.{IsJudged};

use crate::copied::Copied;
use crate::fault::Fault;
use crate::play::{Giver, Parts, Telling};
use crate::printing::{print_answer, print_reply};
use crate::vocabulary::{Place, REQS, Vocabulary, read_command};
use crate::words::Words;
use arrayvec::ArrayVec;
use esync_base::waitqueue::Registered;
use esync_machine::primitive::{Answer, Command};
use esync_machine::run::Machine;
use std::fmt::{self, Display, Formatter};
use std::io::{self, Write};

// A waker that is registered at a place.
#[derive(Clone, Copy, Default, PartialEq, Eq)]
struct Standing {
    place: usize,
    waker: u64,
}

// The wakers that are registered, place by place: the first of them, where there are more than a row has room for.
#[derive(Drop)]
struct Standings {
    row: ArrayVec<Standing, REQS>,
    // There was no room for some waker.
    others: bool,
}

impl Standings {
    fn new() -> Self
        ensures row { result.row.items ≡ [] }
        ensures others { result.others ≡ false }
    {
        Standings {
            row: ArrayVec::new(),
            others: false,
        }
    }

    // Adds a waker, or notes that there are further ones.
    fn add(&mut self, standing: Standing)
        ensures { ((self.new.row.items ≡ self.old.row.items ++ standing ∷ []) × (self.new.others ≡ self.old.others)) ⊎ ((REQS ≤ length self.old.row.items) × (self.new ≡ record self.old { others = true })) }
    {
        if self.row.is_full() {
            self.others = true;
        } else {
            self.row.push(standing);
        }
    }
}

// The output for notes, and whether each note begins with the number of its line.
#[derive(Drop)]
struct Notes<N: Write + Drop> {
    output: N,
    is_numbered: bool,
    number: u64,
}

impl<N: Write + Drop> Notes<N> {
    // Writes the text in front of a note.
    fn begin(&mut self) -> io::Result<()> {
        if self.is_numbered {
            write!(self.output, "{}: ", self.number)
        } else {
            write!(self.output, "   ")
        }
    }
}

/// A telling of each line with its number and its answer. It writes notes: why each waker was handed out, which wakers
/// are registered then, and what requests and questions would hear.
#[derive(Drop)]
pub struct Explained<N: Write + Drop> {
    notes: Notes<N>,
    // The wakers that were registered behind the line before.
    before: Standings,
}

impl<N: Write + Drop> Explained<N> {
    /// Returns a telling that writes its notes to `notes`, each behind three spaces. At first no waker is registered.
    pub fn new(notes: N) -> Self {
        Explained::with(notes, false)
    }

    /// Returns a telling that writes its notes to `notes`, each behind the number of its line and a colon. At first no
    /// waker is registered.
    pub fn numbered(notes: N) -> Self {
        Explained::with(notes, true)
    }

    fn with(output: N, is_numbered: bool) -> Self {
        Explained {
            notes: Notes {
                output,
                is_numbered,
                number: 1,
            },
            before: Standings::new(),
        }
    }
}

impl<N: Write + Drop> Telling for Explained<N> {
    ghost use Rattle.esync_words.specs.Explained.{explained_story};

    ghost story = { explained_story };

    ghost noted = { λ explained. tt };

    fn open<W: Write>(&mut self, line: &str, output: &mut W) -> Result<(), Fault> {
        print_line(1, line, output)?;
        Ok(())
    }

    fn tell<V: Vocabulary, W: Write>(
        &mut self,
        number: u64,
        line: &str,
        _giver: Giver,
        answer: &Answer<V::Heard>,
        wakers: &[Option<u64>],
        output: &mut W,
    ) -> Result<(), Fault> {
        self.notes.number = number;
        print_line(number, line, output)?;
        write!(output, "   ")?;
        print_reply::<V, W>(answer, wakers, output)
    }

    fn look<V, M>(&mut self, giver: Giver, wakers: &[Option<u64>], machine: &M) -> Result<(), Fault>
    where
        V: Vocabulary,
        M: Machine<Command = Command<V::Ask, u64, V::Call>>
            + Registered<Waker = u64>
            + Copied
            + Drop,
        M::Reply: Parts<V::Heard> + Drop,
    {
        let now = registered::<V, M>(machine);
        for waker in wakers {
            if let Some(waker) = waker {
                explain::<V, N>(*waker, giver, &self.before.row, &now.row, &mut self.notes)?;
            }
        }
        note_standing::<V, N>(&now.row, &mut self.notes)?;
        if now.others {
            self.notes.begin()?;
            writeln!(self.notes.output, "others are registered too")?;
        }
        note_requests::<V, M, N>(machine, &mut self.notes)?;
        note_questions::<V, M, N>(machine, &mut self.notes)?;
        self.before = now;
        Ok(())
    }

    fn close<W: Write>(&self, _output: &mut W) -> Result<(), Fault> {
        Ok(())
    }
}

fn print_line<W: Write>(number: u64, line: &str, output: &mut W) -> io::Result<()>
    ensures { OnOk result (Appends (W.contents output.old) (W.contents output.new) (numbered_text number line.now)) }
{
    writeln!(output, "{number}: {line}")
}

// Returns all wakers that are registered, place by place.
fn registered<V: Vocabulary, M: Registered<Waker = u64>>(machine: &M) -> Standings {
    let mut all = Standings::new();
    for place in 0..usize::MAX {
        if V::place(place).is_none() {
            return all;
        }
        for i in 0..usize::MAX {
            let Some(waker) = machine.registered(place, i) else {
                break;
            };
            all.add(Standing { place, waker });
        }
    }
    all
}

// The reason why a waker that was registered at a place was handed out, if that place is the cause.
#[derive(Clone, Copy)]
enum Reason {
    // The event that the waker waits for has come.
    Told,
    // The task of this waker took its place.
    Displaced(u64),
}

fn reason_of(
    waker: u64,
    giver: Giver,
    number: usize,
    place: Place,
    before: &[Standing],
    now: &[Standing],
) -> Option<Reason> {
    let stands = |waker: u64| Standing {
        place: number,
        waker,
    };
    if !before.contains(&stands(waker)) {
        return None;
    }
    if now.contains(&stands(waker)) && !place.stays {
        return None;
    }
    match giver {
        Giver::Task { waker: own, .. }
            if now.contains(&stands(own)) && !before.contains(&stands(own)) => {
            Some(Reason::Displaced(own))
        }
        _ => Some(Reason::Told),
    }
}

// Notes why the waker was handed out: for each place that it left, or else that the step handed out its own waker.
fn explain<V: Vocabulary, N: Write + Drop>(
    waker: u64,
    giver: Giver,
    before: &[Standing],
    now: &[Standing],
    notes: &mut Notes<N>,
) -> io::Result<()> {
    let mut is_own = true;
    for number in 0..usize::MAX {
        let Some(place) = V::place(number) else {
            break;
        };
        if let Some(reason) = reason_of(waker, giver, number, place, before, now) {
            is_own = false;
            note(waker, place, reason, notes)?;
        }
    }
    if is_own {
        notes.begin()?;
        writeln!(
            notes.output,
            "{waker} is told to poll again by its own poll"
        )?;
    }
    Ok(())
}

// Notes the wakers at each place that has one.
fn note_standing<V: Vocabulary, N: Write + Drop>(
    now: &[Standing],
    notes: &mut Notes<N>,
) -> io::Result<()> {
    for number in 0..usize::MAX {
        let Some(place) = V::place(number) else {
            break;
        };
        note_place(number, place.name, now, notes)?;
    }
    Ok(())
}

fn note_place<N: Write + Drop>(
    number: usize,
    name: &str,
    now: &[Standing],
    notes: &mut Notes<N>,
) -> io::Result<()> {
    if now.iter().all(|standing| standing.place != number) {
        return Ok(());
    }
    notes.begin()?;
    write!(notes.output, "{name}:")?;
    for standing in now {
        if standing.place == number {
            write!(notes.output, " {}", standing.waker)?;
        }
    }
    writeln!(notes.output)
}

fn note<N: Write + Drop>(
    waker: u64,
    place: Place,
    reason: Reason,
    notes: &mut Notes<N>,
) -> io::Result<()> {
    notes.begin()?;
    write!(notes.output, "{waker} stood at {}: ", place.name)?;
    match reason {
        Reason::Told => writeln!(notes.output, "{}", place.event),
        Reason::Displaced(own) => writeln!(notes.output, "{own} took its place"),
    }
}

// The waker with which a copy is polled. It wakes nothing.
const NOBODY: u64 = u64::MAX;

// Returns the reply of a copy of the machine to this command.
fn reply_of<V, M>(machine: &M, command: M::Command) -> Result<M::Reply, Fault>
where
    V: Vocabulary,
    M: Machine<Command = Command<V::Ask, u64, V::Call>> + Copied + Drop,
    ensures { IfErr result (λ fault. IsJudged (Err fault) → ⊥) }
{
    let mut copy = machine.copied().map_err(|_| Fault::OutOfMemory)?;
    Ok(copy.step(command))
}

// Notes of each request what a poll of it would hear now.
fn note_requests<V, M, N>(machine: &M, notes: &mut Notes<N>) -> Result<(), Fault>
where
    V: Vocabulary,
    M: Machine<Command = Command<V::Ask, u64, V::Call>> + Copied + Drop,
    M::Reply: Parts<V::Heard> + Drop,
    N: Write + Drop,
    ensures { IfErr result (λ fault. IsJudged (Err fault) → ⊥) }
{
    for r in 0..REQS {
        if machine.stands(r) {
            let reply = reply_of::<V, M>(machine, Command::Poll(r, NOBODY))?;
            note_request::<V, N>(r, reply.answer(), notes)?;
        }
    }
    Ok(())
}

fn note_request<V: Vocabulary, N: Write + Drop>(
    r: usize,
    answer: &Answer<V::Heard>,
    notes: &mut Notes<N>,
) -> Result<(), Fault>
    ensures { IfErr result (λ fault. IsJudged (Err fault) → ⊥) }
{
    if let Answer::NoSuch = answer {
        return Ok(());
    }
    notes.begin()?;
    write!(notes.output, "request {r} would hear ")?;
    print_answer::<V, N>(answer, &mut notes.output)?;
    writeln!(notes.output)?;
    Ok(())
}

// Notes in one line the answers that these words' questions would get now.
fn note_questions<V, M, N>(machine: &M, notes: &mut Notes<N>) -> Result<(), Fault>
where
    V: Vocabulary,
    M: Machine<Command = Command<V::Ask, u64, V::Call>> + Copied + Drop,
    M::Reply: Parts<V::Heard> + Drop,
    N: Write + Drop,
    ensures { IfErr result (λ fault. IsJudged (Err fault) → ⊥) }
{
    let mut is_first = true;
    if !V::questions().is_empty() {
        is_first = note_all::<V, M, N>(machine, notes)?;
    }
    for r in 0..REQS {
        if let Some((name, call)) = V::question_of(r)
            && machine.stands(r)
        {
            let question = Question {
                name,
                request: Some(r),
            };
            let reply = reply_of::<V, M>(machine, Command::Call(call))?;
            if note_question::<V, N>(is_first, question, reply.answer(), notes)? {
                is_first = false;
            }
        }
    }
    if !is_first {
        writeln!(notes.output)?;
    }
    Ok(())
}

// Notes the answers to the questions that name no request. Returns whether none was noted. One copy hears them all,
// since only the last may change it.
fn note_all<V, M, N>(machine: &M, notes: &mut Notes<N>) -> Result<bool, Fault>
where
    V: Vocabulary,
    M: Machine<Command = Command<V::Ask, u64, V::Call>> + Copied + Drop,
    M::Reply: Parts<V::Heard> + Drop,
    N: Write + Drop,
    ensures { IfErr result (λ fault. IsJudged (Err fault) → ⊥) }
{
    let mut copy = machine.copied().map_err(|_| Fault::OutOfMemory)?;
    let mut is_first = true;
    for name in V::questions() {
        if let Some(command) = read_command::<V>(Words::of(name)) {
            let question = Question {
                name: *name,
                request: None,
            };
            let reply = copy.step(command);
            if note_question::<V, N>(is_first, question, reply.answer(), notes)? {
                is_first = false;
            }
        }
    }
    Ok(is_first)
}

// A question by its name, and the request of which it is asked, if it is asked of one.
#[derive(Clone, Copy)]
struct Question {
    name: &'static str,
    request: Option<usize>,
}

impl Display for Question {
    fn fmt<W: fmt::Write>(&self, f: &mut Formatter<W>) -> fmt::Result {
        match self.request {
            Some(request) => write!(f, "{} {request}", self.name),
            None => write!(f, "{}", self.name),
        }
    }
}

// Notes the answer that a question would get, behind the question before it. Returns `false` if the answer is NoSuch.
fn note_question<V: Vocabulary, N: Write + Drop>(
    is_first: bool,
    question: Question,
    answer: &Answer<V::Heard>,
    notes: &mut Notes<N>,
) -> Result<bool, Fault>
    ensures { IfErr result (λ fault. IsJudged (Err fault) → ⊥) }
{
    if let Answer::NoSuch = answer {
        return Ok(false);
    }
    if is_first {
        notes.begin()?;
    } else {
        write!(notes.output, ", ")?;
    }
    write!(notes.output, "{question}: ")?;
    print_answer::<V, N>(answer, &mut notes.output)?;
    Ok(true)
}
