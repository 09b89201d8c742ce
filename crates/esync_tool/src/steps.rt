//! The steps of a script, gathered while it is played.
ghost use Rattle.std.specs.Prelude.{◌≡◌, OnOk, IfErr};
ghost use Rattle.esync_words.specs.Played.{IsJudged};

use esync_base::waitqueue::Registered;
use esync_machine::primitive::{Answer, Command};
use esync_machine::run::Machine;
use esync_words::copied::Copied;
use esync_words::fault::Fault;
use esync_words::play::{Giver, Parts, Telling};
use esync_words::printing::print_answer;
use esync_words::vocabulary::{REQS, Vocabulary};
use std::alloc::{AllocError, Global};
use std::io::Write;

/// A line that was played, and what came of it.
#[derive(Drop)]
pub struct Step {
    pub number: u64,
    pub line: String,
    pub giver: Giver,
    /// The text of the answer.
    pub answer: String,
    /// It is Pending.
    pub is_pending: bool,
    /// The wakers that were handed out, in order.
    pub wakers: Vec<u64>,
    /// The requests that waited and that it ended, as a `leave` does.
    pub ended: Vec<usize>,
}

/// All steps of a script, of which nothing is written.
#[derive(Drop)]
pub struct Steps {
    alloc: Global,
    name: String,
    steps: Vec<Step>,
    // Which requests may wait.
    waits: [bool; REQS],
}

impl Steps {
    /// There is none yet.
    pub fn new(alloc: Global) -> Self {
        Steps {
            alloc,
            name: String::new(alloc),
            steps: Vec::new(alloc),
            waits: [false; REQS],
        }
    }

    /// Line 1.
    pub fn name(&self) -> &str {
        self.name.as_str()
    }

    pub fn steps(&self) -> &[Step] {
        &self.steps
    }

    // Notes that a request waits, or that it doesn't.
    fn put(&mut self, request: usize, waits: bool) {
        if let Some(place) = self.waits.get_mut(request) {
            *place = waits;
        }
    }

    // The requests that may wait and aren't there any more.
    fn gone<V, M>(&mut self, machine: &M) -> Result<Vec<usize>, AllocError>
    where
        V: Vocabulary,
        M: Machine<Command = Command<V::Ask, u64, V::Call>> + Copied + Drop,
        M::Reply: Parts<V::Heard> + Drop,
    {
        let mut gone = Vec::new(self.alloc);
        if !self.waits.contains(&true) {
            return Ok(gone);
        }
        let mut copy = machine.copied()?;
        for request in 0..REQS {
            let waits = self.waits.get(request) == Some(&true);
            if waits && is_gone::<V, M>(&mut copy, request) {
                self.put(request, false);
                gone.push(request)?;
            }
        }
        Ok(gone)
    }
}

// Whether the machine has no request of this number. It is polled, which ends no other request.
fn is_gone<V, M>(machine: &mut M, request: usize) -> bool
where
    V: Vocabulary,
    M: Machine<Command = Command<V::Ask, u64, V::Call>> + Drop,
    M::Reply: Parts<V::Heard> + Drop,
{
    let reply = machine.step(Command::Poll(request, u64::MAX));
    matches!(reply.answer(), Answer::NoSuch)
}

impl Telling for Steps {
    ghost use Rattle.esync_words.specs.Story.{silent_story};

    ghost story = { silent_story };

    ghost noted = { λ steps. tt };

    fn open<W: Write>(&mut self, line: &str, _output: &mut W) -> Result<(), Fault> {
        self.name = String::from_str(self.alloc, line).map_err(refused)?;
        Ok(())
    }

    fn tell<V: Vocabulary, W: Write>(
        &mut self,
        number: u64,
        line: &str,
        giver: Giver,
        answer: &Answer<V::Heard>,
        wakers: &[Option<u64>],
        _output: &mut W,
    ) -> Result<(), Fault> {
        match giver {
            Giver::Task { request, .. } => self.put(request, matches!(answer, Answer::Pending)),
            Giver::Dropper(request) => self.put(request, false),
            Giver::Starter(_) | Giver::Caller => {}
        }
        let step = Step {
            number,
            line: String::from_str(self.alloc, line).map_err(refused)?,
            giver,
            answer: text_of::<V>(self.alloc, answer)?,
            is_pending: matches!(answer, Answer::Pending),
            wakers: listed(self.alloc, wakers).map_err(refused)?,
            ended: Vec::new(self.alloc),
        };
        self.steps.push(step).map_err(|_| Fault::OutOfMemory)
    }

    fn look<V, M>(
        &mut self,
        giver: Giver,
        _wakers: &[Option<u64>],
        machine: &M,
    ) -> Result<(), Fault>
    where
        V: Vocabulary,
        M: Machine<Command = Command<V::Ask, u64, V::Call>>
            + Registered<Waker = u64>
            + Copied
            + Drop,
        M::Reply: Parts<V::Heard> + Drop,
    {
        if giver != Giver::Caller {
            return Ok(());
        }
        let gone = self.gone::<V, M>(machine).map_err(refused)?;
        if let Some(step) = self.steps.last_mut() {
            step.ended = gone;
        }
        Ok(())
    }

    fn close<W: Write>(&self, _output: &mut W) -> Result<(), Fault> {
        Ok(())
    }
}

fn refused(_: AllocError) -> Fault
    ensures { result ≡ Fault.OutOfMemory }
{
    Fault::OutOfMemory
}

// The text of an answer.
fn text_of<V: Vocabulary>(alloc: Global, answer: &Answer<V::Heard>) -> Result<String, Fault>
    ensures { IfErr result (λ fault. IsJudged (Err fault) → ⊥) }
{
    let mut text = Vec::new(alloc);
    print_answer::<V, Vec<u8>>(answer, &mut text)?;
    String::from_utf8(text).map_err(|_| Fault::InputOutput)
}

// The wakers of a row that may have empty places.
fn listed(alloc: Global, wakers: &[Option<u64>]) -> Result<Vec<u64>, AllocError> {
    let mut list = Vec::new(alloc);
    for waker in wakers.iter().flatten() {
        list.push(*waker)?;
    }
    Ok(list)
}
