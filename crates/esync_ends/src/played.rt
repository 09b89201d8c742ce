//! A machine that was given some lines of a script, and the states of its requests.
use crate::Delivery;
use crate::standing::{Standing, Standings};
use esync_machine::primitive::{Answer, Command};
use esync_machine::run::Machine;
use esync_words::copied::Copied;
use esync_words::play::Parts;
use std::alloc::AllocError;
use std::marker::PhantomData;
use std::ops::Range;

/// A machine of commands `Command<Q, u64, C>`, whose replies tell `A`, and the states of its requests.
#[derive(Drop)]
pub struct Played<Q, C, A, M: Drop> {
    machine: M,
    standings: Standings,
    commands: PhantomData<(Q, C, A)>,
}

impl<Q, C, A, M> Played<Q, C, A, M>
where
    Q: Copy,
    C: Copy,
    M: Machine<Command = Command<Q, u64, C>, Waker = u64> + Copied + Drop,
    M::Reply: Parts<A> + Drop,
{
    // Returns the machine, given no line yet.
    pub fn new(machine: M) -> Self {
        Played {
            machine,
            standings: Standings::new(),
            commands: PhantomData,
        }
    }

    // Returns the numbers that requests ever had, and those below them.
    pub fn numbers(&self) -> Range<usize> {
        self.standings.numbers()
    }

    // Returns the state of the request.
    pub fn standing(&self, request: usize) -> Standing {
        self.standings.of(request)
    }

    // Gives the machine one more command.
    pub fn step<D: Delivery>(&mut self, delivery: &D, command: &Command<Q, u64, C>) {
        let reply = self.machine.step(*command);
        self.standings
            .hear(delivery, command, reply.answer(), reply.wakers());
    }

    // Gives the machine these commands, one after another.
    pub fn go_on<D: Delivery>(&mut self, delivery: &D, commands: &[Command<Q, u64, C>]) {
        for command in commands {
            self.step(delivery, command);
        }
    }

    // Returns a copy in which the request was ended, if there is such a request.
    pub fn with_end<D: Delivery>(
        &self,
        delivery: &D,
        request: usize,
    ) -> Result<Option<Self>, AllocError> {
        let mut machine = self.machine.copied()?;
        let mut standings = self.standings;
        let end = Command::End(request);
        let reply = machine.step(end);
        if matches!(reply.answer(), Answer::NoSuch) {
            return Ok(None);
        }
        standings.hear(delivery, &end, reply.answer(), reply.wakers());
        Ok(Some(Played {
            machine,
            standings,
            commands: PhantomData,
        }))
    }

    // Returns whether a poll of the request now is answered Ready, or `None` if there is no such request.
    pub fn is_ready(&self, request: usize, waker: u64) -> Result<Option<bool>, AllocError> {
        let mut machine = self.machine.copied()?;
        let reply = machine.step(Command::Poll(request, waker));
        Ok(match reply.answer() {
            Answer::NoSuch => None,
            Answer::Done | Answer::Gives(_) => Some(true),
            Answer::Pending | Answer::NoMemory => Some(false),
        })
    }
}
