//! Sooner ends: whether a script that drops a request at any earlier point still wakes every task whose turn comes.
#![tactic(auto)]

use crate::played::Played;
use crate::standing::Standing;
use esync_base::waitqueue::Registered;
use esync_machine::primitive::Command;
use esync_machine::run::Machine;
use esync_script::capacity::AnyCapacity;
use esync_script::opening::play_with;
use esync_script::player::Player;
use esync_words::copied::Copied;
use esync_words::fault::Fault;
use esync_words::lines::{ByteSource, Lines};
use esync_words::play::Parts;
use esync_words::vocabulary::{Vocabulary, read_command};
use esync_words::words::Words;
use std::alloc::{AllocError, Global};
use std::fmt::{self, Debug, Display, Formatter};
use std::io::{Read, Write};

pub mod gauge;
mod played;
mod standing;

/// The way in which wakers that are handed out reach their tasks.
pub trait Delivery: Drop {
    /// Returns whether the task of this waker hears of a step that hands out these wakers, in a row that may have empty
    /// places behind them.
    fn arrives(&self, waker: u64, wakers: &[Option<u64>]) -> bool;
}

/// A delivery by which each task hears of its waker.
#[derive(Drop)]
pub struct Reaches {}

impl Delivery for Reaches {
    fn arrives(&self, waker: u64, wakers: &[Option<u64>]) -> bool {
        wakers.contains(&Some(waker))
    }
}

/// A listener to the progress of what takes long, as a trial.
pub trait Progress: Drop {
    /// Hears how far it has come.
    fn hear<D: Display>(&mut self, done: &D);

    /// Hears that it is over.
    fn end(&mut self);
}

/// A listener that does nothing.
#[derive(Drop)]
pub struct Unheard {}

impl Progress for Unheard {
    fn hear<D: Display>(&mut self, _done: &D) {}

    fn end(&mut self) {}
}

/// Tries what would happen if one of the requests of a script was ended sooner, each request after each line: whether
/// each request that then waits was told.
///
/// The lines behind such an end are played too. Then each request that waits is polled with its last waker, on a copy
/// of the machine. A request that is answered Ready must have been told: its waker reached its task in its last poll or
/// since. If it didn't, one line says so, as `after line 3, end 1: request 2 is Ready and was not told`. The last line
/// says how many ends and polls were tried. A request that is answered `NoSuch` doesn't count: a subscriber that leaves
/// ends its requests.
///
/// It tries at most `limit` ends, those after the first lines. If there are more, the last line says so. Each end plays
/// the lines behind it, so the time grows as the square of the number of lines.
pub fn try_ends<D: Delivery, P: Progress, W: Write>(
    alloc: Global,
    delivery: D,
    progress: P,
    text: &str,
    limit: u64,
    output: &mut W,
) -> Result<bool, Fault> {
    let mut lines = Lines::new(text.as_bytes());
    let mut trial = Trial {
        alloc,
        delivery,
        progress,
        limit,
        tried: Tried::default(),
    };
    let outcome = play_with::<AnyCapacity, _, _, _>(&mut trial, &mut lines, output);
    trial.progress.end();
    outcome?;
    Ok(trial.tried.untold == 0)
}

// The counts of a trial.
#[derive(Clone, Copy, Debug, Default)]
struct Tried {
    // How many ends were tried.
    ends: u64,
    // How many polls of requests that wait were tried, behind the ends.
    polls: u64,
    // How many polls were Ready though the request wasn't told.
    untold: u64,
    // Whether there are more ends than the limit.
    is_cut: bool,
}

// How far a trial has come: the ends after this line, of so many lines, were tried, and how many ends in all.
#[derive(Clone, Copy)]
struct Reached {
    line: u64,
    lines: u64,
    ends: u64,
}

impl Display for Reached {
    fn fmt<W: fmt::Write>(&self, f: &mut Formatter<W>) -> fmt::Result {
        let Reached { line, lines, ends } = self;
        write!(f, "line {line} of {lines}, {ends} ends tried")
    }
}

// A trial: it goes through a script, and tries the sooner ends of its requests.
#[derive(Drop)]
struct Trial<D: Delivery, P: Progress> {
    alloc: Global,
    delivery: D,
    progress: P,
    // The greatest number of ends that are tried.
    limit: u64,
    tried: Tried,
}

impl<D: Delivery, P: Progress, R: ByteSource, W: Write> Player<R, W> for Trial<D, P> {
    ghost plays = { λ old new Q C A Reply M says text answer wakes object registered n left before after outcome. Unit {0} };

    fn play<V, M>(&mut self, machine: M, lines: &mut Lines<R>, output: &mut W) -> Result<(), Fault>
    where
        V: Vocabulary,
        V::Ask: Copy,
        V::Call: Copy,
        M: Machine<Command = Command<V::Ask, u64, V::Call>, Waker = u64>
            + Copied
            + Registered<Waker = u64>
            + Drop,
        M::Reply: Parts<V::Heard> + Drop,
    {
        let commands = read_commands::<V, R, W>(self.alloc, lines, output)?;
        self.try_all(Played::new(machine), &commands, output)?;
        let Tried {
            ends,
            polls,
            untold,
            is_cut,
        } = self.tried;
        let more = if is_cut { "; there are more ends" } else { "" };
        writeln!(
            output,
            "{ends} ends, {polls} polls, {untold} not told{more}"
        )?;
        output.flush()?;
        Ok(())
    }
}

// Returns the commands of all lines that are left.
fn read_commands<V, R, W>(
    alloc: Global,
    lines: &mut Lines<R>,
    output: &mut W,
) -> Result<Vec<Command<V::Ask, u64, V::Call>>, Fault>
where
    V: Vocabulary,
    R: ByteSource,
    W: Write,
{
    let mut commands = Vec::new(alloc);
    for _ in 0..u64::MAX {
        if !lines.read(output)? {
            return Ok(commands);
        }
        let line = lines.line()?;
        let Some(command) = read_command::<V>(Words::of(line)) else {
            return Err(lines.not_a_command());
        };
        commands.push(command).map_err(|_| Fault::OutOfMemory)?;
    }
    // No input has so many lines.
    Err(Fault::InputOutput)
}

fn refused(_: AllocError) -> Fault {
    Fault::OutOfMemory
}

impl<D: Delivery, P: Progress> Trial<D, P> {
    // Tries each end after each line.
    fn try_all<Q, C, A, M, W>(
        &mut self,
        machine: Played<Q, C, A, M>,
        commands: &[Command<Q, u64, C>],
        output: &mut W,
    ) -> Result<(), Fault>
    where
        Q: Copy,
        C: Copy,
        M: Machine<Command = Command<Q, u64, C>, Waker = u64> + Copied + Drop,
        M::Reply: Parts<A> + Drop,
        W: Write,
    {
        let mut machine = machine;
        let lines = (commands.len() as u64).saturating_add(1);
        for (place, command) in commands.iter().enumerate() {
            machine.step(&self.delivery, command);
            let rest = commands.get(place.saturating_add(1)..).unwrap_or(&[]);
            // (line 1 is no command)
            let line = (place as u64).saturating_add(2);
            self.try_line(&machine, line, rest, output)?;
            if self.tried.is_cut {
                break;
            }
            let ends = self.tried.ends;
            self.progress.hear(&Reached { line, lines, ends });
        }
        Ok(())
    }

    // Ends each request that is there after this line, and plays the lines behind it.
    fn try_line<Q, C, A, M, W>(
        &mut self,
        machine: &Played<Q, C, A, M>,
        line: u64,
        rest: &[Command<Q, u64, C>],
        output: &mut W,
    ) -> Result<(), Fault>
    where
        Q: Copy,
        C: Copy,
        M: Machine<Command = Command<Q, u64, C>, Waker = u64> + Copied + Drop,
        M::Reply: Parts<A> + Drop,
        W: Write,
    {
        for request in machine.numbers() {
            if machine.standing(request) == Standing::Free {
                continue;
            }
            if self.tried.ends >= self.limit {
                self.tried.is_cut = true;
                return Ok(());
            }
            if let Some(mut ended) = machine.with_end(&self.delivery, request).map_err(refused)? {
                self.tried.ends = self.tried.ends.saturating_add(1);
                ended.go_on(&self.delivery, rest);
                self.poll_all(&ended, line, request, output)?;
            }
        }
        Ok(())
    }

    // Polls each request that waits behind an end.
    fn poll_all<Q, C, A, M, W>(
        &mut self,
        ended: &Played<Q, C, A, M>,
        line: u64,
        end: usize,
        output: &mut W,
    ) -> Result<(), Fault>
    where
        Q: Copy,
        C: Copy,
        M: Machine<Command = Command<Q, u64, C>, Waker = u64> + Copied + Drop,
        M::Reply: Parts<A> + Drop,
        W: Write,
    {
        for request in ended.numbers() {
            let Standing::Waits { waker, is_told } = ended.standing(request) else {
                continue;
            };
            let Some(is_ready) = ended.is_ready(request, waker).map_err(refused)? else {
                continue;
            };
            self.tried.polls = self.tried.polls.saturating_add(1);
            if is_ready && !is_told {
                self.tried.untold = self.tried.untold.saturating_add(1);
                writeln!(
                    output,
                    "after line {line}, end {end}: request {request} is Ready and was not told"
                )?;
            }
        }
        Ok(())
    }
}
