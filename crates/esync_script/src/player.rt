//! The loop over the lines of a script, whichever primitive line 1 names.
ghost use Rattle.std.specs.Prelude.{ℕ, List, Option, Result};
ghost use Rattle.esync_machine.specs.Runs.{Meaning};
ghost use Rattle.esync_machine.specs.declared.primitive.Answer.{Answer as AnswerOf};
ghost use Rattle.esync_machine.specs.declared.primitive.Command.{Command as CommandOf};
ghost use Rattle.esync_words.specs.declared.fault.Fault.{Fault as FaultOf};
ghost use Rattle.esync_words.specs.Commands.{says, command};
ghost use Rattle.esync_script.specs.Player.{plays_and_tells};

use esync_base::waitqueue::Registered;
use esync_machine::primitive::Command;
use esync_machine::run::Machine;
use esync_words::copied::Copied;
use esync_words::fault::Fault;
use esync_words::lines::{ByteSource, Lines};
use esync_words::play::{Parts, Telling, play};
use esync_words::vocabulary::Vocabulary;
use std::io::Write;

/// A player: it goes through the lines behind line 1, over the machine that line 1 names. Each `Telling` is a player:
/// it gives each line to the machine as a command, and tells of the answer.
pub trait Player<R: ByteSource, W: Write> {
    ghost use Rattle.std.specs.Prelude.{ℕ, List, Option, Result};
    ghost use Rattle.esync_machine.specs.Runs.{Meaning};
    ghost use Rattle.esync_machine.specs.declared.primitive.Answer.{Answer as AnswerOf};
    ghost use Rattle.esync_machine.specs.declared.primitive.Command.{Command as CommandOf};
    ghost use Rattle.esync_words.specs.declared.fault.Fault.{Fault as FaultOf};

    /// The statement that a script was played, by the player before and after it. It is over the meaning of the
    /// machine, the command that a line says, the text of an answer, and the answer and the wakers of a reply. It
    /// begins from an object and its registered wakers, behind line n, with the text that is left. It has the output
    /// before and after.
    ghost plays: { Self → Self → (Q C A Reply : Type 0) (M : Meaning (CommandOf Q ℕ C) Reply ℕ) → (List ℕ → Option (CommandOf Q ℕ C)) → (A → List ℕ) → (Reply → AnswerOf A) → (Reply → List ℕ) → M.Object → M.Registered → ℕ → Option (List ℕ) → Option (List ℕ) → Option (List ℕ) → Result (Unit {0}) FaultOf → Type 0 };

    /// Plays the lines that are left.
    ///
    /// # Errors
    ///
    /// Returns the fault at which it stopped.
    fn play<V, M>(&mut self, machine: M, lines: &mut Lines<R>, output: &mut W) -> Result<(), Fault>
    where
        V: Vocabulary,
        V::Ask: Copy,
        V::Call: Copy,
        M: Machine<Command = Command<V::Ask, u64, V::Call>, Waker = u64>
            + Copied
            + Registered<Waker = u64>
            + Drop,
        M::Reply: Parts<V::Heard> + Drop,
        ensures { plays self.old self.new V.Ask V.Call V.Heard M.Reply M.semantics.meaning (says R.longest (command V.asks V.calls)) V.text M.Reply.answer M.Reply.wakes (M.semantics.object machine) (M.semantics.registrations machine) lines.old.number lines.old.left (W.contents output.old) (W.contents output.new) result };
}

impl<T: Telling, R: ByteSource, W: Write> Player<R, W> for T {
    ghost use Rattle.esync_script.specs.Player.{plays_and_tells};

    ghost plays = { λ old new. plays_and_tells T.story (T.noted old) (T.noted new) };

    fn play<V, M>(&mut self, machine: M, lines: &mut Lines<R>, output: &mut W) -> Result<(), Fault>
    where
        V: Vocabulary,
        V::Ask: Copy,
        V::Call: Copy,
        M: Machine<Command = Command<V::Ask, u64, V::Call>, Waker = u64>
            + Copied
            + Registered<Waker = u64>
            + Drop,
        M::Reply: Parts<V::Heard> + Drop,
    {
        let mut machine = machine;
        play::<V, M, T, R, W>(self, &mut machine, lines, output)
    }
}
