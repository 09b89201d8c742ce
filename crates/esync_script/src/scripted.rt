//! What a script needs of a primitive, whichever line 1 names.
ghost use Rattle.std.specs.Prelude.{◌≡◌};
ghost use Rattle.esync_words.specs.Commands.{says, command};

use crate::player::Player;
use esync_base::waitqueue::Registered;
use esync_machine::primitive::Command;
use esync_machine::run::Machine;
use esync_words::copied::Copied;
use esync_words::fault::Fault;
use esync_words::lines::{ByteSource, Lines};
use esync_words::play::Parts;
use esync_words::vocabulary::Vocabulary;
use std::io::Write;

/// The machine of a primitive that a script can be about, in these words.
pub trait Scripted<V: Vocabulary>: Machine<Command = Command<V::Ask, u64, V::Call>, Waker = u64>
    + Copied
    + Registered<Waker = u64>
    + Drop {
    /// What line 1 says of the primitive besides its capacity.
    type First;

    /// The condition under which a machine can begin like this.
    ghost CanBegin: { Self.First → Type 0 } = { λ first. Unit {0} };

    /// The statement that a machine is as line 1 says, without requests and without registered wakers.
    ghost IsNew: { Self.First → Self → Type 0 };

    /// Returns the machine as line 1 says, without requests.
    fn begin(first: Self::First) -> Self
        requires { CanBegin first }
        ensures { IsNew first result };
}

/// Gives the player the machine that line 1 names, and the lines behind line 1.
///
/// The contract is over any object and registrations that each new machine has.
///
/// # Errors
///
/// Returns the player's fault.
pub fn serve<V, M, P, R, W>(
    player: &mut P,
    first: M::First,
    lines: &mut Lines<R>,
    output: &mut W,
) -> Result<(), Fault>
where
    V: Vocabulary,
    V::Ask: Copy,
    V::Call: Copy,
    M: Scripted<V>,
    M::Reply: Parts<V::Heard> + Drop,
    P: Player<R, W>,
    R: ByteSource,
    W: Write,
    requires { M.CanBegin first }
    ensures { (object : M.semantics.meaning.Object) (registered : M.semantics.meaning.Registered) → ((m : M) → M.IsNew first m → (M.semantics.object m ≡ object) × (M.semantics.registrations m ≡ registered)) → P.plays player.old player.new V.Ask V.Call V.Heard M.Reply M.semantics.meaning (says R.longest (command V.asks V.calls)) V.text M.Reply.answer M.Reply.wakes object registered lines.old.number lines.old.left (W.contents output.old) (W.contents output.new) result }
{
    player.play::<V, M>(M::begin(first), lines, output)
}
