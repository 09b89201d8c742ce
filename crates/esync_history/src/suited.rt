//! Which tasks an executor takes.
ghost use Rattle.std.specs.Prelude.{◌≡◌, map, ◌↔◌, IsTrue};
ghost use Rattle.std.specs.List.{list_any};
ghost use Rattle.esync_history.specs.Suited.{awaits_at, some_awaits_at, IsSuited, IsSuitedTask, AreSuited};

use crate::executor::Act;
use esync_base::waitqueue::TaskId;
use esync_machine::run::Awaits;

// Returns whether the act awaits the request at the number.
fn awaits_at<A, C>(act: &Act<A, C>, r: usize) -> bool
    ensures { result ≡ awaits_at r act.now }
{
    match act {
        Act::Await(number, _) => *number == r,
        Act::Call(_) => false,
    }
}

// Returns whether one of the acts awaits the request at the number.
fn any_awaits_at<A, C>(acts: &[Act<A, C>], r: usize) -> bool
    ensures { result ≡ list_any (awaits_at r) acts.now }
{
    acts.iter().any(|act| awaits_at(act, r))
}

// Returns whether one of the tasks awaits the request at the number.
fn some_awaits_at<A, C>(tasks: &[Vec<Act<A, C>>], r: usize) -> bool
    ensures { result ≡ some_awaits_at r (map (λ acts. acts.items) tasks.now) }
{
    tasks.iter().any(|acts| any_awaits_at(acts, r))
}

// Returns whether an act of a task is suited to the tasks behind it.
fn is_suited<M: Awaits<Waker = TaskId>>(
    act: &Act<M::Ask, M::Command>,
    later: &[Vec<Act<M::Ask, M::Command>>],
) -> bool
    ensures { IsTrue result ↔ IsSuited M.semantics.meaning M.REQS (map (λ acts. acts.items) later.now) act.now }
{
    match act {
        Act::Await(r, _) => *r < M::REQS && !some_awaits_at(later, *r),
        Act::Call(command) => !M::is_start(command) && !M::is_poll(command),
    }
}

// Returns whether a task with these acts is suited to the tasks behind it.
fn is_suited_task<M: Awaits<Waker = TaskId>>(
    acts: &[Act<M::Ask, M::Command>],
    later: &[Vec<Act<M::Ask, M::Command>>],
) -> bool
    ensures { IsTrue result ↔ IsSuitedTask M.semantics.meaning M.REQS (map (λ acts. acts.items) later.now) acts.now }
{
    let mut rest = acts;
    while let Some((act, behind)) = rest.split_first() {
        if !is_suited::<M>(act, later) {
            return false;
        }
        rest = behind;
    }
    true
}

/// Returns whether an executor takes the tasks: no two tasks await at one number, each number is one of the machine's,
/// and no Call starts or polls.
pub fn are_suited<M: Awaits<Waker = TaskId>>(tasks: &[Vec<Act<M::Ask, M::Command>>]) -> bool
    ensures { IsTrue result ↔ AreSuited M.semantics.meaning M.REQS (map (λ acts. acts.items) tasks.now) }
{
    let mut rest = tasks;
    while let Some((acts, later)) = rest.split_first() {
        if !is_suited_task::<M>(acts, later) {
            return false;
        }
        rest = later;
    }
    true
}
