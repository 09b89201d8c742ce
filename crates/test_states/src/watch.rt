//! What no recorded run says of a watch: changes and values of any kind, and who is counted.
use crate::wakers::hands_out;
use esync_base::waitqueue::{Context, Wakes};
use esync_cells::watch::{Change, Exhausted, Judge, WatchState};
use esync_notes::{holds, same};
use std::alloc::AllocError;
use std::cell::Cell;
use std::process::Abort;

// Passes values below a limit.
#[derive(Drop)]
pub struct Below(pub u32);

impl Judge<u32> for Below {
    ghost use Rattle.std.specs.Prelude.{nat_lt};

    ghost passes = { λ b v. nat_lt v b.0 };

    fn holds(&self, value: &u32) -> bool {
        *value < self.0
    }
}

// Puts a value.
#[derive(Drop)]
struct Put(u32);

impl Change<u32> for Put {
    ghost use Rattle.std.specs.Prelude.{Some, true};

    ghost changed = { λ c _. Some c.0 };

    ghost tells = { λ _ _. true };

    fn apply(&self, value: &mut Option<u32>) -> bool {
        *value = Some(self.0);
        true
    }

    ghost a_change_tells = { λ c v e. absurd cc };
}

// Changes nothing, and notes that it was asked.
#[derive(Drop)]
pub struct Asked<'a>(pub &'a Cell<bool>);

impl Change<u32> for Asked<'_> {
    ghost use Rattle.std.specs.Prelude.{false, refl};

    ghost changed = { λ _ v. v };

    ghost tells = { λ _ _. false };

    fn apply(&self, _value: &mut Option<u32>) -> bool {
        self.0.set(true);
        false
    }

    ghost a_change_tells = { λ _ _ _. refl };
}

// A value whose clone has no memory while the cell says so.
#[derive(Drop)]
struct Scarce<'a> {
    is_refused: &'a Cell<bool>,
    value: u32,
}

impl Clone for Scarce<'_> {
    fn clone(&self) -> Result<Self, AllocError> {
        if self.is_refused.get() {
            return Err(AllocError);
        }
        Ok(Scarce {
            is_refused: self.is_refused,
            value: self.value,
        })
    }
}

type One = WatchState<u32, u64, 1>;

// A change that is sent. Nobody waits for it.
fn changes<C: Change<u32>>(rt: &impl Abort, watch: &mut One, change: &C) {
    let mut wakes = Wakes::new();
    holds!(rt; watch.send_modify(change, &mut wakes) == Ok(()));
    hands_out(rt, &wakes, None);
}

// A change that is sent where it tells. Nobody waits for it.
fn changes_if<C: Change<u32>>(rt: &impl Abort, watch: &mut One, change: &C) {
    let mut wakes = Wakes::new();
    holds!(rt; watch.send_if_modified(change, &mut wakes) == Ok(()));
    hands_out(rt, &wakes, None);
}

#[test]
fn receivers_are_counted(rt: HostRuntime) {
    let mut watch: WatchState<u32, u64, 2> = WatchState::new();
    holds!(rt; watch.add_receiver());
    holds!(rt; watch.add_receiver());
    holds!(rt; !watch.add_receiver());
    same!(rt; watch.receivers(), 2);
    holds!(rt; watch.receivers() > 0);
    watch.drop_receiver();
    holds!(rt; watch.add_receiver());
    same!(rt; watch.receivers(), 2);
}

// Nothing is to be had of a value whose clone is refused, and nobody has seen it.
fn is_not_seen(rt: &impl Abort, watch: &mut WatchState<Scarce<'_>, u64, 1>, seen: &mut u64) {
    let mut wakes: Wakes<u64, 1> = Wakes::new();
    let cx = Context::from_waker(1);
    holds!(rt; watch.try_get(seen).is_err());
    holds!(rt; watch.poll_changed(seen, &cx, &mut wakes).is_err());
    same!(rt; *seen, 0);
}

// The value is news.
fn is_heard(rt: &impl Abort, watch: &WatchState<Scarce<'_>, u64, 1>, seen: &mut u64, value: u32) {
    match watch.try_changed(seen) {
        Ok(Some(copy)) => same!(rt; copy.value, value),
        _ => rt.abort(),
    }
}

#[test]
fn a_refused_clone_is_not_seen(rt: HostRuntime) {
    let is_refused = Cell::new(true);
    let value = Scarce {
        is_refused: &is_refused,
        value: 3,
    };
    let mut watch: WatchState<Scarce<'_>, u64, 1> = WatchState::new();
    let mut seen = 0;
    let mut wakes: Wakes<u64, 1> = Wakes::new();
    holds!(rt; watch.send(value, &mut wakes).is_ok());
    is_not_seen(&rt, &mut watch, &mut seen);
    is_refused.set(false);
    is_heard(&rt, &watch, &mut seen, 3);
}

// What is news, if anything.
fn hears(rt: &impl Abort, watch: &One, seen: &mut u64, news: Option<u32>) {
    holds!(rt; watch.try_changed(seen) == Ok(news));
}

#[test]
fn a_change_is_news_where_it_tells_or_is_sent(rt: HostRuntime) {
    let mut watch: One = WatchState::new();
    let (mut seen, asked) = (0, Cell::new(false));
    changes_if(&rt, &mut watch, &Put(9));
    hears(&rt, &watch, &mut seen, Some(9));
    changes_if(&rt, &mut watch, &Asked(&asked));
    holds!(rt; asked.get());
    hears(&rt, &watch, &mut seen, None);
    changes(&rt, &mut watch, &Asked(&asked));
    hears(&rt, &watch, &mut seen, Some(9));
    same!(rt; watch.get_msg_id(), 2);
}

// A value is sent, or comes back. Nobody waits for it.
fn sends(rt: &impl Abort, watch: &mut One, value: u32, answer: Result<(), Exhausted<u32>>) {
    let mut wakes = Wakes::new();
    holds!(rt; watch.send(value, &mut wakes) == answer);
    hands_out(rt, &wakes, None);
}

// No version is left for a change, which isn't asked.
fn changes_nothing(rt: &impl Abort, watch: &mut One) {
    let (mut wakes, asked) = (Wakes::new(), Cell::new(false));
    holds!(rt; watch.send_modify(&Asked(&asked), &mut wakes) == Err(Exhausted(())));
    hands_out(rt, &wakes, None);
    holds!(rt; !asked.get());
}

#[test]
fn the_last_version_is_sent_once(rt: HostRuntime) {
    let (mut watch, mut seen): (One, u64) = (WatchState::new_at(u64::MAX - 1), 0);
    holds!(rt; watch.add_receiver());
    sends(&rt, &mut watch, 1, Ok(()));
    sends(&rt, &mut watch, 2, Err(Exhausted(2)));
    changes_nothing(&rt, &mut watch);
    hears(&rt, &watch, &mut seen, Some(1));
    watch.clear();
    holds!(rt; watch.try_get(&mut seen) == Ok(None));
}
