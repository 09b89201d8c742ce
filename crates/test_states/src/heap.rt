ghost use Rattle.std.specs.Prelude.{◌≡◌};

use esync_notes::{holds, same};
use esync_priority::prio::{Comparisons, Kind, Max, Min, PrioQueue};
use std::cell::Cell;
use std::process::Abort;

// A number that counts at run time how often it was asked whether it is above another.
#[derive(Drop)]
struct Counted<'a> {
    value: u32,
    asked: &'a Cell<u32>,
}

struct Greatest {}

impl<'a> Kind<Counted<'a>> for Greatest {
    ghost use Rattle.std.specs.Prelude.{nat_lt};
    ghost use Rattle.std.proofs.Common.{arith};
    ghost use Rattle.std.proofs.lemmas.Bool.Decides.{nat_tests};

    ghost above = { λ a b. nat_lt b.value a.value };

    fn above(a: &Counted<'a>, b: &Counted<'a>, comparisons: &mut Comparisons) -> bool {
        comparisons.tick();
        a.asked.set(a.asked.get().wrapping_add(1));
        b.value < a.value
    }

    ghost irreflexive = { λ a. Prim.grind (arith, nat_tests) };

    ghost transitive = { λ a b c h k. Prim.grind (arith, nat_tests) };

    ghost ties = { λ a b c h k. Prim.grind (arith, nat_tests) };
}

fn push<K: Kind<u32>>(queue: &mut PrioQueue<u32, K, 7>, item: u32) -> Result<(), u32> {
    queue.push(item, &mut Comparisons::new())
}

fn pop<K: Kind<u32>>(queue: &mut PrioQueue<u32, K, 7>) -> Option<u32> {
    queue.pop(&mut Comparisons::new())
}

// There is room for these.
fn takes_in<K: Kind<u32>>(rt: &impl Abort, queue: &mut PrioQueue<u32, K, 7>, items: &[u32]) {
    for item in items {
        same!(rt; push(queue, *item), Ok(()));
    }
}

// These leave, and nothing is left then.
fn is_emptied<K: Kind<u32>>(rt: &impl Abort, queue: &mut PrioQueue<u32, K, 7>, items: &[u32]) {
    for item in items {
        same!(rt; pop(queue), Some(*item));
    }
    same!(rt; pop(queue), None);
}

#[test]
fn the_greatest_of_seven_leaves_first(rt: HostRuntime) {
    let mut queue: PrioQueue<u32, Max, 7> = PrioQueue::new();
    takes_in(&rt, &mut queue, &[5, 1, 5, 3, 9, 2, 4]);
    same!(rt; push(&mut queue, 8), Err(8));
    is_emptied(&rt, &mut queue, &[9, 5, 5, 4, 3, 2, 1]);
}

#[test]
fn the_least_of_seven_leaves_first(rt: HostRuntime) {
    let mut queue: PrioQueue<u32, Min, 7> = PrioQueue::new();
    takes_in(&rt, &mut queue, &[5, 1, 5, 3, 9, 2, 4]);
    is_emptied(&rt, &mut queue, &[1, 2, 3, 4, 5, 5, 9]);
}

// The first one is this.
fn looks(rt: &impl Abort, queue: &PrioQueue<u32, Max, 7>, item: Option<u32>) {
    holds!(rt; queue.peek() == item.as_ref());
}

#[test]
fn a_look_takes_nothing_out(rt: HostRuntime) {
    let mut queue: PrioQueue<u32, Max, 7> = PrioQueue::new();
    looks(&rt, &queue, None);
    holds!(rt; queue.is_empty());
    takes_in(&rt, &mut queue, &[3, 9, 5]);
    looks(&rt, &queue, Some(9));
    same!(rt; queue.len(), 3);
    same!(rt; pop(&mut queue), Some(9));
    looks(&rt, &queue, Some(5));
}

#[test]
fn a_cleared_queue_is_empty(rt: HostRuntime) {
    let mut queue: PrioQueue<u32, Max, 7> = PrioQueue::new();
    takes_in(&rt, &mut queue, &[3, 5]);
    holds!(rt; !queue.is_full());
    queue.clear();
    holds!(rt; queue.is_empty());
}

type Queue<'a> = PrioQueue<Counted<'a>, Greatest, 7>;

fn push_counted<'a>(
    queue: &mut Queue<'a>,
    value: u32,
    asked: &'a Cell<u32>,
) -> Result<(), Counted<'a>> {
    asked.set(0);
    queue.push(Counted { value, asked }, &mut Comparisons::new())
}

// There is room for these values, each of which is put in its place within so many comparisons.
fn takes_in_within<'a>(
    rt: &impl Abort,
    queue: &mut Queue<'a>,
    asked: &'a Cell<u32>,
    values: &[(u32, u32)],
) {
    for (value, most) in values {
        holds!(rt; push_counted(queue, *value, asked).is_ok());
        holds!(rt; asked.get() <= *most);
    }
}

// These values leave, each within so many comparisons.
fn lets_out_within(
    rt: &impl Abort,
    queue: &mut Queue<'_>,
    asked: &Cell<u32>,
    values: &[(u32, u32)],
) {
    for (value, most) in values {
        asked.set(0);
        match queue.pop(&mut Comparisons::new()) {
            Some(item) => same!(rt; item.value, *value),
            None => rt.abort(),
        }
        holds!(rt; asked.get() <= *most);
    }
}

#[test]
fn comparisons_stay_within_the_digits(rt: HostRuntime) {
    let asked = Cell::new(0);
    let mut queue: Queue<'_> = PrioQueue::new();
    let values = [(5, 0), (1, 1), (5, 1), (3, 2), (9, 2), (2, 2), (4, 2)];
    takes_in_within(&rt, &mut queue, &asked, &values);
    holds!(rt; push_counted(&mut queue, 8, &asked).is_err());
    same!(rt; asked.get(), 0);
    let values = [(9, 4), (5, 4), (5, 4), (4, 2), (3, 2), (2, 0), (1, 0)];
    lets_out_within(&rt, &mut queue, &asked, &values);
}
