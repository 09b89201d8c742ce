//! Queues and priority queues drop each of their items once.
use esync_base::deque::Deque;
use esync_base::store::{FixedStore, Store};
use esync_notes::{holds, same};
use esync_priority::prio::{Comparisons, Kind, Max, PrioQueue};
use std::alloc::{AllocError, Global};
use std::cell::Cell;
use std::process::Abort;

// A number that counts at run time how many of its kind were dropped.
struct Token<'a> {
    value: u32,
    dropped: &'a Cell<u32>,
}

impl Drop for Token<'_> {
    fn drop(self) {
        let Token { value: _, dropped } = self;
        dropped.set(dropped.get().wrapping_add(1));
    }
}

struct Greatest {}

impl<'a> Kind<Token<'a>> for Greatest {
    ghost use Rattle.std.specs.Prelude.{nat_lt};
    ghost use Rattle.std.proofs.Common.{arith};
    ghost use Rattle.std.proofs.lemmas.Bool.Decides.{nat_tests};

    ghost above = { λ a b. nat_lt b.value a.value };

    fn above(a: &Token<'a>, b: &Token<'a>, comparisons: &mut Comparisons) -> bool {
        comparisons.tick();
        b.value < a.value
    }

    ghost irreflexive = { λ a. Prim.grind (arith, nat_tests) };

    ghost transitive = { λ a b c h k. Prim.grind (arith, nat_tests) };

    ghost ties = { λ a b c h k. Prim.grind (arith, nat_tests) };
}

// Puts in a token of each value.
fn fill<'a, S: Store<Message = Token<'a>>>(
    rt: &impl Abort,
    store: &mut S,
    dropped: &'a Cell<u32>,
    values: &[u32],
) {
    for value in values {
        let token = Token {
            value: *value,
            dropped,
        };
        holds!(rt; store.put(token).is_ok());
    }
}

// A store of three tokens drops each that it has, and none that left.
fn drops_each_once<'a, S: FixedStore<Message = Token<'a>>>(
    rt: &impl Abort,
    dropped: &'a Cell<u32>,
) {
    let mut store = S::new();
    fill(rt, &mut store, dropped, &[5, 1, 9]);
    same!(rt; dropped.get(), 0);
    let value = 7;
    drop(store.put(Token { value, dropped }));
    same!(rt; dropped.get(), 1);
    drop(store.take());
    same!(rt; dropped.get(), 2);
    fill(rt, &mut store, dropped, &[8]);
    store.clear();
    same!(rt; dropped.get(), 5);
    fill(rt, &mut store, dropped, &[2, 3]);
    drop(store.take());
    fill(rt, &mut store, dropped, &[4, 6]);
    same!(rt; dropped.get(), 6);
    let moved = store;
    same!(rt; dropped.get(), 6);
    drop(moved);
    same!(rt; dropped.get(), 9);
}

// A store without items drops nothing, whether it had some or not.
fn drops_nothing<'a, S: FixedStore<Message = Token<'a>>>(rt: &impl Abort, dropped: &'a Cell<u32>) {
    drop(S::new());
    let mut store = S::new();
    fill(rt, &mut store, dropped, &[4]);
    drop(store.take());
    same!(rt; dropped.get(), 1);
    drop(store);
    same!(rt; dropped.get(), 1);
}

#[test]
fn a_queue_drops_each_item_once(rt: HostRuntime) {
    let dropped = Cell::new(0);
    drops_each_once::<Deque<Token<'_>, 3>>(&rt, &dropped);
    let dropped = Cell::new(0);
    drops_nothing::<Deque<Token<'_>, 3>>(&rt, &dropped);
}

#[test]
fn a_priority_queue_drops_each_item_once(rt: HostRuntime) {
    let dropped = Cell::new(0);
    drops_each_once::<PrioQueue<Token<'_>, Greatest, 3>>(&rt, &dropped);
    let dropped = Cell::new(0);
    drops_nothing::<PrioQueue<Token<'_>, Greatest, 3>>(&rt, &dropped);
}

#[test]
fn a_removed_item_is_the_callers(rt: HostRuntime) {
    let dropped = Cell::new(0);
    let mut ring: Deque<Token<'_>, 3> = Deque::new();
    fill(&rt, &mut ring, &dropped, &[1, 2, 3]);
    holds!(&rt; ring.len() == 3);
    let value = 4;
    let dropped_by = &dropped;
    let replaced = ring.replace(
        0,
        Token {
            value,
            dropped: dropped_by,
        },
    );
    same!(&rt; dropped.get(), 0);
    drop(replaced);
    same!(&rt; dropped.get(), 1);
    holds!(&rt; ring.len() == 3);
    drop(ring.remove(1));
    same!(&rt; dropped.get(), 2);
    drop(ring);
    same!(&rt; dropped.get(), 4);
}

// Puts in a text that owns its memory.
fn put_text<S: Store<Message = String>>(
    rt: &impl Abort,
    alloc: Global,
    store: &mut S,
    text: &str,
) -> Result<(), AllocError> {
    let item = String::from_str(alloc, text)?;
    holds!(rt; store.put(item).is_ok());
    Ok(())
}

// The text that leaves next is this one.
fn takes_text<S: Store<Message = String>>(rt: &impl Abort, store: &mut S, text: &str) {
    match store.take() {
        Some(item) => same!(rt; item.as_str(), text),
        None => rt.abort(),
    }
}

// Texts leave in this order, of which the last one stays until the store is dropped.
fn holds_texts<S: FixedStore<Message = String>>(
    rt: &impl Abort,
    alloc: Global,
    order: [&str; 3],
) -> Result<(), AllocError> {
    let mut store = S::new();
    put_text(rt, alloc, &mut store, "b")?;
    put_text(rt, alloc, &mut store, "a")?;
    put_text(rt, alloc, &mut store, "c")?;
    takes_text(rt, &mut store, order[0]);
    put_text(rt, alloc, &mut store, "d")?;
    takes_text(rt, &mut store, order[1]);
    takes_text(rt, &mut store, order[2]);
    Ok(())
}

#[test]
fn items_may_own_memory(rt: HostRuntime) -> Result<(), AllocError> {
    holds_texts::<Deque<String, 3>>(&rt, rt.alloc(), ["b", "a", "c"])?;
    holds_texts::<PrioQueue<String, Max, 3>>(&rt, rt.alloc(), ["c", "d", "b"])
}
