//! A shared watch with places for two receivers, as its tests see it: each call is the watch's own, with what is expected of it.
//! The watch's type is spelled out here alone, since each test that does so takes long to prove.
ghost use Rattle.std.specs.Prelude.{◌≡◌};

use esync_base::waitqueue::{Context, Poll};
use esync_cells::watch::{self, Rcv, Watch};
use esync_notes::{Notes, holds};
use std::process::Abort;
use std::sync::Wait;

type Two<'a, R> = Watch<u32, u64, &'a Notes<'a, R>, 2>;

/// A watch.
#[derive(Drop)]
pub struct Watched<'a, R: Wait> {
    rt: &'a R,
    watch: Two<'a, R>,
}

impl<'a, R: Wait + Abort> Watched<'a, R> {
    /// A watch without a value.
    pub fn new(rt: &'a R, notes: &'a Notes<'a, R>) -> Self {
        let watch = Watch::new(notes);
        Watched { rt, watch }
    }

    /// A watch of this value.
    pub fn new_with(rt: &'a R, value: u32, notes: &'a Notes<'a, R>) -> Self {
        let watch = Watch::new_with(value, notes);
        Watched { rt, watch }
    }

    /// A receiver, for which there is a place.
    pub fn receiver<'w>(&'w self) -> Receiver<'w, 'a, R> {
        match self.watch.receiver() {
            Some(receiver) => Receiver {
                rt: self.rt,
                receiver,
            },
            None => self.rt.abort(),
        }
    }

    /// The value is sent.
    pub fn send(&self, value: u32) {
        holds!(*self.rt; self.watch.sender().send(value) == Ok(()));
    }
}

/// A receiver.
pub struct Receiver<'w, 'a, R: Wait> {
    rt: &'a R,
    receiver: Rcv<'w, Two<'a, R>>,
}

impl<R: Wait> Drop for Receiver<'_, '_, R> {
    fn drop(self) {
        let Receiver { rt: _, receiver } = self;
        drop(receiver);
    }
}

impl<'w, 'a, R: Wait + Abort> Receiver<'w, 'a, R> {
    /// The value, when there is one that passes the test.
    pub fn get_and<'s, F: Fn(&u32) -> bool>(&'s mut self, test: F) -> GetAnd<'s, 'w, 'a, R, F>
        ensures { result.get.sought.test ≡ test }
    {
        GetAnd {
            rt: self.rt,
            get: self.receiver.get_and(test),
        }
    }

    /// The value, when it is news and passes the test.
    pub fn changed_and<'s, F: Fn(&u32) -> bool>(
        &'s mut self,
        test: F,
    ) -> ChangedAnd<'s, 'w, 'a, R, F>
        ensures { result.changed.sought.test ≡ test }
    {
        ChangedAnd {
            rt: self.rt,
            changed: self.receiver.changed_and(test),
        }
    }
}

/// What `get_and` gives.
#[derive(Drop)]
pub struct GetAnd<'s, 'w, 'a, R: Wait, F> {
    rt: &'a R,
    get: watch::GetAnd<'s, 'w, Two<'a, R>, F>,
}

impl<R: Wait + Abort, F: Fn(&u32) -> bool> GetAnd<'_, '_, '_, R, F> {
    /// A poll with this waker answers this.
    pub fn poll(&mut self, waker: u64, polled: Poll<u32>)
        requires { F.IsAlwaysCallable self.old.get.sought.test }
        ensures { self.new.get.sought.test ≡ self.old.get.sought.test }
    {
        holds!(*self.rt; self.get.poll(&Context::from_waker(waker)) == Ok(polled));
    }
}

/// What `changed_and` gives.
#[derive(Drop)]
pub struct ChangedAnd<'s, 'w, 'a, R: Wait, F> {
    rt: &'a R,
    changed: watch::ChangedAnd<'s, 'w, Two<'a, R>, F>,
}

impl<R: Wait + Abort, F: Fn(&u32) -> bool> ChangedAnd<'_, '_, '_, R, F> {
    /// A poll with this waker answers this.
    pub fn poll(&mut self, waker: u64, polled: Poll<u32>)
        requires { F.IsAlwaysCallable self.old.changed.sought.test }
        ensures { self.new.changed.sought.test ≡ self.old.changed.sought.test }
    {
        holds!(*self.rt; self.changed.poll(&Context::from_waker(waker)) == Ok(polled));
    }
}
