//! Threads that sleep while they block, and are woken as tasks.
ghost use Rattle.std.specs.Prelude.{◌≡◌, ◌<◌, IfSome};
ghost use Rattle.esync_base.specs.Room.{WakesFitInMemory};
ghost use Rattle.esync_tasks.specs.Side.{side_of};

use crate::future::{Either, Future};
use esync_base::waitqueue::{Context, Hand, Poll, TaskId};
use std::array;
use std::marker::Model;
use std::sync::Wait;
use std::sync::atomic::{AtomicBool, Ordering};
use std::thread::Parker;

// The place where a thread sleeps, and whether a thread has this seat.
#[derive(Drop)]
struct Place {
    parker: Parker,
    is_taken: AtomicBool,
}

impl Place {
    const fn new() -> Place {
        Place {
            parker: Parker::new(),
            is_taken: AtomicBool::new(false),
        }
    }
}

/// Seats for `N` threads that block on futures. The thread at seat `k` is the task whose waker is `TaskId(k)`.
///
/// A reference to the `Parking` is the hand of the shared forms that these threads use. A waker that names no seat
/// wakes nothing.
#[derive(Drop)]
pub struct Parking<'a, R, const N: usize> {
    rt: &'a R,
    places: [Place; N],
}

impl<'a, R, const N: usize> Parking<'a, R, N> {
    /// Returns a `Parking` whose seats are all free.
    pub fn new(rt: &'a R) -> Self {
        Parking {
            rt,
            places: array::from_fn(|_| Place::new()),
        }
    }

    /// Returns the seat of this number, which is taken until it is dropped. Returns `None` if there is no such seat, or
    /// if it is taken: at most one thread has a seat, so no other thread gets its wakes.
    pub fn seat(&self, number: usize) -> Option<Seat<'_, R>>
        ensures number { IfSome result (λ seat. seat ≡ number) }
        ensures below { IfSome result (λ seat. number < N) }
    {
        let place = self.places.get(number)?;
        if place.is_taken.swap(true, Ordering::SeqCst) {
            return None;
        }
        Some(Seat {
            rt: self.rt,
            place,
            number,
        })
    }
}

/// Wakes the thread at the seat of the waker's number. If the thread isn't asleep, its next sleep is over at once.
impl<R: Wait, const N: usize> Hand<TaskId> for &Parking<'_, R, N> {
    type Rt = R;

    fn rt(&self) -> &R {
        self.rt
    }

    fn wake(&self, task: TaskId) {
        if let Some(place) = self.places.get(task.0 as usize) {
            place.parker.unpark();
        }
    }
}

/// A seat of a `Parking`, for the thread that has it. Dropping the seat frees it.
pub struct Seat<'p, R> {
    rt: &'p R,
    place: &'p Place,
    number: usize,
}

impl<'p, R> Model for Seat<'p, R> {
    ghost use Rattle.std.specs.Prelude.{ℕ};
    ghost use Rattle.std.specs.Coded.{coded_ℕ};

    ghost Value = { ℕ };

    ghost coded = { coded_ℕ };

    ghost view = { λ a. a.number };
}

impl<R> Drop for Seat<'_, R> {
    fn drop(self) {
        let Seat {
            rt: _,
            place,
            number: _,
        } = self;
        place.is_taken.store(false, Ordering::SeqCst);
    }
}

impl<R> Seat<'_, R> {
    /// Returns the task that stands for the thread at this seat.
    pub fn task(&self) -> TaskId
        ensures { result ≡ record { 0 = self.now } }
    {
        TaskId(self.number as u64)
    }
}

impl<R: Wait> Seat<'_, R> {
    /// Blocks the thread until the future is ready, and returns its output. The thread sleeps between polls, and polls
    /// again each time it is woken.
    ///
    /// A wake that comes before the thread falls asleep isn't lost: the sleep is then over at once. A wake that is left
    /// of an earlier future of this seat costs a poll.
    pub fn block_on<F: Future<TaskId>>(&mut self, future: F) -> F::Output
        requires { F.can_poll future }
        ensures { F.gives future result }
    {
        let mut future = future;
        let cx = Context::from_waker(self.task());
        for _ in self.rt.forever() {
            if let Poll::Ready(output) = future.poll(&cx) {
                return output;
            }
            self.place.parker.park(self.rt);
        }
        unreachable!()
    }
}

/// Two hands as one. The tasks below `at` belong to the first hand, and task `at + k` is task `k` of the second.
///
/// With it, threads at the seats of a `Parking` and tasks of a `Runtime` share one primitive.
#[derive(Clone, Copy)]
pub struct Split<A, B> {
    first: A,
    at: u64,
    second: B,
}

impl<A, B> Model for Split<A, B> {
    ghost use Rattle.std.specs.Prelude.{ℕ};

    ghost Value = { A × ℕ × B };

    ghost view = { λ a. (a.first, a.at, a.second) };

    ghost inverse = { λ v. record { first = v.0; at = v.1; second = v.2 } };
}

impl<A, B> Split<A, B> {
    /// Returns a hand whose tasks below `at` belong to the first hand, and whose further tasks belong to the second,
    /// with numbers less `at`.
    pub fn new(first: A, at: u64, second: B) -> Self
        ensures { result ≡ (first, at, second) }
    {
        Split { first, at, second }
    }

    /// Returns the hand that wakes a task, and the task's number there.
    pub fn side(&self, task: TaskId) -> Either<TaskId, TaskId>
        ensures { result ≡ side_of self.now.1 task.0 }
    {
        if task.0 < self.at {
            Either::First(task)
        } else {
            Either::Second(TaskId(task.0 - self.at))
        }
    }
}

/// Wakes a task by the hand that it belongs to.
impl<A: Hand<TaskId>, B: Hand<TaskId>> Hand<TaskId> for Split<A, B> {
    type Rt = A::Rt;

    fn rt(&self) -> &A::Rt {
        self.first.rt()
    }

    fn wake(&self, task: TaskId) {
        match self.side(task) {
            Either::First(task) => self.first.wake(task),
            Either::Second(task) => self.second.wake(task),
        }
    }
}
