//! A shared form with its handles, as the commands of a script call it.
use esync_base::waitqueue::Context;
use esync_machine::primitive::{Answer, Command};
use esync_words::vocabulary::Vocabulary;
use std::alloc::{AllocError, Global};
use std::fmt::{self, Display, Formatter};

/// The number of numbers: of requests, and of receivers, subscribers or publishers.
pub const NUMBERS: usize = 16;

/// What a request of a form asks for.
pub type Ask<F> = <<F as Form>::Words as Vocabulary>::Ask;

/// A call of a form that is no start, poll or end.
pub type Call<F> = <<F as Form>::Words as Vocabulary>::Call;

/// The answer of a form. `None` means that what the command names isn't there.
pub type Answered<F> = Option<Answer<<<F as Form>::Words as Vocabulary>::Heard>>;

/// A shared form with its handles. What a command does to it is what its user would write.
pub trait Form: Drop {
    /// The words of its scripts.
    type Words: Vocabulary;

    /// The holder of a number: a future, or the releaser or the guard that it left.
    type Held: Drop;

    /// Returns a future for the ask, if the receiver, the subscriber or the publisher that it names is there.
    fn begin(&mut self, ask: Ask<Self>) -> Option<Self::Held>;

    /// Polls the holder of a number.
    fn poll(&mut self, held: &mut Self::Held, cx: &Context<u64>) -> Answered<Self>;

    /// Returns whether the holder stays at its number when a poll of it has given an answer.
    fn stays(_held: &Self::Held) -> bool {
        false
    }

    /// Makes a call. It is lent the place of the number that it concerns.
    fn call(&mut self, call: Call<Self>, place: &mut Option<Self::Held>) -> Answered<Self>;

    /// Returns the number that the call concerns, if it concerns one.
    fn number(_call: &Call<Self>) -> Option<usize> {
        None
    }

    /// Returns whether the call ends the holder of a number.
    fn leaves(_call: &Call<Self>, _held: &Self::Held) -> bool {
        false
    }
}

/// A table of the holders of numbers.
#[derive(Drop)]
pub struct Places<T> {
    places: Vec<Option<T>>,
}

impl<T: Drop> Places<T> {
    /// Returns a table in which all numbers are free.
    pub fn new(alloc: Global) -> Result<Self, AllocError> {
        let mut places = Vec::with_capacity(alloc, NUMBERS)?;
        for _ in 0..NUMBERS {
            places.push(None)?;
        }
        Ok(Places { places })
    }

    /// Returns the place of the number, if nobody holds it.
    pub fn free(&mut self, number: usize) -> Option<&mut Option<T>> {
        let place = self.places.get_mut(number)?;
        if place.is_some() { None } else { Some(place) }
    }

    /// Returns the holder of the number.
    pub fn holder(&mut self, number: usize) -> Option<&mut T> {
        self.places.get_mut(number)?.as_mut()
    }

    /// Returns whether the number is held.
    pub fn is_held(&self, number: usize) -> bool {
        matches!(self.places.get(number), Some(Some(_)))
    }

    /// Returns the first holder.
    pub fn first(&self) -> Option<&T> {
        self.places.iter().find_map(|place| place.as_ref())
    }

    /// Drops the holder of the number, which is free afterwards.
    pub fn end<A>(&mut self, number: usize) -> Option<Answer<A>> {
        let held = self.places.get_mut(number)?.take()?;
        drop(held);
        Some(Answer::Done)
    }
}

/// Gives the command to the shared form, and returns its answer.
pub fn turn<F: Form>(
    form: &mut F,
    places: &mut Places<F::Held>,
    command: Command<Ask<F>, u64, Call<F>>,
) -> Answered<F> {
    match command {
        Command::Start(r, ask) => start(form, places.free(r)?, ask),
        Command::Poll(r, waker) => poll(form, places.places.get_mut(r)?, waker),
        Command::End(r) => places.end(r),
        Command::Call(call) => make(form, places, call),
    }
}

fn start<F: Form>(form: &mut F, place: &mut Option<F::Held>, ask: Ask<F>) -> Answered<F> {
    *place = form.begin(ask);
    place.is_some().then_some(Answer::Done)
}

fn poll<F: Form>(form: &mut F, place: &mut Option<F::Held>, waker: u64) -> Answered<F> {
    let held = place.as_mut()?;
    let answer = form.poll(held, &Context::from_waker(waker))?;
    if matches!(answer, Answer::Gives(_)) && !F::stays(held) {
        *place = None;
    }
    Some(answer)
}

fn make<F: Form>(form: &mut F, places: &mut Places<F::Held>, call: Call<F>) -> Answered<F> {
    for place in places.places.iter_mut() {
        sweep::<F>(place, &call);
    }
    match F::number(&call) {
        Some(r) => form.call(call, places.places.get_mut(r)?),
        None => form.call(call, &mut None),
    }
}

// Frees the number if the call ends its holder.
fn sweep<F: Form>(place: &mut Option<F::Held>, call: &Call<F>) {
    if let Some(held) = place.as_ref() {
        if F::leaves(call, held) {
            *place = None;
        }
    }
}

/// A way in which a shared form is called.
#[derive(Clone, Copy)]
pub enum Door {
    /// By its own calls.
    Own,
    /// By its handles.
    Handle,
    /// By handles whose type doesn't name the form.
    Dynamic,
}

impl Display for Door {
    fn fmt<W: fmt::Write>(&self, f: &mut Formatter<W>) -> fmt::Result {
        f.write_str(match self {
            Door::Own => "its own call",
            Door::Handle => "a handle",
            Door::Dynamic => "a dynamic handle",
        })
    }
}

/// The ways of calling a shared form, one after another.
#[derive(Clone, Copy)]
pub struct Doors {
    next: Door,
    by_future: bool,
}

impl Doors {
    /// Returns the ways, beginning with this one.
    pub fn from(first: Door) -> Self {
        Doors {
            next: first,
            by_future: false,
        }
    }

    /// Returns whether the next request is a future. Every second one is; the rest is polled by calls that take a
    /// context.
    pub fn is_future(&mut self) -> bool {
        self.by_future = !self.by_future;
        self.by_future
    }

    /// Returns the next way.
    pub fn next(&mut self) -> Door {
        let door = self.next;
        self.next = match door {
            Door::Own => Door::Handle,
            Door::Handle => Door::Dynamic,
            Door::Dynamic => Door::Own,
        };
        door
    }
}

/// A call by the next way. Each way has the field of the form that takes the call.
macro_rules! by {
    ($form:ident, $own:ident | $handle:ident | $dynamic:ident, $($call:tt)*) => {
        match $form.doors.next() {
            $crate::form::Door::Own => $form.$own.$($call)*,
            $crate::form::Door::Handle => $form.$handle.$($call)*,
            $crate::form::Door::Dynamic => $form.$dynamic.$($call)*,
        }
    };
}

pub(crate) use by;

/// The answer to a poll: what is heard of the value that it is ready with, or that it is pending.
macro_rules! heard {
    ($polled:expr, $ready:pat => $heard:expr) => {
        match $polled {
            Poll::Ready($ready) => Answer::Gives($heard),
            Poll::Pending => Answer::Pending,
        }
    };
}

pub(crate) use heard;

/// The answer that is made of a result, unless a clone had no memory.
macro_rules! if_memory {
    ($result:expr, $value:pat => $answer:expr) => {
        match $result {
            Ok($value) => $answer,
            Err(AllocError) => Answer::NoMemory,
        }
    };
}

pub(crate) use if_memory;

/// The sizes that a shared form tells.
#[derive(Clone, Copy)]
pub struct Sizes {
    pub capacity: usize,
    pub len: usize,
    pub free: usize,
    pub is_empty: bool,
    pub is_full: bool,
}

impl Sizes {
    /// Returns the sizes if they agree. Otherwise there is no answer, while a machine always has one.
    pub fn checked(self) -> Option<Self> {
        let adds_up = self.len.checked_add(self.free) == Some(self.capacity);
        let agree = self.is_empty == (self.len == 0) && self.is_full == (self.free == 0);
        (adds_up && agree).then_some(self)
    }
}

/// The sizes of a form that has the five calls of sizes, if they agree.
macro_rules! sizes {
    ($form:expr) => {
        $crate::form::Sizes {
            capacity: $form.capacity(),
            len: $form.len(),
            free: $form.free_capacity(),
            is_empty: $form.is_empty(),
            is_full: $form.is_full(),
        }
        .checked()
    };
}

pub(crate) use sizes;
