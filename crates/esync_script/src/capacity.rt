//! The numbers that line 1 of a script can say.
ghost use Rattle.std.specs.Prelude.{◌≡◌, ◌≤◌};
ghost use Rattle.esync_script.specs.Capacity.{capacity, places, any_capacity, four_and_four, handles, no_handles};

use esync_words::bits::Bits;
use esync_words::lines::{LONGEST, LineLimit, SHORT};
use esync_words::vocabulary::{NAMES, REQS};
use std::marker::Model;

/// The greatest capacity.
pub const MOST: usize = 4096;

/// How many requests a script of `syncrun` can have at a time.
pub const FEW: usize = 16;

/// How many requests a script of a language can have at a time.
pub trait RequestLimit {
    ghost use Rattle.std.specs.Prelude.{ℕ};

    /// The number: those of the requests are below it.
    ghost requests: { ℕ };

    /// Returns the number.
    fn requests() -> usize
        ensures value { result ≡ requests }
        ensures few { result ≤ 1024 };
}

/// How many subscribers, and how many publishers, a pub-sub channel may have: at most 16 of each.
#[derive(Debug, Drop)]
pub struct Handles {
    subscribers: usize,
    publishers: usize,
}

impl Model for Handles {
    ghost use Rattle.std.specs.Prelude.{◌≤◌};
    ghost use Rattle.esync_script.specs.Capacity.{Handles as Handled, handles_code};

    ghost Value = { Handled };

    ghost coded = { handles_code };

    ghost view = { λ a. record { subscribers = a.subscribers; publishers = a.publishers } };

    ghost invariant = { λ a. (a.subscribers ≤ 16) × (a.publishers ≤ 16) };
}

impl Handles {
    /// Returns four subscribers and four publishers, which a channel may have where line 1 doesn't say how many.
    pub fn four() -> Self
        ensures { result ≡ four_and_four }
    {
        Handles {
            subscribers: 4,
            publishers: 4,
        }
    }

    /// Returns these numbers, if none is above 16.
    pub fn of(subscribers: u64, publishers: u64) -> Option<Self>
        ensures { result ≡ handles subscribers publishers }
    {
        if subscribers > NAMES as u64 || publishers > NAMES as u64 {
            return None;
        }
        Some(Handles {
            subscribers: subscribers as usize,
            publishers: publishers as usize,
        })
    }

    /// Returns how many subscribers there may be.
    pub fn subscribers(&self) -> usize
        ensures value { result ≡ self.now.subscribers }
        ensures few { result ≤ 16 }
    {
        self.subscribers
    }

    /// Returns how many publishers there may be.
    pub fn publishers(&self) -> usize
        ensures value { result ≡ self.now.publishers }
        ensures few { result ≤ 16 }
    {
        self.publishers
    }
}

/// A capacity as line 1 says it. A language of scripts has one type of capacities, which stands for the language: it
/// says how long a line is, how many bytes a command of a pipe has, how many bits a value, how many requests there can
/// be at a time, and which numbers of subscribers and publishers line 1 can say.
pub trait Size: LineLimit + RequestLimit + Drop {
    ghost use Rattle.std.specs.Prelude.{ℕ, Option};
    ghost use Rattle.esync_script.specs.Capacity.{Handles};

    /// The capacity of this number of places, if line 1 can say it.
    ghost sized: { ℕ → Option Self };

    /// How many places it says.
    ghost size: { Self → ℕ };

    /// These numbers of subscribers and publishers, if line 1 can say them.
    ghost handled: { ℕ → ℕ → Option Handles };

    /// The greatest number of bytes that a command of a pipe writes or reads.
    ghost bytes: { ℕ };

    /// How many bits a value has.
    ghost bits: { ℕ };

    /// Returns the greatest number of bytes that a command of a pipe writes or reads.
    fn bytes() -> usize
        ensures value { result ≡ bytes }
        ensures few { result ≤ 4096 };

    /// Returns how many bits a value has.
    fn bits() -> Bits
        ensures { result ≡ bits };

    /// Returns the capacity of this number of places, if line 1 can say it.
    fn of(places: u64) -> Option<Self>
        ensures { result ≡ sized places };

    /// Returns how many places it says.
    fn places(&self) -> usize
        ensures value { result ≡ size self.now }
        ensures some { 1 ≤ result }
        ensures few { result ≤ 4096 };

    /// Returns these numbers of subscribers and publishers, if line 1 can say them.
    fn handles(subscribers: u64, publishers: u64) -> Option<Handles>
        ensures { result ≡ handled subscribers publishers };
}

/// A capacity that a script of `syncrun` can say.
#[derive(Clone, Copy, Debug, PartialEq, Eq)]
pub enum Capacity {
    One,
    Two,
    Three,
    Four,
    Eight,
}

impl LineLimit for Capacity {
    ghost use Rattle.std.proofs.Common.{arith};

    ghost longest = { 256 };

    ghost a_line_has_room = { omega arith };

    fn longest() -> usize {
        SHORT
    }
}

impl RequestLimit for Capacity {
    ghost requests = { 16 };

    fn requests() -> usize {
        FEW
    }
}

impl Size for Capacity {
    ghost sized = { capacity };

    ghost size = { places };

    ghost handled = { no_handles };

    ghost bytes = { 16 };

    ghost bits = { 32 };

    fn bytes() -> usize {
        16
    }

    fn bits() -> Bits {
        Bits::short()
    }

    fn of(places: u64) -> Option<Self> {
        match places {
            1 => Some(Capacity::One),
            2 => Some(Capacity::Two),
            3 => Some(Capacity::Three),
            4 => Some(Capacity::Four),
            8 => Some(Capacity::Eight),
            _ => None,
        }
    }

    fn places(&self) -> usize {
        match self {
            Capacity::One => 1,
            Capacity::Two => 2,
            Capacity::Three => 3,
            Capacity::Four => 4,
            Capacity::Eight => 8,
        }
    }

    fn handles(_subscribers: u64, _publishers: u64) -> Option<Handles> {
        None
    }
}

/// Any capacity from 1 to the greatest.
#[derive(Debug, Drop)]
pub struct AnyCapacity {
    places: usize,
}

impl Model for AnyCapacity {
    ghost use Rattle.std.specs.Prelude.{ℕ, ◌≤◌};
    ghost use Rattle.std.specs.Coded.{coded_ℕ};

    ghost Value = { ℕ };

    ghost coded = { coded_ℕ };

    ghost view = { λ c. c.places };

    ghost invariant = { λ c. (1 ≤ c.places) × (c.places ≤ 4096) };
}

impl LineLimit for AnyCapacity {
    ghost use Rattle.std.proofs.Common.{arith};

    ghost longest = { 16640 };

    ghost a_line_has_room = { omega arith };

    fn longest() -> usize {
        LONGEST
    }
}

impl RequestLimit for AnyCapacity {
    ghost requests = { 1024 };

    fn requests() -> usize {
        REQS
    }
}

impl Size for AnyCapacity {
    ghost sized = { any_capacity };

    ghost size = { λ c. c };

    ghost handled = { handles };

    ghost bytes = { 4096 };

    ghost bits = { 64 };

    fn bytes() -> usize {
        MOST
    }

    fn bits() -> Bits {
        Bits::long()
    }

    fn of(places: u64) -> Option<Self> {
        if places < 1 || places > MOST as u64 {
            return None;
        }
        Some(AnyCapacity {
            places: places as usize,
        })
    }

    fn places(&self) -> usize {
        self.places
    }

    fn handles(subscribers: u64, publishers: u64) -> Option<Handles> {
        Handles::of(subscribers, publishers)
    }
}
