//! A count that contracts see, and that the program doesn't have.
ghost use Rattle.std.specs.Prelude.{◌≡◌, ℕ, ◌+◌};
ghost use Rattle.std.specs.Borrow.{ftrue};

use std::marker::Model;

// A number without bytes. It owns nothing, so a contract may tell it while the program doesn't keep it.
#[derive(Drop)]
pub(crate) struct Count {
    seal: (),
    pub(crate) ghost number: { ℕ },
}

impl Model for Count {
    ghost also_owns = { λ _. ftrue };
}

impl Count {
    pub(crate) fn new() -> Count
        ensures { result.number ≡ 0 }
    {
        Count { seal: () }
    }

    pub(crate) fn tick(&mut self)
        ensures { self.new.number ≡ self.old.number + 1 }
    {}
}

/// How many times two items were compared. It takes no bytes and no time: only contracts see the number.
#[derive(Drop)]
pub struct Comparisons {
    count: Count,
}

impl Model for Comparisons {
    ghost use Rattle.std.specs.Prelude.{ℕ};

    ghost Value = { ℕ };

    ghost view = { λ c. c.count.number };
}

impl Comparisons {
    /// Returns a count of 0.
    pub fn new() -> Self
        ensures { result ≡ 0 }
    {
        Comparisons {
            count: Count::new(),
        }
    }

    /// Counts one more comparison. `Kind::above` calls it once.
    pub fn tick(&mut self)
        ensures { self.new ≡ self.old + 1 }
    {
        self.count.tick();
    }
}
