//! A count of the lines that were classified.
ghost use Rattle.std.specs.Prelude.{◌≡◌, ◌+◌, ◌-◌, ◌^◌, ◌<◌, min};

use std::marker::Model;

/// How many lines were classified. Contracts see the number.
///
/// Each call that gives a line its class takes a meter and adds one to it, so a meter bounds the
/// work of a call that reads lines anew. A meter cannot be copied. A call that takes a meter could
/// put a new one in its place. So each such call says that the count is no lower afterwards, also
/// if it answers a fault.
///
/// A call could also make a meter of its own and read lines on it. No contract says that none does:
/// whoever doubts it looks where [`Meter::new`] stands in the sources. Sessions and `Doc::open` make
/// one, and so does the query `caveats`.
#[derive(Debug, Drop)]
pub struct Meter {
    count: u64,
}

impl Model for Meter {
    ghost use Rattle.std.specs.Prelude.{ℕ};

    ghost Value = { ℕ };

    ghost view = { λ meter. meter.count };
}

impl Meter {
    /// A meter that has counted no line. Takes no memory. Whoever makes one answers for what is read
    /// on it.
    pub fn new() -> Meter
        ensures { result ≡ 0 }
    {
        Meter { count: 0 }
    }

    /// How many lines were counted. If the answer is the greatest `u64`, there may have been more.
    /// Takes no memory.
    pub fn count(&self) -> u64
        ensures { result ≡ self.now }
    {
        self.count
    }

    /// Counts one more line. At the greatest `u64` the count stays.
    pub(crate) fn add(&mut self)
        ensures counted { self.new ≡ min (self.old + 1) (2 ^ 64 - 1) }
        ensures within { self.old < 2 ^ 64 }
    {
        self.count = self.count.saturating_add(1);
    }
}
