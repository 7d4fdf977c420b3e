//! The meter of evaluations.
ghost use Rattle.std.specs.Prelude.{◌≡◌, ◌+◌, ◌<◌, ◌^◌, min};

/// A meter that counts evaluations of rules, up to 2^64 - 1. It has no model, which would let it be any number, so that the law of
/// its greatest count would fail.
#[derive(Drop)]
pub struct Steps {
    count: u64,
    ghost counts: { count < 2 ^ 64 },
}

impl Steps {
    ghost use Rattle.kc_rules.specs.between.Meters.{counted};

    /// A meter that has counted no evaluations.
    pub fn new() -> Steps
        ensures { counted result ≡ 0 }
    {
        Steps { count: 0 }
    }

    /// The number of evaluations that were counted, at most 2^64 - 1.
    pub fn count(&self) -> u64
        ensures { result ≡ counted self.now }
    {
        self.count
    }

    /// Counts one more evaluation, to 2^64 - 1 at most.
    pub(crate) fn step(&mut self)
        ensures { counted self.new ≡ min (counted self.old + 1) u64.MAX }
    {
        if self.count < u64::MAX {
            self.count += 1;
        }
    }
}
