//! Orders of dependency, and the faults of units that have none.
ghost use Rattle.std.specs.Prelude.{◌≡◌, ℕ, List};
ghost use Rattle.kc_solver.specs.declared.orders.OrderFault.TheVariants.{OutOfMemory};

use std::alloc::AllocError;
use std::error::Error;
use std::fmt;
use std::marker::Model;

/// All units of a graph in an order of dependency: each after the units that it depends on.
#[derive(Drop)]
pub struct Order {
    pub(crate) units: Vec<u32>,
}

impl Model for Order {
    ghost Value = { List ℕ };

    ghost view = { λ o. o.units.items };
}

impl Order {
    /// The units of the graph by their numbers, each after its dependencies.
    pub fn units(&self) -> &[u32]
        ensures { result.now ≡ self.now }
    {
        self.units.as_slice()
    }
}

/// Why a graph got no order of dependency. Not derived by `thiserror`, since the crate uses no other.
#[derive(Debug, Drop)]
pub enum OrderFault {
    /// The units of a cycle: each depends on the next, and the last on the first.
    Cycle(Vec<u32>),

    /// Memory ran out.
    OutOfMemory,
}

impl fmt::Display for OrderFault {
    fn fmt<W: fmt::Write>(&self, f: &mut fmt::Formatter<W>) -> fmt::Result {
        match self {
            OrderFault::Cycle(_) => write!(f, "Cycle"),
            OrderFault::OutOfMemory => write!(f, "OutOfMemory"),
        }
    }
}

impl Error for OrderFault {}

/// Memory ran out: an `AllocError`, or an error that becomes one.
impl<E: Into<AllocError> + Drop> From<E> for OrderFault {
    ghost from_gives = { λ _ e. e ≡ OutOfMemory };

    fn from(_e: E) -> OrderFault {
        OrderFault::OutOfMemory
    }
}
