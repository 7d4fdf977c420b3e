//! Units with dependencies and a rule for each: an order of dependency or a cycle, the one solution of an assignment, and
//! sessions, in which a change takes as many evaluations as it touches units.
#![tactic(auto)]

mod acyclic_graphs;
mod changed_units;
mod copies;
mod cycle_search;
mod dependency_order;
mod elimination;
mod least_assignments;
mod orders;
mod place_sets;
mod places;
mod plans;
mod revision;
mod rows;
mod sessions;
mod solution;
mod system;
mod undo_log;
mod updates;
mod user_values;

pub use acyclic_graphs::acyclic_graphs_have_orders;
pub use changed_units::ChangedUnits;
pub use dependency_order::order;
pub use least_assignments::kept_units;
pub use orders::{Order, OrderFault};
pub use sessions::Session;
pub use solution::solve;
pub use system::{Graph, System};
