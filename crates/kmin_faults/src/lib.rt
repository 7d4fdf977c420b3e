//! What the texts of a tree have beside the line of a fault: the limit that the line passes, the first definition of its symbol, the
//! path that it sources, and what makes each unit of a cycle depend on the next.
#![tactic(auto)]

mod causes;
mod first_places;
mod listings;
mod naming_parts;
mod passed_limits;
mod sourced_paths;
mod steps;

pub use causes::{Cause, cause_of};
pub use first_places::{TextPlace, first_type, other_definition};
pub use passed_limits::{Limit, expansion_limit, limit_of};
pub use sourced_paths::{is_open, sourced_path};
pub use steps::{Step, cycle_steps, unit_names};
