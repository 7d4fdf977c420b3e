//! The walk over what was read that joins each group's conditions, and those of its attributes, with the enclosing ones.
#![tactic(auto)]

mod conditions;
mod group_conditions;
mod group_walk;
mod listing_walk;

pub use group_conditions::conditions_of;
pub use group_walk::{GroupConditions, first_condition};
pub use listing_walk::{WalkedListing, walk_all};
