//! The reasons of a symbol with their places.
#![tactic(auto)]

mod given_places;
pub mod laws;
mod located_parts;
mod needs;

pub use given_places::place_of_case;
pub use located_parts::{LocatedPart, located_lacking, located_lacking_of_each};
pub use needs::{dependencies_lack_at, prompts_lack_at};
