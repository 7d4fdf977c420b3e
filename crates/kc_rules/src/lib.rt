//! Kconfig as a system of units, each with a rule for its value.
#![tactic(auto)]

mod choices;
mod fault;
mod graphs;
mod queries;
mod reports;
mod rules;
mod settlement;
mod shapes;
mod steps;
mod systems;

pub use fault::SettleFault;
pub use kc_rules_model::{MemberLine, MemberLines, Profile, UnitValue, UserValue};
pub use rules::Settled;
pub use settlement::settle;
pub use steps::Steps;
