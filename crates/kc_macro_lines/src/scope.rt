//! The scope in which a line is expanded.
use kc_macros::{Bindings, Place};

/// The scope of a line: its place, and the variables that have values there.
#[derive(Clone, Copy)]
pub(crate) struct Scope<'a> {
    pub(crate) at: Place<'a>,
    pub(crate) bindings: &'a Bindings,
}
