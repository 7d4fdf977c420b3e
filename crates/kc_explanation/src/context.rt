//! What texts are written by.
use kc_dotconfig_model::Strings;
use kc_evaluation::Valuation;
use kc_value::Text;
use std::alloc::Global;

/// What a text is written by.
#[derive(Clone, Copy)]
pub struct Context<'a> {
    pub alloc: Global,
    /// The values of symbols.
    pub under: &'a Valuation<'a>,
    /// How strings are spelled.
    pub strings: Strings,
    /// The paths of the tree's files in the order of their numbers.
    pub paths: &'a [Text],
}
