//! What symbols are explained by.
ghost use Rattle.std.specs.Prelude.{◌≡◌};

use kc_builder::TreeLines;
use kc_config::Config;
use kc_config_reasons::FileLines;
use kc_dotconfig::Strings;
use kc_evaluation::Valuation;
use kc_explanation::Context;
use kc_symbol_lines::LineIndex;
use kc_value::Text;
use std::alloc::Global;

/// What symbols are explained by: a configuration; the lines of its tree's files, with their index; the last lines of each of its own
/// files, in their order; the paths of the former by their numbers, and of the latter; and how strings are spelled.
#[derive(Clone, Copy)]
pub struct Sources<'a> {
    pub alloc: Global,
    pub config: &'a Config<'a>,
    pub lines: &'a TreeLines,
    pub index: &'a LineIndex,
    pub files: &'a [FileLines],
    pub tree_paths: &'a [Text],
    pub file_paths: &'a [&'a str],
    pub strings: Strings,
}

impl<'a> Sources<'a> {
    /// What texts are written by, with these values of symbols.
    pub fn context(self, under: &'a Valuation<'a>) -> Context<'a>
        ensures under { result.under.now ≡ under.now }
        ensures strings { result.strings ≡ self.entry.strings }
        ensures paths { result.paths.now ≡ self.entry.tree_paths.now }
    {
        Context {
            alloc: self.alloc,
            under,
            strings: self.strings,
            paths: self.tree_paths,
        }
    }
}
