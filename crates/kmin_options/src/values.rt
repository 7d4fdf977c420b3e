//! The values that `clap` found.
ghost use Rattle.std.specs.Prelude.{◌≡◌, nat_lt, length, map, List, ℕ, IfOk};
ghost use Rattle.std.specs.Borrow.{Bor};
ghost use Rattle.clap.specs.Words.{found_of};
ghost use Rattle.kmin_options.specs.between.OptionValues as parsed;

use clap::ArgMatches;
use std::alloc::{AllocError, Global};

/// The value of an option with a default, of a required word, or of a flag, which is `true` or `false`; empty where
/// there is none.
pub fn value_of<'a>(matches: &ArgMatches<'a>, id: &str) -> &'a str
    ensures { result.now ≡ parsed.value_of (found_of matches.now) id.now }
{
    matches.get_str(id).unwrap_or("")
}

/// Whether a flag is given on the command line.
pub fn is_given(matches: &ArgMatches<'_>, id: &str) -> bool
    ensures { result ≡ parsed.is_given (found_of matches.now) id.now }
{
    value_of(matches, id) == "true"
}

/// Whether a repeatable option or word has a value.
pub(crate) fn has_values(matches: &ArgMatches<'_>, id: &str) -> bool
    ensures { result ≡ nat_lt 0 (length (parsed.values_of (found_of matches.now) id.now)) }
{
    match matches.get_strs(id) {
        Some(values) => !values.is_empty(),
        None => false,
    }
}

/// The values of a repeatable option or word, in order.
pub fn values_of<'a>(
    alloc: Global,
    matches: &ArgMatches<'a>,
    id: &str,
) -> Result<Vec<&'a str>, AllocError>
    ensures { IfOk result (λ values. map (λ (value : Bor (List ℕ)). value.now) values.items ≡ parsed.values_of (found_of matches.now) id.now) }
{
    Vec::from_slice(alloc, matches.get_strs(id).unwrap_or(&[]))
}
