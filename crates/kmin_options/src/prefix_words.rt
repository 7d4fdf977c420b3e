//! The options `--prefix` and `--no-prefix`.
ghost use Rattle.std.specs.Prelude.{◌≡◌};
ghost use Rattle.clap.specs.Words.{found_of, is_present};
ghost use Rattle.kc_dotconfig_model.specs.between.Prefixes.{prefix_bytes};
ghost use Rattle.kmin_options.specs.between.OptionValues as parsed;
ghost use Rattle.kmin_options.specs.between.Refusals.{Agrees};

use crate::refusal::Refusal;
use crate::values::{is_given, value_of};
use clap::ArgMatches;
use clap::parser::ValueSource;
use kc_dotconfig_model::Prefix;

/// The message with which `--no-prefix` is refused beside `--prefix`.
const TWO_PREFIXES: &str = "error: the argument '--prefix <TEXT>' cannot be used with '--no-prefix'

For more information, try '--help'.
";

/// What comes before names in configuration files: nothing with `--no-prefix`, which is refused beside `--prefix`, and
/// else the value of `--prefix`.
pub fn name_prefix_of(matches: &ArgMatches<'_>) -> Result<Prefix, Refusal>
    ensures { Agrees prefix_bytes (parsed.name_prefix_of (found_of matches.now)) result }
{
    if !is_given(matches, "no-prefix") {
        prefix_of(value_of(matches, "prefix"))
    } else if is_in_words(matches, "prefix") {
        Err(Refusal::Words(TWO_PREFIXES))
    } else {
        Ok(Prefix::none())
    }
}

/// Whether the words give an option a value, which isn't its default.
fn is_in_words(matches: &ArgMatches<'_>, id: &str) -> bool
    ensures { result ≡ is_present (found_of matches.now) id.now }
{
    match matches.value_source(id) {
        Some(ValueSource::CommandLine) => true,
        Some(ValueSource::DefaultValue) => false,
        None => matches.contains_id(id),
    }
}

/// The value of `--prefix`, which is refused if it is no prefix of names.
fn prefix_of(text: &str) -> Result<Prefix, Refusal>
    ensures { Agrees prefix_bytes (parsed.prefix_of text.now) result }
{
    match Prefix::of(text.as_bytes()) {
        Some(prefix) => Ok(prefix),
        None => Err(Refusal::Words("prefix: Malformed\n")),
    }
}
