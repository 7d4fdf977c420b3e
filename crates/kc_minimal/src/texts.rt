//! The minimal and the full file of a configuration.
ghost use Rattle.std.specs.Prelude.{◌≡◌, ◌≤◌, true, length, IfOk};
ghost use Rattle.kc_solver.specs.Solutions.{UniquelySolves};
ghost use Rattle.kc_rules_model.specs.Rule.{rule};
ghost use Rattle.kc_rules.specs.between.SettledViews.{profile_of};
ghost use Rattle.kc_dotconfig_model.specs.between.Formats.{file_format};
ghost use Rattle.kc_dotconfig_model.specs.ConfigFiles.{file_lines};
ghost use Rattle.kc_value.specs.declared.limits.TheConstants.{MAX_CONFIG_BYTES, MAX_CONFIG_LINES};
ghost use Rattle.kc_config.specs.ConfigStates.{tree_in};
ghost use Rattle.kc_minimal_model.specs.CanonicalText.{IsCanonicalText};
ghost use Rattle.kc_minimal_model.specs.FullFile.{full_file};
ghost use Rattle.kc_minimal_model.specs.FullFileLaws.{IsUnlifted};
ghost use Rattle.kc_minimal_model.specs.FileValues.{ReadsTo, Loads, has_short_lines};

use crate::full::full_lines;
use crate::minimal::minimal_lines;
use kc_config::Config;
use kc_dotconfig::Format;
use kc_minimal_model::{
    full_files_lead_back, minimal_texts_are_canonical, read_files_are_accepted,
};
use std::alloc::{AllocError, Global};

/// The minimal file of a configuration (`make savedefconfig`), in order of first definition: a line for each symbol outside
/// choices, and for the selected member of each choice, if the rule of the symbol or choice gives another value without a user
/// value while all other values stay. It depends on the configuration's values alone. An `Err` means out of memory.
///
/// The text is canonical: a file gives every symbol the same value exactly if its minimal file is this text byte for byte;
/// reading it gives the values back; its own minimal file is the same; without any of its lines some symbol has another value;
/// and no assignment and no file with the same values assigns less. The values are the only ones that the configuration's user
/// values give.
pub fn minimal_text(
    alloc: Global,
    config: &Config<'_>,
    format: &Format,
) -> Result<Vec<u8>, AllocError>
    ensures canonical { IfOk result (λ text. IsCanonicalText (file_format format.now) (profile_of config.now.system) (tree_in config.now) config.now.values text.items) }
    ensures values { UniquelySolves (length (tree_in config.now).units) (rule (profile_of config.now.system) (tree_in config.now)) config.now.users config.now.values }
{
    minimal_texts_are_canonical();
    minimal_lines(
        alloc,
        config.settled(),
        format,
        config.users(),
        config.values(),
    )
}

/// The full file of a configuration: its symbols that are visible, have a default, or are selected or implied, each at its first
/// definition, with the titles of menus and comments. An `Err` means out of memory.
///
/// Where no tristate is above its visibility, reading the full file gives the values back.
pub fn full_text(alloc: Global, config: &Config<'_>, format: &Format) -> Result<Vec<u8>, AllocError>
    ensures text { IfOk result (λ text. text.items ≡ full_file (file_format format.now) (tree_in config.now) config.now.values) }
    ensures back { IfOk result (λ text. IsUnlifted (profile_of config.now.system) (tree_in config.now) config.now.values → ReadsTo (file_format format.now) (profile_of config.now.system) (tree_in config.now) text.items config.now.values) }
    ensures accepted { IfOk result (λ text. IsUnlifted (profile_of config.now.system) (tree_in config.now) config.now.values → length text.items ≤ MAX_CONFIG_BYTES → length (file_lines text.items) ≤ MAX_CONFIG_LINES → has_short_lines text.items ≡ true → Loads (file_format format.now) (profile_of config.now.system) (tree_in config.now) text.items config.now.values) }
{
    full_files_lead_back();
    read_files_are_accepted();
    full_lines(alloc, config.settled(), format, config.values())
}
