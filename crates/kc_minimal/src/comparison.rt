//! The comparison of configurations.
ghost use Rattle.std.specs.Prelude.{◌≡◌, ◌↔◌, [], true, map, IfOk};
ghost use Rattle.kc_rules.specs.between.SettledViews.{profile_of};
ghost use Rattle.kc_dotconfig_model.specs.PrefixGrammar.{is_name_prefix};
ghost use Rattle.kc_dotconfig_model.specs.Formats.{FileFormat};
ghost use Rattle.kc_config.specs.ConfigStates.{tree_in};
ghost use Rattle.kc_minimal_model.specs.MinimalFile.{minimal_file};
ghost use Rattle.kc_minimal_model.specs.Differences.{differences};
ghost use Rattle.kc_minimal.specs.between.DifferenceViews.{difference_view};

use crate::difference::{Difference, differing};
use kc_config::Config;
use kc_minimal_model::differences_decide_minimal_files;
use std::alloc::{AllocError, Global};

/// The symbols whose values differ between two configurations, in order of first definition, each with both values: none exactly
/// if the minimal files are equal byte for byte, whatever the format. An `Err` means out of memory. The caller owes that both
/// configurations are over the same tree, in the same profile.
pub fn compare(
    alloc: Global,
    left: &Config<'_>,
    right: &Config<'_>,
) -> Result<Vec<Difference>, AllocError>
    requires tree { tree_in left.now ≡ tree_in right.now }
    requires profile { profile_of left.now.system ≡ profile_of right.now.system }
    ensures differences { IfOk result (λ found. found.items ≡ map difference_view (differences (tree_in left.now) left.now.values right.now.values)) }
    ensures none { IfOk result (λ found. (format : FileFormat) → is_name_prefix format.prefix ≡ true → (found.items ≡ []) ↔ (minimal_file format (profile_of left.now.system) (tree_in left.now) left.now.values ≡ minimal_file format (profile_of left.now.system) (tree_in left.now) right.now.values)) }
{
    differences_decide_minimal_files();
    differing(alloc, left.settled(), left.values(), right.values())
}
