//! The name that is nearest to an unknown one.
ghost use Rattle.std.specs.Prelude.{◌≡◌, ℕ, List, IfOk, option_map, unwrap_or};
ghost use Rattle.std.specs.Borrow.{Bor};
ghost use Rattle.kc_dotconfig_model.specs.between.Prefixes.{prefix_bytes};
ghost use Rattle.kc_dotconfig_model.specs.between.LineMeanings.{after_front};
ghost use Rattle.kmin_explain.specs.NearestNames.{nearest_name};

use super::names::after_prefix;
use kc_dotconfig::Prefix;
use kc_tree::Tree;
use kmin_details::nearest_symbol;
use std::alloc::{AllocError, Global};

/// The name of a symbol that is nearest to a name, which is taken without the prefix if it has it: the first of those with the fewest
/// changes, of 1 to 3, each of which adds, drops or replaces a byte. An `Err` means out of memory.
pub fn nearest_name<'t>(
    alloc: Global,
    tree: &'t Tree,
    prefix: &Prefix,
    name: &str,
) -> Result<Option<&'t str>, AllocError>
    ensures { IfOk result (λ found. option_map (λ (other : Bor (List ℕ)). other.now) found ≡ nearest_name tree.now.tree (prefix_bytes prefix.now) name.now) }
{
    nearest_symbol(alloc, bare_name(prefix, name), tree)
}

/// A name without the prefix, if it has it.
fn bare_name<'a>(prefix: &Prefix, name: &'a str) -> &'a str
    ensures { result.now ≡ unwrap_or (after_front (prefix_bytes prefix.now) name.now) name.now }
{
    match after_prefix(prefix, name) {
        Some(rest) => rest,
        None => name,
    }
}
