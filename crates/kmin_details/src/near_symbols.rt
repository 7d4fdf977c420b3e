//! The name of a tree nearest to a word. The tips of the command line count swapped neighbours as one step, and take the first name that
//! is near enough.
ghost use Rattle.std.specs.Prelude.{◌≡◌, ℕ, List, map, option_map, IfOk};
ghost use Rattle.std.specs.Borrow.{Bor};
ghost use Rattle.kc_tree_model.specs.Trees.{Symbol};
ghost use Rattle.kmin_details.specs.NearNames.{nearest};

use crate::near_names::nearest;
use kc_tree::{Sym, Tree};
use std::alloc::{AllocError, Global};

/// The name of a tree's symbol that is nearest to a word: the first of those with the fewest changes, of 1 to 3. An `Err` means out
/// of memory.
pub fn nearest_symbol<'t>(
    alloc: Global,
    word: &str,
    tree: &'t Tree,
) -> Result<Option<&'t str>, AllocError>
    ensures { IfOk result (λ found. option_map (λ (name : Bor (List ℕ)). name.now) found ≡ nearest word.now (map (λ (symbol : Symbol). symbol.name) tree.now.tree.symbols)) }
{
    let names = symbol_names(alloc, tree)?;
    nearest(alloc, word, &names)
}

/// The names of a tree's symbols, in order of first definition.
fn symbol_names<'t>(alloc: Global, tree: &'t Tree) -> Result<Vec<&'t str>, AllocError>
    ensures { IfOk result (λ names. map (λ (name : Bor (List ℕ)). name.now) names.items ≡ map (λ (symbol : Symbol). symbol.name) tree.now.tree.symbols) }
{
    let mut names = Vec::new(alloc);
    for number in 0..tree.symbol_count() {
        names.push(tree.name(Sym::at(number)))?;
    }
    Ok(names)
}
