//! What is read of the texts of a tree: the tree, and what is kept of the lines of its files.
ghost use Rattle.std.specs.Prelude.{ℕ, List};
ghost use Rattle.kc_builder.specs.between.TreeLines.{IsTreeWithLines};
ghost use Rattle.kc_tree.specs.TreeModel.{TreeModel};
ghost use Rattle.kc_tree_model.specs.TreeFiles as trees;
ghost use Rattle.kmin_trees.specs.between.Readings.{IsReadWith};

use crate::trees::read_texts;
use kc_builder::{TreeLines, TreeWithLines, read_tree_with_lines};
use kc_tree::{Texts, Tree, TreeFault};
use std::alloc::Global;

/// A tree that was read, and what is kept of the lines of its files.
#[derive(Drop)]
pub(crate) struct ReadTree<L> {
    pub(crate) tree: Tree,
    pub(crate) lines: L,
}

/// What may be kept of the lines of a tree's files.
pub(crate) trait KeptLines: Drop {
    /// That they are of a tree that was read from texts, beginning with the file at a path.
    ghost are_of: { trees.Files → List ℕ → TreeModel → Self → Type 0 };

    /// Reads texts as a tree, from the file at the path `first` on.
    fn read(alloc: Global, texts: &Texts, first: &str) -> Result<ReadTree<Self>, TreeFault>
        ensures { IsReadWith Self are_of texts.now first.now result };
}

/// No lines are kept.
impl KeptLines for () {
    ghost are_of = { λ files first tree lines. Unit {0} };

    fn read(alloc: Global, texts: &Texts, first: &str) -> Result<ReadTree<()>, TreeFault> {
        match read_texts(alloc, texts, first) {
            Ok(tree) => Ok(ReadTree { tree, lines: () }),
            Err(fault) => Err(fault),
        }
    }
}

/// All lines are kept.
impl KeptLines for TreeLines {
    ghost are_of = { IsTreeWithLines };

    fn read(alloc: Global, texts: &Texts, first: &str) -> Result<ReadTree<TreeLines>, TreeFault> {
        match read_tree_with_lines(alloc, texts, first) {
            Ok(TreeWithLines { tree, lines }) => Ok(ReadTree { tree, lines }),
            Err(fault) => Err(fault),
        }
    }
}
