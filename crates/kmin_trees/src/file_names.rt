//! The names of a tree's files in messages.
ghost use Rattle.std.specs.Prelude.{◌≡◌, length, option_map};
ghost use Rattle.kc_tree_model.specs.TreeFiles.{path_at};
ghost use Rattle.kmin_trees.specs.between.FileNames.{names_of, texts_named, texts_of};

use kc_expansion::ExpandedTree;
use kc_tree::Texts;
use kmin_report::file_name;

/// The texts of a tree, and the names of its files in messages: their paths among the texts, or for expanded files the paths that were
/// read.
#[derive(Drop)]
pub struct FileNames<'a> {
    pub(crate) texts: &'a Texts,
    pub(crate) expanded: Option<&'a ExpandedTree>,
}

impl<'a> FileNames<'a> {
    /// The names of the files of a tree without expansion: their paths among the texts.
    pub fn of_texts(texts: &'a Texts) -> FileNames<'a>
        ensures names { names_of result ≡ texts.now }
        ensures texts { texts_of result ≡ texts.now }
    {
        FileNames {
            texts,
            expanded: None,
        }
    }

    /// The names of the files of a tree that may be expanded: those of an expanded one are the paths that were read for their keys.
    pub(crate) fn of_tree(texts: &'a Texts, expanded: &'a Option<ExpandedTree>) -> FileNames<'a>
        ensures names { names_of result ≡ texts_named expanded.now texts.now }
        ensures texts { texts_of result ≡ texts.now }
    {
        match expanded {
            Some(tree) => FileNames {
                texts,
                expanded: Some(tree),
            },
            None => FileNames::of_texts(texts),
        }
    }

    /// The count of the files.
    pub(crate) fn len(&self) -> usize
        ensures { result ≡ length (names_of self.now).list }
    {
        self.texts.len()
    }

    /// The name, in messages, of the file of this number among the texts; `None` if there is no such file.
    pub(crate) fn name_at(&self, number: u32) -> Option<&'a [u8]>
        ensures { option_map (λ name. name.now) result ≡ path_at (names_of self.now) number }
    {
        file_name(self.texts, self.expanded, number)
    }
}
