//! The names of a tree's files in messages.
ghost use Rattle.std.specs.Prelude.{◌≡◌, option_map};
ghost use Rattle.kc_tree_model.specs.TreeFiles.{path_at};
ghost use Rattle.kmin_report.specs.FileNames.{name_of_key};
ghost use Rattle.kmin_report.specs.between.ReportLines.{names_among};

use kc_files::ExpandedTree;
use kc_tree::Texts;

/// The name, in messages, of the file of this number among texts: its path there, or of an expanded file the path that was read;
/// `None` if there is no such file.
pub fn file_name<'a>(
    texts: &'a Texts,
    expanded: Option<&'a ExpandedTree>,
    number: u32,
) -> Option<&'a [u8]>
    ensures { option_map (λ name. name.now) result ≡ path_at (names_among texts.now expanded.entry) number }
{
    let key = texts.path_at(number)?;
    match expanded {
        Some(tree) => Some(name_of_key(tree, key)),
        None => Some(key.as_bytes()),
    }
}

/// The path that was read for the key of an expanded file.
fn name_of_key<'a>(tree: &'a ExpandedTree, key: &'a str) -> &'a [u8]
    ensures { result.now ≡ name_of_key tree.now key.now }
{
    tree.path_of(key.as_bytes()).unwrap_or(key.as_bytes())
}
