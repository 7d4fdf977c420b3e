//! The text of places.
ghost use Rattle.std.specs.Prelude.{◌≡◌, ◌++◌, [], OnOk, option_map, slice_index_or};
ghost use Rattle.kc_symbol_lines.specs.between.LinesView.{position_view};
ghost use Rattle.kc_explanation.specs.Explained.{in_parentheses};
ghost use Rattle.kc_explanation.specs.Located.{place_text, place_in_parentheses};

use itoa::Buffer;
use kc_symbol_lines::Position;
use kc_value::Text;
use std::alloc::AllocError;

/// The path of a file of the tree by its number; empty where there is none.
pub fn path_of(paths: &[Text], file: u32) -> &str
    ensures { result.now ≡ slice_index_or paths.now file [] }
{
    match paths.get(file as usize) {
        None => "",
        Some(path) => path.as_str(),
    }
}

/// Appends a place in parentheses, by the paths of the tree's files in the order of their numbers.
pub(crate) fn push_place(out: &mut Vec<u8>, paths: &[Text], at: Position) -> Result<(), AllocError>
    ensures { OnOk result (out.new.items ≡ out.old.items ++ in_parentheses (place_text paths.now (position_view at))) }
{
    out.extend_from_slice(b" (")?;
    push_tree_place(out, paths, at)?;
    out.extend_from_slice(b")")?;
    Ok(())
}

/// Appends the place of a line of a tree, `PATH:LINE`, by the paths of the tree's files in the order of their numbers. An `Err` means
/// out of memory.
pub fn push_tree_place(out: &mut Vec<u8>, paths: &[Text], at: Position) -> Result<(), AllocError>
    ensures { OnOk result (out.new.items ≡ out.old.items ++ place_text paths.now (position_view at)) }
{
    let mut digits = Buffer::new();
    out.extend_from_slice(path_of(paths, at.file).as_bytes())?;
    out.extend_from_slice(b":")?;
    out.extend_from_slice(digits.format(at.line).as_bytes())?;
    Ok(())
}

/// Appends a place in parentheses, if there is one.
pub(crate) fn push_place_if(
    out: &mut Vec<u8>,
    paths: &[Text],
    at: Option<Position>,
) -> Result<(), AllocError>
    ensures { OnOk result (out.new.items ≡ out.old.items ++ place_in_parentheses paths.now (option_map position_view at)) }
{
    match at {
        None => out.extend_from_slice(b""),
        Some(at) => push_place(out, paths, at),
    }
}
