//! Frames in which texts are expanded.
ghost use Rattle.std.specs.Prelude.{◌≡◌, ◌∷◌, IfOk, bytes_eq};
ghost use Rattle.std.specs.List.{list_any};
ghost use Rattle.kc_macros_model.specs.Expansion.{is_recursion};
ghost use Rattle.kc_macros.specs.between.SliceTexts.{texts_of_slices};

use super::bindings::Bindings;
use super::built_in_functions::is_text;
use super::bytes::Bytes;
use super::stop::Place;
use std::alloc::{AllocError, Global};

/// A frame in which a text is expanded: its line, the variables, the names whose values are being expanded, the arguments of
/// the call, and how many expansions may still be open within each other.
#[derive(Clone, Copy)]
pub(crate) struct Frame<'a> {
    pub at: Place<'a>,
    pub bindings: &'a Bindings,
    pub names: &'a [&'a [u8]],
    pub(crate) args: &'a [Option<Bytes>],
    pub more: u32,
}

/// Whether a name is among those whose values are being expanded.
fn is_open(names: &[&[u8]], name: &[u8]) -> bool
    ensures { result ≡ list_any (λ n. bytes_eq name.now n.now) names.now }
{
    names.iter().any(|other| is_text(name, other))
}

/// Whether a reference without arguments is to a variable whose value is being expanded already.
pub(crate) fn is_recursion(names: &[&[u8]], name: &[u8], args: &[Option<Bytes>]) -> bool
    ensures { result ≡ is_recursion (texts_of_slices names.now) name.now args.now }
{
    if args.is_empty() {
        return is_open(names, name);
    }
    false
}

/// The names or paths that are open within each other, the innermost first, with one more that is opened within them. An `Err`
/// means out of memory.
pub fn with_innermost<'a>(
    alloc: Global,
    inner: &'a [u8],
    outer: &[&'a [u8]],
) -> Result<Vec<&'a [u8]>, AllocError>
    ensures { IfOk result (λ all. texts_of_slices all.items ≡ inner.now ∷ texts_of_slices outer.now) }
{
    let mut all = Vec::new(alloc);
    all.push(inner)?;
    all.extend_from_slice(outer)?;
    Ok(all)
}
