//! The built-in functions of the macro language.
ghost use Rattle.std.specs.Prelude.{◌≡◌, bytes_eq};
ghost use Rattle.kc_tree_model.specs.Keywords.{keyword_in_table};
ghost use Rattle.kc_macros_model.specs.Variables.{built_ins};
ghost use Rattle.kc_macros.specs.checker.BuiltIns.{arity_of};

use kc_macros_model::BuiltIn;

/// Whether two texts are equal.
pub fn is_text(text: &[u8], other: &[u8]) -> bool
    ensures { result ≡ bytes_eq text.now other.now }
{
    text == other
}

/// The built-in function of this name, if there is one.
pub(crate) fn built_in(name: &[u8]) -> Option<BuiltIn>
    ensures { result ≡ keyword_in_table built_ins name.now }
{
    if is_text(b"filename", name) {
        Some(BuiltIn::Filename)
    } else if is_text(b"lineno", name) {
        Some(BuiltIn::Lineno)
    } else if is_text(b"shell", name) {
        Some(BuiltIn::Shell)
    } else if is_text(b"info", name) {
        Some(BuiltIn::Info)
    } else if is_text(b"warning-if", name) {
        Some(BuiltIn::WarningIf)
    } else if is_text(b"error-if", name) {
        Some(BuiltIn::ErrorIf)
    } else {
        None
    }
}

/// The number of arguments that a built-in function takes.
pub(crate) fn arity(function: BuiltIn) -> usize
    ensures { result ≡ arity_of function }
{
    match function {
        BuiltIn::Filename | BuiltIn::Lineno => 0,
        BuiltIn::Shell | BuiltIn::Info => 1,
        BuiltIn::WarningIf | BuiltIn::ErrorIf => 2,
    }
}
