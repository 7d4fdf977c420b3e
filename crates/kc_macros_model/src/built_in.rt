//! The built-in functions of the macro language.

/// A built-in function of the macro language, which a tree can call without defining it.
#[derive(Clone, Copy)]
pub enum BuiltIn {
    Filename,
    Lineno,
    Shell,
    Info,
    WarningIf,
    ErrorIf,
}
