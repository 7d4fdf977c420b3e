//! Operands of expressions.
use super::ids::NameId;
use kc_value::Tri;

/// An operand that is a whole expression: a name, a quoted text other than the constants, or one of the constants.
#[derive(Clone, Copy)]
pub enum Operand<'a> {
    Name(NameId),
    Quoted(&'a str),
    Tri(Tri),
}
