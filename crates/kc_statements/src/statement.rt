//! The statements that are read: expressions and names are numbers of an arena.
use kc_expr::{ExprId, NameId};
use kc_tree_model::{
    Attribute, DefaultAttribute, Head, RangeAttribute, Statement, TargetAttribute,
};
use kc_value::Text;

/// A statement other than an attribute.
pub type ReadHead<'a> = Head<ExprId, &'a str, Text>;

/// A `default` attribute.
pub type ReadDefault = DefaultAttribute<ExprId>;

/// A `select` or `imply` attribute.
pub type ReadTarget = TargetAttribute<ExprId, NameId>;

/// A `range` attribute; each bound is an expression of one operand.
pub type ReadRange = RangeAttribute<ExprId, ExprId>;

/// An attribute of the entry that is open.
pub type ReadAttribute = Attribute<ExprId, ExprId, NameId>;

/// The statement that a logical line represents.
pub type ReadStatement<'a> = Statement<ReadHead<'a>, ReadAttribute>;
