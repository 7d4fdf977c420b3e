//! A valuation: rules, and a value for each unit.
use super::rules::Rules;
use kc_expr::{ExprId, Looked, Lookup, NameId, Operand};
use kc_rules_model::UnitValue;
use kc_tree::Sym;
use kc_value::{Kind, Tri};

/// The rules of a tree and values of its units, under which symbols and expressions have values.
#[derive(Clone, Copy)]
pub struct Valuation<'a> {
    pub rules: &'a Rules,
    pub values: &'a [UnitValue],
}
