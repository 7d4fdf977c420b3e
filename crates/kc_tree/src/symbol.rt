//! Symbols and choices as a tree returns them.
use kc_expr::{ExprId, NameId};
use kc_tree_model::Sym;
use kc_value::Kind;

/// A default of a symbol: its value, its joined condition, and whether it is an `option env`.
#[derive(Clone, Copy)]
pub struct Default {
    pub value: ExprId,
    pub condition: ExprId,
    pub from_environment: bool,
}

/// A range of a symbol: its bounds, each an operand, and its joined condition.
#[derive(Clone, Copy)]
pub struct Range {
    pub low: ExprId,
    pub high: ExprId,
    pub condition: ExprId,
}

/// A `select` or `imply` of a target symbol: the symbol that has the attribute, and the attribute's joined condition.
#[derive(Clone, Copy)]
pub struct ReverseDependency {
    pub by: Sym,
    pub condition: ExprId,
}

/// A symbol: its name and type, the file's number and the line of its first definition, the number of its choice if it is a
/// member, the number of its unit, and the attributes of all its definitions in reading order, each condition joined with the
/// enclosing ones. `direct` has the dependency of each definition, of a choice member only that of its definition in the choice.
#[derive(Clone, Copy)]
pub struct Symbol<'a> {
    pub name: NameId,
    pub kind: Kind,
    pub file: u32,
    pub line: u32,
    pub choice: Option<u32>,
    pub unit: u32,
    pub prompts: &'a [ExprId],
    pub defaults: &'a [Default],
    pub ranges: &'a [Range],
    pub selectors: &'a [ReverseDependency],
    pub impliers: &'a [ReverseDependency],
    pub direct: &'a [ExprId],
}

/// A default of a choice: the member that it names, and its joined condition.
#[derive(Clone, Copy)]
pub struct MemberDefault {
    pub member: Sym,
    pub condition: ExprId,
}

/// A choice: its file's number and its line, the number of its unit, its members in order of definition, the joined condition of
/// its prompt if it has one, its defaults, and whether it is optional.
#[derive(Clone, Copy)]
pub struct Choice<'a> {
    pub file: u32,
    pub line: u32,
    pub unit: u32,
    pub members: &'a [Sym],
    pub prompt: Option<ExprId>,
    pub defaults: &'a [MemberDefault],
    pub optional: bool,
}
