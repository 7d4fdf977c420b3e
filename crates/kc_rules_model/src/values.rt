//! Values of units.
ghost use Rattle.std.specs.Prelude.{◌≡◌, IfOk};

use kc_tree_model::Sym;
use kc_value::{Text, Tri};
use std::alloc::{AllocError, Global};
use std::marker::Model;

/// The value of a unit: of a symbol outside choices, or of a choice.
#[derive(Drop)]
pub enum UnitValue {
    /// The value of a bool or tristate.
    Tri(Tri),
    /// The value of a string, int or hex.
    Text(Text),
    /// The selected member of a choice, or none.
    Member(Option<Sym>),
}

/// What a user assigns to a member of a choice: `y`, or else `n`.
#[derive(Clone, Copy, Debug, PartialEq, Eq)]
pub struct MemberLine {
    pub member: Sym,
    pub is_y: bool,
}

/// What a user assigns to members of a choice, in order of the members' last lines; contracts see it as a list.
#[derive(Drop)]
pub struct MemberLines {
    lines: Vec<MemberLine>,
}

impl Model for MemberLines {
    ghost use Rattle.std.specs.Prelude.{List};
    ghost use Rattle.kc_rules_model.specs.declared.values.MemberLine.{MemberLine};

    ghost Value = { List MemberLine };

    ghost view = { λ l. l.lines.items };
}

impl MemberLines {
    /// The assignments in a vector, without a copy.
    pub fn from_vec(lines: Vec<MemberLine>) -> MemberLines
        ensures { result ≡ lines.items }
    {
        MemberLines { lines }
    }

    /// A copy of some assignments. An `Err` means out of memory.
    pub fn copied(alloc: Global, lines: &[MemberLine]) -> Result<MemberLines, AllocError>
        ensures { IfOk result (λ l. l ≡ lines.now) }
    {
        Ok(MemberLines {
            lines: Vec::from_slice(alloc, lines)?,
        })
    }

    /// The assignments, in order.
    pub fn as_slice(&self) -> &[MemberLine]
        ensures { result.now ≡ self.now }
    {
        self.lines.as_slice()
    }
}

/// A value that a user assigns to a unit.
#[derive(Drop)]
pub enum UserValue {
    /// The value of a bool or tristate.
    Tri(Tri),
    /// The value of a string, int or hex.
    Text(Text),
    /// The member of a choice that the user selects, in a tree that hasn't the rules of Linux 6.12.
    Member(Sym),
    /// What the user assigns to members of a choice, in a tree with the rules of Linux 6.12.
    Lines(MemberLines),
}
