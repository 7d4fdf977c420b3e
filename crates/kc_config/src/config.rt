//! A configuration: the user values that files assign, and the values that they give to all units.
ghost use Rattle.std.specs.Prelude.{◌≡◌, length, IfOk, OnOk, OnErr, option_map};
ghost use Rattle.std.specs.Option.{option_and_then};
ghost use Rattle.kc_solver.specs.Changes.{IsTouched, IsChanged, IsCountOf, IsListOf};
ghost use Rattle.kc_tree_model.specs.TreeLookup.{symbol_named};
ghost use Rattle.kc_rules_model.specs.Dependencies.{dependencies};
ghost use Rattle.kc_rules_model.specs.SymbolValues.{value_of_symbol};
ghost use Rattle.kc_rules.specs.between.SettledViews.{tree_of_settled, value_view, value_of_ref};
ghost use Rattle.kc_dotconfig_model.specs.ConfigFiles.{empty_assignment, merged_users};
ghost use Rattle.kc_dotconfig_model.specs.MissedAssignments.{missed};
ghost use Rattle.kc_dotconfig.specs.Fragments.{FitsTree, users_of};
ghost use Rattle.kc_config.specs.ConfigStates.{tree_in, IsSolved};

use super::changes::{merge_units, push_cleared, push_users, units_assigned, users_assigned};
use super::merged_values::push_merged;
use super::missed_assignments::missed_symbols;
use kc_dotconfig::Fragment;
use kc_rules::{Settled, Steps};
use kc_rules_model::{UnitValue, UserValue};
use kc_solver::{ChangedUnits, Graph, Session};
use kc_tree::Sym;
use kc_value::ValueRef;
use std::alloc::{AllocError, Global};
use std::marker::Model;

/// A configuration of a settled tree: the user values that files assign, and the values of all units, which are the one solution
/// for them. Contracts see the tree, the assignment and the values.
#[derive(Drop)]
pub struct Config<'a> {
    alloc: Global,
    settled: &'a Settled,
    session: Session<'a, Settled>,
    /// The units with a user value, in no order.
    valued: Vec<u32>,
    meter: Steps,
}

impl<'a> Model for Config<'a> {
    ghost use Rattle.kc_config.specs.ConfigStates.{Configured};
    ghost use Rattle.kc_config.specs.checker.Configs.{IsSoundConfig};

    ghost Value = { Configured };

    ghost use Rattle.kc_expr.specs.checker.ExprCode.{expr_code};
    ghost use Rattle.std.specs.Coded.{codes};

    ghost coded = { Prim.hlevel (codes, expr_code) };

    ghost view = { λ c. c.session };

    ghost invariant = { λ c. IsSoundConfig c.settled.now c.session c.valued.items };
}

impl<'a> Config<'a> {
    /// A configuration without any user value. An `Err` means out of memory.
    pub fn new(alloc: Global, settled: &'a Settled) -> Result<Config<'a>, AllocError>
        ensures settled { IfOk result (λ c. c.system ≡ settled.now) }
        ensures users { IfOk result (λ c. c.users ≡ empty_assignment (tree_of_settled settled.now)) }
        ensures solved { IfOk result (λ c. IsSolved c) }
    {
        let _ = settled.tree();
        let mut meter = Steps::new();
        let session = Session::new(alloc, settled, settled.order(), &mut meter)?;
        let _ = session.values();
        Ok(Config {
            alloc,
            settled,
            session,
            valued: Vec::new(alloc),
            meter,
        })
    }

    /// A configuration whose user values are those of a fragment and no others. An `Err` means out of memory. The caller must
    /// pass a fragment that fits the tree.
    pub fn of(
        alloc: Global,
        settled: &'a Settled,
        fragment: &Fragment,
    ) -> Result<Config<'a>, AllocError>
        requires fits { FitsTree (tree_of_settled settled.now) fragment.now.assigns.items }
        ensures settled { IfOk result (λ c. c.system ≡ settled.now) }
        ensures users { IfOk result (λ c. c.users ≡ users_of (tree_of_settled settled.now) fragment.now.assigns.items) }
        ensures solved { IfOk result (λ c. IsSolved c) }
    {
        let _ = settled.tree();
        let valued = units_assigned(alloc, &fragment.assigns)?;
        let users = users_assigned(alloc, settled.len(), &fragment.assigns)?;
        let mut meter = Steps::new();
        let session = Session::holding(alloc, settled, settled.order(), users, &mut meter)?;
        let _ = session.values();
        Ok(Config {
            alloc,
            settled,
            session,
            valued,
            meter,
        })
    }

    /// Replaces all user values by those of a fragment, and reports which units' values differ from those before and how many
    /// units were evaluated. After running out of memory the configuration is as before. The caller must pass a fragment that
    /// fits the tree.
    pub fn replace(&mut self, fragment: &Fragment) -> Result<ChangedUnits, AllocError>
        requires fits { FitsTree (tree_in self.old) fragment.now.assigns.items }
        ensures settled { self.new.system ≡ self.old.system }
        ensures users { OnOk result (self.new.users ≡ users_of (tree_in self.old) fragment.now.assigns.items) }
        ensures solved { IsSolved self.new }
        ensures changed { IfOk result (λ report. IsListOf (length (tree_in self.old).units) (IsChanged self.old.values self.new.values) report.changed.items) }
        ensures evaluated { IfOk result (λ report. IsCountOf (length (tree_in self.old).units) (IsTouched (dependencies (tree_in self.old)) self.old.users self.new.users self.old.values self.new.values) report.evaluated) }
        ensures err { OnErr result (self.new ≡ self.old) }
    {
        let valued = units_assigned(self.alloc, &fragment.assigns)?;
        let mut changes = Vec::with_capacity(self.alloc, self.valued.len())?;
        push_cleared(&mut changes, &self.valued)?;
        push_users(self.alloc, &mut changes, &fragment.assigns)?;
        let report = self.session.apply(&changes, &mut self.meter)?;
        self.valued = valued;
        Ok(report)
    }

    /// Adds the user values of a fragment, which replace earlier ones of the same units, and reports which units' values differ
    /// from those before and how many units were evaluated. What the fragment assigns to members of a choice replaces, under the
    /// rules of Linux 6.12, only what was assigned to these members. After running out of memory the configuration is as before.
    /// The caller must pass a fragment that fits the tree.
    pub fn merge(&mut self, fragment: &Fragment) -> Result<ChangedUnits, AllocError>
        requires fits { FitsTree (tree_in self.old) fragment.now.assigns.items }
        ensures settled { self.new.system ≡ self.old.system }
        ensures users { OnOk result (self.new.users ≡ merged_users (users_of (tree_in self.old) fragment.now.assigns.items) self.old.users) }
        ensures solved { IsSolved self.new }
        ensures changed { IfOk result (λ report. IsListOf (length (tree_in self.old).units) (IsChanged self.old.values self.new.values) report.changed.items) }
        ensures evaluated { IfOk result (λ report. IsCountOf (length (tree_in self.old).units) (IsTouched (dependencies (tree_in self.old)) self.old.users self.new.users self.old.values self.new.values) report.evaluated) }
        ensures err { OnErr result (self.new ≡ self.old) }
    {
        let mut changes = Vec::with_capacity(self.alloc, fragment.assigns.len())?;
        let users = self.session.users();
        push_merged(self.alloc, &mut changes, users, &fragment.assigns)?;
        let count = self.valued.len();
        match merge_units(&mut self.valued, self.session.users(), &fragment.assigns) {
            Ok(()) => {}
            Err(fault) => {
                self.valued.truncate(count);
                return Err(fault);
            }
        }
        match self.session.apply(&changes, &mut self.meter) {
            Ok(report) => Ok(report),
            Err(fault) => {
                self.valued.truncate(count);
                Err(fault)
            }
        }
    }

    /// A copy of the configuration, with the same tree, user values and values. An `Err` means out of memory.
    pub fn copy(&self) -> Result<Config<'a>, AllocError>
        ensures { IfOk result (λ copy. copy ≡ self.now) }
    {
        let session = self.session.copy()?;
        let valued = Vec::from_slice(self.alloc, &self.valued)?;
        Ok(Config {
            alloc: self.alloc,
            settled: self.settled,
            session,
            valued,
            meter: Steps::new(),
        })
    }

    /// The settled tree of a configuration.
    pub fn settled(&self) -> &'a Settled
        ensures { result.now ≡ self.now.system }
    {
        self.settled
    }

    /// The value of each unit, by its number: the one solution for the configuration's user values.
    pub fn values(&self) -> &[UnitValue]
        ensures values { result.now ≡ self.now.values }
        ensures solved { IsSolved self.now }
    {
        self.session.values()
    }

    /// The user value of each unit, by its number, or `None`.
    pub fn users(&self) -> &[Option<UserValue>]
        ensures users { result.now ≡ self.now.users }
        ensures solved { IsSolved self.now }
    {
        let _ = self.session.values();
        self.session.users()
    }

    /// The value of the symbol of a name; `None` exactly if no entry of the tree defines it. Takes no memory.
    pub fn value(&self, name: &str) -> Option<ValueRef<'_>>
        ensures { option_map value_of_ref result ≡ option_and_then (λ s. option_map value_view (value_of_symbol (tree_in self.now) self.now.values s)) (symbol_named (tree_in self.now) name.now) }
    {
        let s = self.settled.tree().find(name)?;
        Some(self.settled.symbol_value(s, self.session.values()))
    }

    /// The symbols outside choices whose user value isn't their value, and for each choice the member that its user value names,
    /// if that isn't selected, in order of first definition. Under the rules of Linux 6.12 that member is the last with `y`, and
    /// the selected member counts too if it has `n`. An `Err` means out of memory.
    pub fn missed(&self) -> Result<Vec<Sym>, AllocError>
        ensures { IfOk result (λ found. found.items ≡ missed (tree_in self.now) self.now.users self.now.values) }
    {
        missed_symbols(self.alloc, self.settled.tree(), self.users(), self.values())
    }
}
