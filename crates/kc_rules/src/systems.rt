//! Kconfig as a system.
ghost use Rattle.std.specs.Prelude.{◌≡◌, IsTrue, None};
ghost use Rattle.std.proofs.Common.{rules};
ghost use Rattle.kc_rules.specs.between.Meters.{counted};
ghost use Rattle.kc_rules_model.specs.Rule.{rule, as_user};
ghost use Rattle.kc_rules_model.specs.Shapes.{value_fits, user_fits};
ghost use Rattle.kc_rules_model.specs.Equality.{same_value, same_line, same_lines, same_user};
ghost use Rattle.kc_rules_model.specs.checker.EqualityLaws.{values_decided, users_decided};
ghost use Rattle.kc_rules_model.specs.checker.FrameLaw.{rules_frame};
ghost use Rattle.kc_rules_model.specs.checker.RestoreLaw.{rules_restore};

use super::rules::Settled;
use super::steps::Steps;
use kc_evaluation::value_of;
use kc_rules_model::{MemberLine, MemberLines, UnitValue, UserValue};
use kc_solver::System;
use kc_tree::Unit;
use kc_value::{Kind, Text, Tri};
use std::alloc::{AllocError, Global};

/// Whether two assignments of members are equal.
fn is_same_line(a: MemberLine, b: MemberLine) -> bool
    ensures { result ≡ same_line a b }
{
    a.member.number() == b.member.number() && a.is_y == b.is_y
}

/// Whether two lists have the same assignments of members, in the same order.
fn are_same_lines(a: &[MemberLine], b: &[MemberLine]) -> bool
    ensures { result ≡ same_lines a.now b.now }
{
    if a.len() != b.len() {
        return false;
    }
    for (i, line) in a.iter().enumerate() {
        if !is_same_line(*line, b[i]) {
            return false;
        }
    }
    true
}

impl System for Settled {
    type Value = UnitValue;

    type User = UserValue;

    type Meter = Steps;

    ghost rule = { λ s u x values. rule s.rules.profile s.rules.tree.tree u x values };

    ghost fits_value = { λ s u x. IsTrue (value_fits s.rules.tree.tree u x) };

    ghost fits_user = { λ s u x. IsTrue (user_fits s.rules.tree.tree u x) };

    ghost as_user = { λ s. as_user s.rules.tree.tree.language };

    ghost same_value = { same_value };

    ghost same_user_value = { same_user };

    ghost count = { counted };

    ghost recorded = { λ _. None };

    ghost equal_values = { values_decided };

    ghost equal_users = { users_decided };

    ghost counts = { λ m. let within = m.counts in Prim.search rules };

    ghost frame = { λ s. rules_frame s.rules.profile s.rules.tree.tree };

    ghost restore = { λ s. rules_restore s.rules.profile s.rules.tree.tree };

    fn eval(
        &self,
        alloc: Global,
        u: u32,
        user: Option<&UserValue>,
        values: &[UnitValue],
        meter: &mut Steps,
    ) -> Result<UnitValue, AllocError> {
        meter.step();
        value_of(alloc, &self.rules, u, user, values)
    }

    fn blank(&self, alloc: Global, u: u32) -> Result<UnitValue, AllocError> {
        match self.rules.tree.unit(u) {
            Unit::Symbol(s) => match self.rules.tree.symbol(s).kind {
                Kind::Bool => Ok(UnitValue::Tri(Tri::N)),
                Kind::Tristate => Ok(UnitValue::Tri(Tri::N)),
                Kind::Text => Ok(UnitValue::Text(Text::copied(alloc, "")?)),
                Kind::Int => Ok(UnitValue::Text(Text::copied(alloc, "")?)),
                Kind::Hex => Ok(UnitValue::Text(Text::copied(alloc, "")?)),
            },
            Unit::Choice(_) => Ok(UnitValue::Member(None)),
        }
    }

    fn copy_value(alloc: Global, value: &UnitValue) -> Result<UnitValue, AllocError> {
        match value {
            UnitValue::Tri(t) => Ok(UnitValue::Tri(*t)),
            UnitValue::Text(t) => Ok(UnitValue::Text(Text::copied(alloc, t.as_str())?)),
            UnitValue::Member(m) => Ok(UnitValue::Member(*m)),
        }
    }

    fn copy_user(alloc: Global, value: &UserValue) -> Result<UserValue, AllocError> {
        match value {
            UserValue::Tri(t) => Ok(UserValue::Tri(*t)),
            UserValue::Text(t) => Ok(UserValue::Text(Text::copied(alloc, t.as_str())?)),
            UserValue::Member(m) => Ok(UserValue::Member(*m)),
            UserValue::Lines(l) => Ok(UserValue::Lines(MemberLines::copied(alloc, l.as_slice())?)),
        }
    }

    fn same(a: &UnitValue, b: &UnitValue) -> bool {
        match (a, b) {
            (UnitValue::Tri(a), UnitValue::Tri(b)) => *a == *b,
            (UnitValue::Text(a), UnitValue::Text(b)) => a.as_str().as_bytes()
                == b.as_str().as_bytes(),
            (UnitValue::Member(None), UnitValue::Member(None)) => true,
            (UnitValue::Member(Some(a)), UnitValue::Member(Some(b))) => a.number() == b.number(),
            _ => false,
        }
    }

    fn same_user(a: &UserValue, b: &UserValue) -> bool {
        match (a, b) {
            (UserValue::Tri(a), UserValue::Tri(b)) => *a == *b,
            (UserValue::Text(a), UserValue::Text(b)) => a.as_str().as_bytes()
                == b.as_str().as_bytes(),
            (UserValue::Member(a), UserValue::Member(b)) => a.number() == b.number(),
            (UserValue::Lines(a), UserValue::Lines(b)) => are_same_lines(
                a.as_slice(),
                b.as_slice(),
            ),
            _ => false,
        }
    }
}
