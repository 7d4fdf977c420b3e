//! The conditions of each group's attributes.
ghost use Rattle.std.specs.Prelude.{◌≡◌, ◌≤◌, ◌<◌, length, slice_range};
ghost use Rattle.kc_conditions.specs.between.GroupConditions.{conditions_end, own_conditions, IsConditioned};

use super::group_walk::GroupConditions;
use kc_expr::ExprId;

/// The index after the last condition of the attributes of group `i`.
fn end_of(groups: &[GroupConditions], conditions: &[ExprId], i: usize) -> usize
    requires there { i < length groups.now }
    ensures value { result ≡ conditions_end groups.now conditions.now i }
{
    if i + 1 < groups.len() {
        groups[i + 1].first
    } else {
        conditions.len()
    }
}

/// The conditions from index `from` up to, but without, index `to`.
fn part(conditions: &[ExprId], from: usize, to: usize) -> &[ExprId]
    requires rising { from ≤ to }
    requires within { to ≤ length conditions.now }
    ensures value { result.now ≡ slice_range conditions.now from to }
{
    &conditions[from..to]
}

/// The joined conditions of the attribute lines of group `i`.
pub fn conditions_of<'a>(
    groups: &[GroupConditions],
    conditions: &'a [ExprId],
    i: usize,
) -> &'a [ExprId]
    requires conditioned { IsConditioned groups.now conditions.now }
    requires here { i < length groups.now }
    ensures value { result.now ≡ own_conditions groups.now conditions.now i }
{
    part(conditions, groups[i].first, end_of(groups, conditions, i))
}
