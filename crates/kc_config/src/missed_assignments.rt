//! Symbols whose user value isn't their value.
ghost use Rattle.std.specs.Prelude.{◌≡◌, ◌<◌, Some, true, length, map, slice_get, IfOk, if◌then◌else◌};
ghost use Rattle.std.specs.Option.{option_copied};
ghost use Rattle.kc_solver.specs.Solutions.{user_of};
ghost use Rattle.kc_rules_model.specs.MemberLines.{last_y};
ghost use Rattle.kc_rules_model.specs.Equality.{value_is};
ghost use Rattle.kc_rules_model.specs.declared.values.UnitValue.TheVariants.{Member as MemberValue};
ghost use Rattle.kc_tree_model.specs.TreeLookup.{unit_of};
ghost use Rattle.kc_dotconfig_model.specs.MissedAssignments.{is_met, is_given_n, is_last_y, is_missed_as, is_missed, missed};
ghost use Rattle.kc_config.specs.checker.MissedMembers.{last_in};

use kc_rules_model::{MemberLine, UnitValue, UserValue};
use kc_tree::{Sym, Tree};
use std::alloc::{AllocError, Global};

/// Whether a unit's user value is its value.
fn is_value(user: &UserValue, value: Option<&UnitValue>) -> bool
    ensures { result ≡ is_met (Some user.now) (option_copied value.entry) }
{
    match (user, value) {
        (UserValue::Tri(a), Some(UnitValue::Tri(b))) => *a == *b,
        (UserValue::Text(a), Some(UnitValue::Text(b))) => a.as_str().as_bytes()
            == b.as_str().as_bytes(),
        (UserValue::Member(a), Some(UnitValue::Member(Some(b)))) => a.number() == b.number(),
        _ => false,
    }
}

/// The last member to which some assignments give `y`.
fn last_member(lines: &[MemberLine]) -> Option<Sym>
    ensures { result ≡ last_y (λ m. true) lines.now }
{
    for i in (0..lines.len()).rev() {
        let line = lines[i];
        if line.is_y {
            return Some(line.member);
        }
    }
    None
}

/// The last member to which a user value gives `y`, if it is assignments of members.
fn last_of(user: &Option<UserValue>) -> Option<Sym>
    ensures { result ≡ last_in user.now }
{
    match user {
        Some(UserValue::Lines(lines)) => last_member(lines.as_slice()),
        _ => None,
    }
}

/// For each user value the last member to which it gives `y`, if it is assignments of members.
fn last_members(alloc: Global, users: &[Option<UserValue>]) -> Result<Vec<Option<Sym>>, AllocError>
    ensures { IfOk result (λ members. members.items ≡ map last_in users.now) }
{
    users.iter().map(|user| last_of(user)).collect(alloc)
}

/// Whether a member is given `n` by some assignments.
fn is_given_n(lines: &[MemberLine], s: Sym) -> bool
    ensures { result ≡ is_given_n lines.now s }
{
    for line in lines {
        if line.member.number() == s.number() && !line.is_y {
            return true;
        }
    }
    false
}

/// Whether a member is the selected one of its choice, by the choice's value.
fn is_selected(s: Sym, value: Option<&UnitValue>) -> bool
    ensures { result ≡ value_is (option_copied value.entry) (MemberValue (Some s)) }
{
    match value {
        Some(UnitValue::Member(Some(member))) => member.number() == s.number(),
        _ => false,
    }
}

/// Whether a member of a choice doesn't have what some assignments give it, the last of which with `y` is that of `last`.
fn is_missed_member(
    s: Sym,
    lines: &[MemberLine],
    value: Option<&UnitValue>,
    last: Option<Sym>,
) -> bool
    requires last { last ≡ last_y (λ m. true) lines.now }
    ensures value { result ≡ (if value_is (option_copied value.entry) (MemberValue (Some s)) then is_given_n lines.now s else is_last_y lines.now s) }
{
    if is_selected(s, value) {
        return is_given_n(lines, s);
    }
    match last {
        Some(member) => member.number() == s.number(),
        None => false,
    }
}

/// Whether a symbol's user value isn't its value; of the members of a choice, only the one that the user selected can be, and under
/// the rules of Linux 6.12 the selected one, if the user gave it `n`.
fn is_missed_value(
    choice: Option<u32>,
    s: Sym,
    user: Option<&UserValue>,
    value: Option<&UnitValue>,
    last: Option<Sym>,
) -> bool
    requires last { last ≡ last_in (option_copied user) }
    ensures value { result ≡ is_missed_as choice s (option_copied user.entry) (option_copied value.entry) }
{
    let Some(user) = user else {
        return false;
    };
    match (choice, user) {
        (None, _) => !is_value(user, value),
        (Some(_), UserValue::Member(member)) => member.number() == s.number()
            && !is_value(user, value),
        (Some(_), UserValue::Lines(lines)) => is_missed_member(s, lines.as_slice(), value, last),
        (Some(_), _) => false,
    }
}

/// Whether a symbol is missed, by its number, where `lasts` has for each user value the last member to which it gives `y`.
fn is_missed(
    tree: &Tree,
    users: &[Option<UserValue>],
    values: &[UnitValue],
    lasts: &[Option<Sym>],
    s: Sym,
) -> bool
    requires there { s < length tree.now.tree.symbols }
    requires lasts { lasts.now ≡ map last_in users.now }
    ensures value { result ≡ is_missed tree.now.tree users.now values.now s }
{
    let symbol = tree.symbol(s);
    let unit = symbol.unit as usize;
    match (users.get(unit), lasts.get(unit)) {
        (Some(Some(user)), Some(last)) => {
            is_missed_value(symbol.choice, s, Some(user), values.get(unit), *last)
        }
        _ => false,
    }
}

/// The symbols outside choices whose user value isn't their value, and for each choice the member that its user value names, if
/// that isn't selected, in order of first definition. Under the rules of Linux 6.12 that member is the last with `y`, and the
/// selected member counts too if it has `n`. An `Err` means out of memory.
pub(crate) fn missed_symbols(
    alloc: Global,
    tree: &Tree,
    users: &[Option<UserValue>],
    values: &[UnitValue],
) -> Result<Vec<Sym>, AllocError>
    ensures { IfOk result (λ found. found.items ≡ missed tree.now.tree users.now values.now) }
{
    let lasts = last_members(alloc, users)?;
    let mut found = Vec::new(alloc);
    for number in 0..tree.symbol_count() {
        let s = Sym::at(number);
        if is_missed(tree, users, values, &lasts, s) {
            found.push(s)?;
        }
    }
    Ok(found)
}
