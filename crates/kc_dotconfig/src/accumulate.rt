//! Accumulates the meanings of the lines of a configuration file.
ghost use Rattle.std.specs.Prelude.{◌≡◌, ◌⊎◌, ℕ, ◌+◌, ◌<◌, ◌==◌, List, [], ◌∷◌, ◌++◌, length, IfOk, IfErr, OnOk, OnErr, if◌then◌else◌};
ghost use Rattle.std.specs.Str.{IsUtf8};
ghost use Rattle.kc_value.specs.declared.limits.TheConstants.{MAX_CONFIG_LINES};
ghost use Rattle.kc_tree_model.specs.Trees.{Tree};
ghost use Rattle.kc_rules.specs.between.SettledViews.{tree_of_settled};
ghost use Rattle.kc_rules_model.specs.declared.values.UserValue.TheVariants.{Text as TextUser, Member as MemberUser};
ghost use Rattle.kc_dotconfig_model.specs.ConfigLines.{LineMeaning, assigns, unchosen, Means, IsMalformed};
ghost use Rattle.kc_dotconfig_model.specs.OtherChoices.{choice_line_of};
ghost use Rattle.kc_tree_model.specs.LogicalLines.{without_white_end};
ghost use Rattle.kc_dotconfig_model.specs.between.Formats.{file_format};
ghost use Rattle.std.specs.BTreeMap.{insert_entry};
ghost use Rattle.std.specs.Ordering.{nat_cmp};
ghost use Rattle.kc_dotconfig.specs.between.MeaningViews.{meaning_view, IsWithin};
ghost use Rattle.kc_dotconfig.specs.checker.Accumulation.{IsGathered};
ghost use Rattle.kc_dotconfig.specs.checker.GatheredLines.{lines_in, lines_more, joined};

use super::accumulator::Accumulator;
use super::assigned_values::AssignedValues;
use super::fragment::Fragment;
use super::gathered_lines::with_lines;
use super::maps::add_item;
use super::meanings::{Meaning, read_line};
use kc_dotconfig_model::{ChoiceLine, Format, LoadKind, Notice, NoticeKind};
use kc_rules::Settled;
use kc_rules_model::{MemberLine, UserValue};
use kc_tree::Sym;
use kc_value::Text;
use std::alloc::{AllocError, Global};
use std::collections::BTreeMap;

/// The accumulator before the first line of a configuration file.
pub(crate) fn empty_accumulator(alloc: Global) -> Accumulator
    ensures { (tree : Tree) → IsGathered tree [] result }
{
    Accumulator {
        assigns: AssignedValues::new(alloc),
        members: BTreeMap::new(alloc),
        chosen: Vec::new(alloc),
        notices: Vec::new(alloc),
        lines: 0,
        next: 0,
    }
}

/// Adds a line that assigns a user value to a unit. An `Err` means out of memory.
fn take_assignment(
    accumulator: &mut Accumulator,
    unit: u32,
    user: UserValue,
) -> Result<(), AllocError>
    requires few { accumulator.old.lines < MAX_CONFIG_LINES }
    ensures entries { OnOk result (accumulator.new.assigns ≡ insert_entry nat_cmp accumulator.old.assigns unit user) }
    ensures members { OnOk result (accumulator.new.members.entries ≡ accumulator.old.members.entries) }
    ensures notices { OnOk result (accumulator.new.notices.items ≡ accumulator.old.notices.items) }
    ensures chosen { OnOk result (accumulator.new.chosen.items ≡ accumulator.old.chosen.items) }
    ensures lines { OnOk result (accumulator.new.lines ≡ accumulator.old.lines + 1) }
    ensures err { OnErr result (accumulator.new.lines ≡ accumulator.old.lines) }
{
    accumulator.assigns.insert(unit, user)?;
    accumulator.lines += 1;
    accumulator.next = unit.saturating_add(1);
    Ok(())
}

/// Lists what the next line gives to a member of a choice, whose unit is `unit`. An `Err` means out of memory.
fn list_choice(
    accumulator: &mut Accumulator,
    unit: u32,
    given: MemberLine,
) -> Result<(), AllocError>
    requires few { accumulator.old.lines < MAX_CONFIG_LINES }
    ensures entries { accumulator.new.assigns ≡ accumulator.old.assigns }
    ensures members { accumulator.new.members.entries ≡ accumulator.old.members.entries }
    ensures notices { accumulator.new.notices.items ≡ accumulator.old.notices.items }
    ensures chosen { OnOk result (accumulator.new.chosen.items ≡ accumulator.old.chosen.items ++ record { unit = unit; given = given; line = accumulator.old.lines + 1 } ∷ []) }
    ensures lines { accumulator.new.lines ≡ accumulator.old.lines }
{
    let line = accumulator.lines + 1;
    accumulator.chosen.push(ChoiceLine { unit, given, line })?;
    Ok(())
}

/// Adds a line that selects a member of a choice, whose unit is `unit`. An `Err` means out of memory.
fn take_chosen(accumulator: &mut Accumulator, unit: u32, s: Sym) -> Result<(), AllocError>
    requires few { accumulator.old.lines < MAX_CONFIG_LINES }
    ensures entries { OnOk result (accumulator.new.assigns ≡ insert_entry nat_cmp accumulator.old.assigns unit (MemberUser s)) }
    ensures members { OnOk result (accumulator.new.members.entries ≡ accumulator.old.members.entries) }
    ensures notices { OnOk result (accumulator.new.notices.items ≡ accumulator.old.notices.items) }
    ensures listed { OnOk result (accumulator.new.chosen.items ≡ accumulator.old.chosen.items ++ choice_line_of (accumulator.old.lines + 1) (assigns unit (MemberUser s))) }
    ensures lines { OnOk result (accumulator.new.lines ≡ accumulator.old.lines + 1) }
    ensures err { OnErr result (accumulator.new.lines ≡ accumulator.old.lines) }
{
    let is_y = true;
    list_choice(accumulator, unit, MemberLine { member: s, is_y })?;
    take_assignment(accumulator, unit, UserValue::Member(s))
}

/// Adds a line that gives a member of a choice, whose unit is `unit`, another value than `y`, and assigns nothing. An `Err` means out
/// of memory.
fn take_unchosen(accumulator: &mut Accumulator, unit: u32, s: Sym) -> Result<(), AllocError>
    requires few { accumulator.old.lines < MAX_CONFIG_LINES }
    ensures entries { OnOk result (accumulator.new.assigns ≡ accumulator.old.assigns) }
    ensures members { OnOk result (accumulator.new.members.entries ≡ accumulator.old.members.entries) }
    ensures notices { OnOk result (accumulator.new.notices.items ≡ accumulator.old.notices.items) }
    ensures listed { OnOk result (accumulator.new.chosen.items ≡ accumulator.old.chosen.items ++ choice_line_of (accumulator.old.lines + 1) (unchosen unit s)) }
    ensures lines { OnOk result (accumulator.new.lines ≡ accumulator.old.lines + 1) }
    ensures err { OnErr result (accumulator.new.lines ≡ accumulator.old.lines) }
{
    let is_y = false;
    list_choice(accumulator, unit, MemberLine { member: s, is_y })?;
    accumulator.lines += 1;
    Ok(())
}

/// Adds a line that assigns `y` or `n` to a member of a choice, whose unit is `unit`. An `Err` means out of memory.
fn take_member(
    alloc: Global,
    accumulator: &mut Accumulator,
    unit: u32,
    line: MemberLine,
) -> Result<(), AllocError>
    requires few { accumulator.old.lines < MAX_CONFIG_LINES }
    ensures entries { OnOk result (accumulator.new.assigns ≡ accumulator.old.assigns) }
    ensures members { OnOk result ((u : ℕ) → lines_in accumulator.new.members.entries u ≡ (if u == unit then lines_more (lines_in accumulator.old.members.entries u) line else lines_in accumulator.old.members.entries u)) }
    ensures notices { OnOk result (accumulator.new.notices.items ≡ accumulator.old.notices.items) }
    ensures chosen { OnOk result (accumulator.new.chosen.items ≡ accumulator.old.chosen.items) }
    ensures lines { OnOk result (accumulator.new.lines ≡ accumulator.old.lines + 1) }
    ensures err { OnErr result (accumulator.new.lines ≡ accumulator.old.lines) }
{
    add_item(alloc, &mut accumulator.members, unit, line)?;
    accumulator.lines += 1;
    accumulator.next = unit.saturating_add(1);
    Ok(())
}

/// Lists a notice on the next line. An `Err` means out of memory.
fn list_notice(accumulator: &mut Accumulator, kind: NoticeKind) -> Result<(), AllocError>
    requires few { accumulator.old.lines < MAX_CONFIG_LINES }
    ensures entries { accumulator.new.assigns ≡ accumulator.old.assigns }
    ensures members { accumulator.new.members.entries ≡ accumulator.old.members.entries }
    ensures notices { OnOk result (accumulator.new.notices.items ≡ accumulator.old.notices.items ++ record { line = accumulator.old.lines + 1; kind = kind } ∷ []) }
    ensures chosen { accumulator.new.chosen.items ≡ accumulator.old.chosen.items }
    ensures lines { accumulator.new.lines ≡ accumulator.old.lines }
{
    let line = accumulator.lines + 1;
    accumulator.notices.push(Notice { line, kind })?;
    Ok(())
}

/// Adds a line that assigns a text to a unit and has the notice Escape. An `Err` means out of memory.
fn take_escaped(accumulator: &mut Accumulator, unit: u32, text: Text) -> Result<(), AllocError>
    requires few { accumulator.old.lines < MAX_CONFIG_LINES }
    ensures entries { OnOk result (accumulator.new.assigns ≡ insert_entry nat_cmp accumulator.old.assigns unit (TextUser text)) }
    ensures members { OnOk result (accumulator.new.members.entries ≡ accumulator.old.members.entries) }
    ensures notices { OnOk result (accumulator.new.notices.items ≡ accumulator.old.notices.items ++ record { line = accumulator.old.lines + 1; kind = NoticeKind.Escape } ∷ []) }
    ensures chosen { OnOk result (accumulator.new.chosen.items ≡ accumulator.old.chosen.items) }
    ensures lines { OnOk result (accumulator.new.lines ≡ accumulator.old.lines + 1) }
    ensures err { OnErr result (accumulator.new.lines ≡ accumulator.old.lines) }
{
    list_notice(accumulator, NoticeKind::Escape)?;
    take_assignment(accumulator, unit, UserValue::Text(text))
}

/// Adds a line that assigns nothing and has a notice. An `Err` means out of memory.
fn take_notice(accumulator: &mut Accumulator, kind: NoticeKind) -> Result<(), AllocError>
    requires few { accumulator.old.lines < MAX_CONFIG_LINES }
    ensures entries { OnOk result (accumulator.new.assigns ≡ accumulator.old.assigns) }
    ensures members { OnOk result (accumulator.new.members.entries ≡ accumulator.old.members.entries) }
    ensures notices { OnOk result (accumulator.new.notices.items ≡ accumulator.old.notices.items ++ record { line = accumulator.old.lines + 1; kind = kind } ∷ []) }
    ensures chosen { OnOk result (accumulator.new.chosen.items ≡ accumulator.old.chosen.items) }
    ensures lines { OnOk result (accumulator.new.lines ≡ accumulator.old.lines + 1) }
    ensures err { OnErr result (accumulator.new.lines ≡ accumulator.old.lines) }
{
    list_notice(accumulator, kind)?;
    accumulator.lines += 1;
    Ok(())
}

/// Adds the meaning of the next line to the accumulator. An `Err` means out of memory.
fn take(alloc: Global, accumulator: &mut Accumulator, meaning: Meaning) -> Result<(), AllocError>
    requires few { accumulator.old.lines < MAX_CONFIG_LINES }
    ensures ok { OnOk result ((tree : Tree) (meanings : List LineMeaning) → IsWithin (length tree.units) (meaning_view meaning) → IsGathered tree meanings accumulator.old → IsGathered tree (meanings ++ meaning_view meaning ∷ []) accumulator.new) }
    ensures lines { OnOk result (accumulator.new.lines ≡ accumulator.old.lines + 1) }
    ensures err { OnErr result (accumulator.new.lines ≡ accumulator.old.lines) }
{
    match meaning {
        Meaning::Tri(unit, tri) => take_assignment(accumulator, unit, UserValue::Tri(tri)),
        Meaning::Text(unit, text) => take_assignment(accumulator, unit, UserValue::Text(text)),
        Meaning::Escaped(unit, text) => take_escaped(accumulator, unit, text),
        Meaning::Member(unit, s) => take_chosen(accumulator, unit, s),
        Meaning::Unchosen(unit, s) => take_unchosen(accumulator, unit, s),
        Meaning::Line(unit, line) => take_member(alloc, accumulator, unit, line),
        Meaning::Noted(kind) => take_notice(accumulator, kind),
        Meaning::Nothing => {
            accumulator.lines += 1;
            Ok(())
        }
    }
}

/// Interprets the next line of a configuration file and adds its meaning to the accumulator. An `Err` leaves the line count
/// unchanged.
pub(crate) fn take_line(
    alloc: Global,
    settled: &Settled,
    format: &Format,
    accumulator: &mut Accumulator,
    line: &[u8],
) -> Result<(), LoadKind>
    requires few { accumulator.old.lines < MAX_CONFIG_LINES }
    ensures ok { OnOk result (IsUtf8 line.now × ((meaning : LineMeaning) × Means (file_format format.now) (tree_of_settled settled.now) (without_white_end line.now) meaning × ((meanings : List LineMeaning) → IsGathered (tree_of_settled settled.now) meanings accumulator.old → IsGathered (tree_of_settled settled.now) (meanings ++ meaning ∷ []) accumulator.new))) }
    ensures not_utf8 { result ≡ Err LoadKind.NotUtf8 → IsUtf8 line.now → ⊥ }
    ensures malformed { result ≡ Err LoadKind.Malformed → IsUtf8 line.now × IsMalformed (file_format format.now) (tree_of_settled settled.now) line.now }
    ensures kinds { IfErr result (λ kind. (kind ≡ LoadKind.NotUtf8) ⊎ (kind ≡ LoadKind.Malformed) ⊎ (kind ≡ LoadKind.OutOfMemory)) }
    ensures lines { OnOk result (accumulator.new.lines ≡ accumulator.old.lines + 1) }
    ensures err { OnErr result (accumulator.new.lines ≡ accumulator.old.lines) }
{
    let Ok(text) = std::str::from_utf8(line) else {
        return Err(LoadKind::NotUtf8);
    };
    match read_line(alloc, settled, format, accumulator.next, text) {
        Ok(Some(meaning)) => match take(alloc, accumulator, meaning) {
            Ok(()) => Ok(()),
            Err(_) => Err(LoadKind::OutOfMemory),
        },
        Ok(None) => Err(LoadKind::Malformed),
        Err(_) => Err(LoadKind::OutOfMemory),
    }
}

/// The assignment and the notices of the accumulated lines. An `Err` means out of memory.
pub(crate) fn fragment_of(alloc: Global, accumulator: Accumulator) -> Result<Fragment, AllocError>
    ensures { IfOk result (λ f. (f.assigns.items ≡ joined accumulator.assigns accumulator.members.entries) × (f.notices.items ≡ accumulator.notices.items) × (f.chosen.items ≡ accumulator.chosen.items)) }
{
    let Accumulator {
        assigns,
        members,
        chosen,
        notices,
        lines: _,
        next: _,
    } = accumulator;
    let assigns = with_lines(alloc, assigns, members)?;
    Ok(Fragment {
        assigns,
        notices,
        chosen,
    })
}
