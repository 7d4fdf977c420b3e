//! The last lines of a configuration file that say something of a symbol.
ghost use Rattle.std.specs.Prelude.{◌≡◌, ◌∷◌, [], IfOk, OnOk};
ghost use Rattle.std.specs.Option.{option_copied};
ghost use Rattle.std.specs.BTreeMap.{insert_entry};
ghost use Rattle.std.specs.Ordering.{nat_cmp};
ghost use Rattle.kc_rules_model.specs.declared.values.UserValue.TheVariants.{Lines as LinesUser};
ghost use Rattle.kc_dotconfig.specs.between.MeaningViews.{meaning_view};
ghost use Rattle.kc_config_reasons.specs.between.FileLines.{later_line, line_kept};
ghost use Rattle.kc_config_reasons.specs.checker.LineSteps.{Keeps};

use kc_dotconfig::{Meaning, put};
use kc_rules_model::{MemberLine, MemberLines, UserValue};
use kc_tree::Sym;
use std::alloc::{AllocError, Global};
use std::collections::BTreeMap;

/// A line of a configuration file that assigns a user value: its number, counted from 1, and the user value.
#[derive(Drop)]
pub struct AskingLine {
    pub number: usize,
    pub user: UserValue,
}

/// The last line of a configuration file that assigns to each unit. What lines assign to members of a choice one by one, as under the
/// rules of Linux 6.12, is kept by member.
#[derive(Drop)]
pub struct FileLines {
    units: BTreeMap<u32, AskingLine>,
    members: BTreeMap<u32, AskingLine>,
}

/// Of two lines, if there are any, the one that comes later.
fn later_line<'a>(
    first: Option<&'a AskingLine>,
    second: Option<&'a AskingLine>,
) -> Option<&'a AskingLine>
    ensures { option_copied result ≡ later_line (option_copied first.entry) (option_copied second.entry) }
{
    match (first, second) {
        (None, _) => second,
        (Some(_), None) => first,
        (Some(a), Some(b)) => { if a.number < b.number { second } else { first } }
    }
}

/// An assignment of one member, as a user value.
fn one_member(alloc: Global, line: MemberLine) -> Result<UserValue, AllocError>
    ensures { IfOk result (λ user. user ≡ LinesUser (line ∷ [])) }
{
    let mut lines = Vec::with_capacity(alloc, 1)?;
    lines.push(line)?;
    Ok(UserValue::Lines(MemberLines::from_vec(lines)))
}

impl FileLines {
    /// No lines.
    pub(crate) fn new(alloc: Global) -> FileLines
        ensures units { result.units.entries ≡ [] }
        ensures members { result.members.entries ≡ [] }
    {
        FileLines {
            units: BTreeMap::new(alloc),
            members: BTreeMap::new(alloc),
        }
    }

    /// Keeps the line with this number, which assigns a user value to a unit.
    fn put_unit(&mut self, number: usize, unit: u32, user: UserValue) -> Result<(), AllocError>
        ensures units { OnOk result (self.new.units.entries ≡ insert_entry nat_cmp self.old.units.entries unit (record { number = number; user = user })) }
        ensures members { self.new.members.entries ≡ self.old.members.entries }
    {
        put(&mut self.units, unit, AskingLine { number, user })
    }

    /// Keeps the line with this number, which assigns `y` or `n` to a member of a choice.
    fn put_member(
        &mut self,
        alloc: Global,
        number: usize,
        line: MemberLine,
    ) -> Result<(), AllocError>
        ensures units { self.new.units.entries ≡ self.old.units.entries }
        ensures members { OnOk result (self.new.members.entries ≡ insert_entry nat_cmp self.old.members.entries line.member (record { number = number; user = LinesUser (line ∷ []) })) }
    {
        let member = line.member.number();
        let user = one_member(alloc, line)?;
        put(&mut self.members, member, AskingLine { number, user })
    }

    /// Keeps the line with this number and meaning, if it assigns something. An `Err` means out of memory.
    pub(crate) fn keep(
        &mut self,
        alloc: Global,
        number: usize,
        meaning: Meaning,
    ) -> Result<(), AllocError>
        ensures { OnOk result (Keeps number (meaning_view meaning) self.old self.new) }
    {
        match meaning {
            Meaning::Tri(unit, tri) => self.put_unit(number, unit, UserValue::Tri(tri)),
            Meaning::Text(unit, text) => self.put_unit(number, unit, UserValue::Text(text)),
            Meaning::Escaped(unit, text) => self.put_unit(number, unit, UserValue::Text(text)),
            Meaning::Member(unit, s) => self.put_unit(number, unit, UserValue::Member(s)),
            Meaning::Line(_unit, line) => self.put_member(alloc, number, line),
            Meaning::Unchosen(_unit, _s) => Ok(()),
            Meaning::Noted(_kind) => Ok(()),
            Meaning::Nothing => Ok(()),
        }
    }

    /// The last line that says something of symbol `s`, which is of this unit; `None` if no line does.
    pub fn line_for(&self, unit: u32, s: Sym) -> Option<&AskingLine>
        ensures { option_copied result ≡ line_kept self.now unit s }
    {
        later_line(self.units.get(&unit), self.members.get(&s.number()))
    }
}
