//! The meaning of a line of a configuration file.
ghost use Rattle.std.specs.Prelude.{◌≡◌, ◌<◌, ℕ, IfOk, IfSome, Some, length, is_some, slice_get, option_map, if◌then◌else◌};
ghost use Rattle.kc_tree_model.specs.Trees.{Symbol};
ghost use Rattle.kc_tree_model.specs.TreeLookup.{symbol_named};
ghost use Rattle.kc_value.specs.Number.{number_of_text};
ghost use Rattle.kc_rules.specs.between.SettledViews.{tree_of_settled};
ghost use Rattle.kc_dotconfig_model.specs.ConfigLines.{assigns, tri_of_text, unchosen_meaning, text_meaning, unset_meaning};
ghost use Rattle.kc_rules_model.specs.Rule.{member_user};
ghost use Rattle.kc_tree_model.specs.LogicalLines.{without_white_end};
ghost use Rattle.kc_dotconfig_model.specs.declared.format.Strings.TheVariants.{Escaped, Raw};
ghost use Rattle.kc_dotconfig_model.specs.between.Formats.{file_format};
ghost use Rattle.kc_dotconfig_model.specs.between.LineMeanings.{line_meaning, tri_meaning, string_meaning, number_meaning, meaning_of_kind, value_meaning, string_text, of_named, of_other};
ghost use Rattle.kc_dotconfig.specs.between.MeaningViews.{meaning_view, IsWithin};

use kc_dotconfig_model::{
    Format, NoticeKind, Strings, between_quotes, has_other_escape, is_comment, trimmed, unset_name,
    value_parts,
};
use kc_rules::Settled;
use kc_rules_model::MemberLine;
use kc_tokens::Language;
use kc_tree::{Sym, Tree, Unit};
use kc_value::{Kind, Text, Tri, hex_of, int_of, read_quoted};
use std::alloc::{AllocError, Global};

/// The meaning of a line of a configuration file.
#[derive(Drop)]
pub enum Meaning {
    /// The line assigns a tristate to the unit of this number.
    Tri(u32, Tri),
    /// The line assigns a text to the unit of this number.
    Text(u32, Text),
    /// The line assigns a text to the unit of this number, and the notice Escape is due.
    Escaped(u32, Text),
    /// The line selects a member for the choice that is the unit of this number.
    Member(u32, Sym),
    /// The line gives a member of the choice that is the unit of this number another value than `y`, and assigns nothing.
    Unchosen(u32, Sym),
    /// The line assigns `y` or `n` to a member of the choice that is the unit of this number.
    Line(u32, MemberLine),
    /// The line assigns nothing, and a notice of this kind is due.
    Noted(NoticeKind),
    /// The line assigns nothing, and no notice is due.
    Nothing,
}

/// The tristate that the text of a bool or tristate means.
fn tri_of_text(kind: Kind, text: &str) -> Option<Tri>
    ensures { result ≡ tri_of_text kind text.now }
{
    match (kind, text.as_bytes()) {
        (Kind::Bool | Kind::Tristate, b"y") => Some(Tri::Y),
        (Kind::Tristate, b"m") => Some(Tri::M),
        (Kind::Bool | Kind::Tristate, b"n") => Some(Tri::N),
        _ => None,
    }
}

/// Interprets a value for a member of a choice: `y`, or another one.
fn read_member(language: Language, unit: u32, s: Sym, is_y: bool) -> Meaning
    ensures { meaning_view result ≡ (if is_y then assigns unit (member_user language s) else unchosen_meaning language unit s) }
{
    if language.is_linux_6_12() {
        let line = MemberLine { member: s, is_y };
        return Meaning::Line(unit, line);
    }
    if is_y {
        Meaning::Member(unit, s)
    } else {
        Meaning::Unchosen(unit, s)
    }
}

/// Interprets the value of a bool or tristate.
fn read_tri(language: Language, unit: u32, s: Sym, choice: Option<u32>, tri: Option<Tri>) -> Meaning
    ensures { meaning_view result ≡ tri_meaning language unit s choice tri }
{
    match (choice, tri) {
        (_, None) => Meaning::Noted(NoticeKind::NotOfType),
        (None, Some(tri)) => Meaning::Tri(unit, tri),
        (Some(_), Some(Tri::Y)) => read_member(language, unit, s, true),
        (Some(_), Some(_)) => read_member(language, unit, s, false),
    }
}

/// What a string means that is written escaped, in this spelling. In the languages of Linux other escapes than those of `"` and `\`
/// have a notice.
fn escaped_text(language: Language, unit: u32, spelling: &str, text: Text) -> Meaning
    ensures { meaning_view result ≡ text_meaning language Escaped unit spelling.now text }
{
    match language {
        Language::Strict => Meaning::Text(unit, text),
        Language::Linux(_) => {
            if has_other_escape(spelling.as_bytes()) {
                Meaning::Escaped(unit, text)
            } else {
                Meaning::Text(unit, text)
            }
        }
    }
}

/// Interprets the value of a string that is written escaped.
fn read_escaped(
    alloc: Global,
    language: Language,
    unit: u32,
    text: &str,
) -> Result<Meaning, AllocError>
    ensures { IfOk result (λ meaning. meaning_view meaning ≡ string_meaning language Escaped unit text.now (string_text Escaped text.now)) }
{
    match read_quoted(alloc, text)? {
        Some(means) => Ok(escaped_text(language, unit, text, Text::from_string(means))),
        None => Ok(Meaning::Noted(NoticeKind::NotOfType)),
    }
}

/// Interprets the value of a string that is written raw.
fn read_raw(alloc: Global, unit: u32, text: &str) -> Result<Meaning, AllocError>
    ensures { IfOk result (λ meaning. (language : Language) → meaning_view meaning ≡ string_meaning language Raw unit text.now (string_text Raw text.now)) }
{
    match between_quotes(text) {
        Some(text) => {
            let text = Text::copied(alloc, text)?;
            Ok(Meaning::Text(unit, text))
        }
        None => Ok(Meaning::Noted(NoticeKind::NotOfType)),
    }
}

/// Whether a text is a number of an int or hex.
fn is_number(kind: Kind, text: &str) -> bool
    ensures { result ≡ is_some (number_of_text kind text.now) }
{
    match kind {
        Kind::Int => int_of(text.as_bytes()).is_some(),
        Kind::Hex => hex_of(text.as_bytes()).is_some(),
        _ => false,
    }
}

/// Interprets the value of an int or hex.
fn read_number(alloc: Global, unit: u32, kind: Kind, text: &str) -> Result<Meaning, AllocError>
    ensures { IfOk result (λ meaning. meaning_view meaning ≡ number_meaning unit kind text.now) }
{
    if is_number(kind, text) {
        let text = Text::copied(alloc, text)?;
        Ok(Meaning::Text(unit, text))
    } else if text.is_empty() {
        Ok(Meaning::Nothing)
    } else {
        Ok(Meaning::Noted(NoticeKind::NotOfType))
    }
}

/// Interprets the text after `=` for a unit of a type.
fn read_text(
    alloc: Global,
    language: Language,
    strings: Strings,
    kind: Kind,
    unit: u32,
    s: Sym,
    choice: Option<u32>,
    text: &str,
) -> Result<Meaning, AllocError>
    ensures { IfOk result (λ meaning. meaning_view meaning ≡ meaning_of_kind language strings kind unit s choice text.now) }
{
    match kind {
        Kind::Text => match strings {
            Strings::Escaped => read_escaped(alloc, language, unit, text),
            Strings::Raw => read_raw(alloc, unit, text),
        },
        Kind::Int => read_number(alloc, unit, kind, text),
        Kind::Hex => read_number(alloc, unit, kind, text),
        Kind::Bool => Ok(read_tri(language, unit, s, choice, tri_of_text(kind, text))),
        Kind::Tristate => Ok(read_tri(language, unit, s, choice, tri_of_text(kind, text))),
    }
}

/// Interprets the text after `=` for a symbol.
fn read_value(
    alloc: Global,
    strings: Strings,
    tree: &Tree,
    s: Sym,
    text: &str,
) -> Result<Meaning, AllocError>
    requires there { s < length tree.now.tree.symbols }
    ensures meaning { IfOk result (λ meaning. (symbol : Symbol) → slice_get tree.now.tree.symbols s ≡ Some symbol → meaning_view meaning ≡ value_meaning strings tree.now.tree s symbol text.now) }
    ensures within { IfOk result (λ meaning. IsWithin (length tree.now.tree.units) (meaning_view meaning)) }
{
    let symbol = tree.symbol(s);
    read_text(
        alloc,
        tree.language(),
        strings,
        symbol.kind,
        symbol.unit,
        s,
        symbol.choice,
        text,
    )
}

/// Interprets an unset line for a symbol.
fn read_unset(tree: &Tree, s: Sym) -> Meaning
    requires there { s < length tree.now.tree.symbols }
    ensures meaning { (symbol : Symbol) → slice_get tree.now.tree.symbols s ≡ Some symbol → meaning_view result ≡ unset_meaning tree.now.tree s symbol symbol.choice }
    ensures within { IsWithin (length tree.now.tree.units) (meaning_view result) }
{
    let symbol = tree.symbol(s);
    match (symbol.choice, symbol.kind) {
        (Some(_), _) => read_member(tree.language(), symbol.unit, s, false),
        (None, Kind::Bool) => Meaning::Tri(symbol.unit, Tri::N),
        (None, Kind::Tristate) => Meaning::Tri(symbol.unit, Tri::N),
        (None, _) => Meaning::Nothing,
    }
}

/// The symbol that the unit `u` is, if its name is `name`.
fn symbol_of_unit(tree: &Tree, u: u32, name: &str) -> Option<Sym>
    ensures symbol { IfSome result (λ s. symbol_named tree.now.tree name.now ≡ Some s) }
    ensures there { IfSome result (λ s. s < length tree.now.tree.symbols) }
{
    let _ = tree.arena();
    if u >= tree.len() {
        return None;
    }
    match tree.unit(u) {
        Unit::Symbol(s) if tree.name(s) == name => Some(s),
        _ => None,
    }
}

/// The symbol of a name. Most files are written in the order of the units, so the next unit is tried first.
fn find_symbol(tree: &Tree, next: u32, name: &str) -> Option<Sym>
    ensures symbol { result ≡ symbol_named tree.now.tree name.now }
    ensures there { IfSome result (λ s. s < length tree.now.tree.symbols) }
{
    match symbol_of_unit(tree, next, name) {
        Some(s) => Some(s),
        None => tree.find(name),
    }
}

/// Interprets a line `CONFIG_X=value`.
fn read_value_line(
    alloc: Global,
    strings: Strings,
    tree: &Tree,
    next: u32,
    name: &str,
    text: &str,
) -> Result<Meaning, AllocError>
    ensures meaning { IfOk result (λ meaning. meaning_view meaning ≡ of_named tree.now.tree (λ s symbol. value_meaning strings tree.now.tree s symbol text.now) (symbol_named tree.now.tree name.now)) }
    ensures within { IfOk result (λ meaning. IsWithin (length tree.now.tree.units) (meaning_view meaning)) }
{
    match find_symbol(tree, next, name) {
        Some(s) => read_value(alloc, strings, tree, s, text),
        None => Ok(Meaning::Noted(NoticeKind::UnknownSymbol)),
    }
}

/// Interprets a line `# CONFIG_X is not set`.
fn read_unset_line(tree: &Tree, next: u32, name: &str) -> Meaning
    ensures meaning { meaning_view result ≡ of_named tree.now.tree (λ s symbol. unset_meaning tree.now.tree s symbol symbol.choice) (symbol_named tree.now.tree name.now) }
    ensures within { IsWithin (length tree.now.tree.units) (meaning_view result) }
{
    match find_symbol(tree, next, name) {
        Some(s) => read_unset(tree, s),
        None => Meaning::Noted(NoticeKind::UnknownSymbol),
    }
}

/// Interprets a line that is neither `CONFIG_X=value` nor `# CONFIG_X is not set`; `None` if it is malformed.
fn read_other_line(line: &str) -> Option<Meaning>
    ensures meaning { option_map meaning_view result ≡ of_other line.now }
    ensures within { (n : ℕ) → IfSome result (λ meaning. IsWithin n (meaning_view meaning)) }
{
    if line.is_empty() || is_comment(line.as_bytes()) {
        Some(Meaning::Nothing)
    } else {
        None
    }
}

/// Interprets a line of a configuration file; `None` if it is malformed. The symbol of the unit `next` is tried first for the
/// line's name. An `Err` means out of memory.
pub fn read_line(
    alloc: Global,
    settled: &Settled,
    format: &Format,
    next: u32,
    line: &str,
) -> Result<Option<Meaning>, AllocError>
    ensures within { IfOk result (λ meaning. IfSome meaning (λ s. IsWithin (length (tree_of_settled settled.now).units) (meaning_view s))) }
    ensures meaning { IfOk result (λ meaning. option_map meaning_view meaning ≡ line_meaning (file_format format.now) (tree_of_settled settled.now) (without_white_end line.now)) }
{
    let tree = settled.tree();
    let line = trimmed(line);
    if let Some((name, text)) = value_parts(&format.prefix, line) {
        let meaning = read_value_line(alloc, format.strings, tree, next, name, text)?;
        return Ok(Some(meaning));
    }
    if let Some(name) = unset_name(&format.prefix, line) {
        return Ok(Some(read_unset_line(tree, next, name)));
    }
    Ok(read_other_line(line))
}
