//! The rules of strings, ints and hexes.
ghost use Rattle.std.specs.Prelude.{◌≡◌, ◌<◌, length, map, IfOk, IfSome, option_map, unwrap_or, pos};
ghost use Rattle.std.specs.Option.{option_copied};
ghost use Rattle.kc_value.specs.Number.{number_of_text, number_spelling, IsPrintable};
ghost use Rattle.kc_expr.specs.between.Arena.{node_expr};
ghost use Rattle.kc_tree.specs.between.Views.{symbol_view, default_view, range_view, operand_or_empty, SymbolFits};
ghost use Rattle.kc_dependencies.specs.checker.StoredRules.{AreDefaults, AreRanges};
ghost use Rattle.kc_rules_model.specs.Rule.{bound, is_within, is_upside_down, bound_text, clamped, user_number, text_without_number, default_text, number_default};
ghost use Rattle.kc_evaluation.specs.checker.Texts.{IsNumber, active_value_of, active_range_of, string_rule_of, visible_number_of, number_rule_of};
ghost use Rattle.kc_evaluation.specs.checker.ValuationView.{valuation_tree, valuation_exprs, valuation_values};

use super::tristate_rules::is_visible;
use super::valuation::Valuation;
use kc_expr::ExprId;
use kc_tree::{Default, Range, Symbol};
use kc_value::{Kind, Text, hex_of, int_of, number_text};
use std::alloc::{AllocError, Global};

/// The expression of the value of a symbol's first default whose condition isn't `n`, or `None` without one.
pub fn active_default(under: &Valuation<'_>, defaults: &[Default]) -> Option<ExprId>
    requires fits { AreDefaults (valuation_exprs under.now) defaults.now }
    ensures value { option_map (node_expr (valuation_exprs under.now)) result ≡ active_value_of (valuation_tree under.now) (valuation_values under.now) (map (default_view (valuation_exprs under.now)) defaults.now) }
    ensures there { IfSome result (λ i. i < length (valuation_exprs under.now).nodes) }
{
    for default in defaults {
        if !under.condition(default.condition).is_n() {
            return Some(default.value);
        }
    }
    None
}

/// The text of a symbol's first default whose condition isn't `n`, empty without one.
pub fn default_text<'a>(under: &'a Valuation<'a>, symbol: &Symbol<'_>) -> &'a str
    requires fits { SymbolFits (valuation_exprs under.now) (length (valuation_tree under.now).symbols) symbol.now }
    ensures value { result.now ≡ default_text (valuation_tree under.now) (valuation_values under.now) (symbol_view (valuation_exprs under.now) symbol.now) }
{
    match active_default(under, symbol.defaults) {
        None => "",
        Some(value) => under.operand_text(value),
    }
}

/// The value of a symbol of type string: the user's text if the symbol is visible, otherwise the text of its first default whose
/// condition isn't `n`, empty without one.
pub(crate) fn string_rule<'a>(
    under: &'a Valuation<'a>,
    symbol: &Symbol<'_>,
    user: Option<&'a str>,
) -> &'a str
    requires fits { SymbolFits (valuation_exprs under.now) (length (valuation_tree under.now).symbols) symbol.now }
    ensures value { result.now ≡ string_rule_of (valuation_tree under.now) (valuation_values under.now) (symbol_view (valuation_exprs under.now) symbol.now) (option_copied user.entry) }
{
    match user {
        Some(text) if is_visible(under, symbol) => text,
        _ => default_text(under, symbol),
    }
}

/// The number that a text represents in a type: decimal for an int, hexadecimal for a hex. `None` where it represents none, and
/// for any other type.
pub fn number_of(kind: Kind, text: &str) -> Option<i128>
    ensures { result ≡ number_of_text kind text.now }
{
    match kind {
        Kind::Int => int_of(text.as_bytes()),
        Kind::Hex => hex_of(text.as_bytes()),
        Kind::Bool | Kind::Tristate | Kind::Text => None,
    }
}

/// The number of a bound of an int's or hex's range, 0 where it isn't a number of the type.
#[tactic(auto, using(crate::proofs::Bounds::bound_is, crate::proofs::Bounds::number_printable))]
pub fn bound(under: &Valuation<'_>, kind: Kind, id: ExprId) -> i128
    requires there { id < length (valuation_exprs under.now).nodes }
    requires number { IsNumber kind }
    ensures bound { result ≡ bound (valuation_tree under.now) (valuation_values under.now) kind (operand_or_empty (node_expr (valuation_exprs under.now) id)) }
    ensures printable { IsPrintable kind result }
{
    number_of(kind, under.operand_text(id)).unwrap_or(0)
}

/// The first range whose condition isn't `n`, if there is one.
pub fn active_range(under: &Valuation<'_>, ranges: &[Range]) -> Option<Range>
    requires fits { AreRanges (valuation_exprs under.now) ranges.now }
    ensures range { option_map (range_view (valuation_exprs under.now)) result ≡ active_range_of (valuation_tree under.now) (valuation_values under.now) (map (range_view (valuation_exprs under.now)) ranges.now) }
    ensures there { IfSome result (λ r. (r.low < length (valuation_exprs under.now).nodes) × (r.high < length (valuation_exprs under.now).nodes)) }
{
    for range in ranges {
        if !under.condition(range.condition).is_n() {
            return Some(*range);
        }
    }
    None
}

/// Whether a number is within the range of an int or hex; true without a range.
pub fn is_within(under: &Valuation<'_>, kind: Kind, range: &Option<Range>, number: i128) -> bool
    requires there { IfSome range.now (λ r. (r.low < length (valuation_exprs under.now).nodes) × (r.high < length (valuation_exprs under.now).nodes)) }
    requires number { IsNumber kind }
    ensures value { result ≡ is_within (valuation_tree under.now) (valuation_values under.now) kind (option_map (range_view (valuation_exprs under.now)) range.now) number }
{
    match range {
        None => true,
        Some(r) => !(number < bound(under, kind, r.low)) && !(bound(under, kind, r.high) < number),
    }
}

/// Whether the lower bound of an int's or hex's range is above the upper one; false without a range.
pub fn is_upside_down(under: &Valuation<'_>, kind: Kind, range: &Option<Range>) -> bool
    requires there { IfSome range.now (λ r. (r.low < length (valuation_exprs under.now).nodes) × (r.high < length (valuation_exprs under.now).nodes)) }
    requires number { IsNumber kind }
    ensures value { result ≡ is_upside_down (valuation_tree under.now) (valuation_values under.now) kind (option_map (range_view (valuation_exprs under.now)) range.now) }
{
    match range {
        None => false,
        Some(r) => bound(under, kind, r.high) < bound(under, kind, r.low),
    }
}

/// The text that a number gets from a bound of a range, whose number is given too: the number's own spelling; under the rules of
/// Linux 6.12 the bound's text, if that is a number of the type.
fn bound_text(
    alloc: Global,
    under: &Valuation<'_>,
    kind: Kind,
    id: ExprId,
    number: i128,
) -> Result<Text, AllocError>
    requires there { id < length (valuation_exprs under.now).nodes }
    requires number { IsNumber kind }
    requires bound { number ≡ bound (valuation_tree under.now) (valuation_values under.now) kind (operand_or_empty (node_expr (valuation_exprs under.now) id)) }
    requires printable { IsPrintable kind number }
    ensures ok { IfOk result (λ t. t ≡ bound_text (valuation_tree under.now) (valuation_values under.now) kind (operand_or_empty (node_expr (valuation_exprs under.now) id))) }
{
    if under.rules.tree.language().is_linux_6_12() {
        let text = under.operand_text(id);
        if number_of(kind, text).is_some() {
            return Text::copied(alloc, text);
        }
    }
    Ok(Text::from_string(number_text(alloc, kind, number)?))
}

/// The text, where its number is within the range; below it the lower bound, above it the upper one.
fn clamped(
    alloc: Global,
    under: &Valuation<'_>,
    kind: Kind,
    range: &Option<Range>,
    number: i128,
    text: &str,
) -> Result<Text, AllocError>
    requires there { IfSome range.now (λ r. (r.low < length (valuation_exprs under.now).nodes) × (r.high < length (valuation_exprs under.now).nodes)) }
    requires number { IsNumber kind }
    ensures ok { IfOk result (λ t. t ≡ clamped (valuation_tree under.now) (valuation_values under.now) kind (option_map (range_view (valuation_exprs under.now)) range.now) number text.now) }
{
    match range {
        None => Text::copied(alloc, text),
        Some(r) => {
            let low = bound(under, kind, r.low);
            let high = bound(under, kind, r.high);
            if number < low {
                return bound_text(alloc, under, kind, r.low, low);
            }
            if high < number {
                return bound_text(alloc, under, kind, r.high, high);
            }
            Text::copied(alloc, text)
        }
    }
}

/// The spelling of 0 in a type.
fn zero_text(kind: Kind) -> &'static str
    ensures { result.now ≡ number_spelling kind (pos 0) }
{
    match kind {
        Kind::Hex => "0x0",
        _ => "0",
    }
}

/// The text of an int or hex whose default isn't a number of the type, or that has no default that counts: empty; under the rules
/// of Linux 6.12 the spelling of 0 if there is no such default.
fn text_without_number(under: &Valuation<'_>, symbol: &Symbol<'_>) -> &'static str
    requires fits { SymbolFits (valuation_exprs under.now) (length (valuation_tree under.now).symbols) symbol.now }
    ensures value { result.now ≡ text_without_number (valuation_tree under.now) (valuation_values under.now) (symbol_view (valuation_exprs under.now) symbol.now) }
{
    if !under.rules.tree.language().is_linux_6_12() {
        return "";
    }
    if active_default(under, symbol.defaults).is_some() {
        return "";
    }
    zero_text(symbol.kind)
}

/// The value of an int or hex without a user value that counts.
fn number_default(
    alloc: Global,
    under: &Valuation<'_>,
    symbol: &Symbol<'_>,
    range: &Option<Range>,
) -> Result<Text, AllocError>
    requires fits { SymbolFits (valuation_exprs under.now) (length (valuation_tree under.now).symbols) symbol.now }
    requires there { IfSome range.now (λ r. (r.low < length (valuation_exprs under.now).nodes) × (r.high < length (valuation_exprs under.now).nodes)) }
    requires range { option_map (range_view (valuation_exprs under.now)) range.now ≡ active_range_of (valuation_tree under.now) (valuation_values under.now) (map (range_view (valuation_exprs under.now)) symbol.now.ranges.now) }
    requires number { IsNumber symbol.now.kind }
    ensures ok { IfOk result (λ text. text ≡ number_default (valuation_tree under.now) (valuation_values under.now) (symbol_view (valuation_exprs under.now) symbol.now)) }
{
    let text = default_text(under, symbol);
    match number_of(symbol.kind, text) {
        None => clamped(
            alloc,
            under,
            symbol.kind,
            range,
            0,
            text_without_number(under, symbol),
        ),
        Some(number) => clamped(alloc, under, symbol.kind, range, number, text),
    }
}

/// The text that the number of a user's text gives: that text if the number is within the range, else none; under the rules of
/// Linux 6.12 the text of the bound that it passes, unless the lower bound is above the upper one.
fn user_number(
    alloc: Global,
    under: &Valuation<'_>,
    kind: Kind,
    range: &Option<Range>,
    text: &str,
) -> Result<Option<Text>, AllocError>
    requires there { IfSome range.now (λ r. (r.low < length (valuation_exprs under.now).nodes) × (r.high < length (valuation_exprs under.now).nodes)) }
    requires number { IsNumber kind }
    ensures ok { IfOk result (λ given. given ≡ user_number (valuation_tree under.now) (valuation_values under.now) kind (option_map (range_view (valuation_exprs under.now)) range.now) (unwrap_or (number_of_text kind text.now) (pos 0)) text.now) }
{
    let number = number_of(kind, text).unwrap_or(0);
    if under.rules.tree.language().is_linux_6_12() {
        if is_upside_down(under, kind, range) {
            return Ok(None);
        }
        return Ok(Some(clamped(alloc, under, kind, range, number, text)?));
    }
    if is_within(under, kind, range, number) {
        return Ok(Some(Text::copied(alloc, text)?));
    }
    Ok(None)
}

/// What the number of a user's text gives, if there is one and the symbol is visible.
fn visible_number(
    alloc: Global,
    under: &Valuation<'_>,
    symbol: &Symbol<'_>,
    range: &Option<Range>,
    user: Option<&str>,
) -> Result<Option<Text>, AllocError>
    requires fits { SymbolFits (valuation_exprs under.now) (length (valuation_tree under.now).symbols) symbol.now }
    requires there { IfSome range.now (λ r. (r.low < length (valuation_exprs under.now).nodes) × (r.high < length (valuation_exprs under.now).nodes)) }
    requires range { option_map (range_view (valuation_exprs under.now)) range.now ≡ active_range_of (valuation_tree under.now) (valuation_values under.now) (map (range_view (valuation_exprs under.now)) symbol.now.ranges.now) }
    requires number { IsNumber symbol.now.kind }
    ensures ok { IfOk result (λ given. given ≡ visible_number_of (valuation_tree under.now) (valuation_values under.now) (symbol_view (valuation_exprs under.now) symbol.now) (option_copied user.entry)) }
{
    let Some(text) = user else {
        return Ok(None);
    };
    if is_visible(under, symbol) {
        user_number(alloc, under, symbol.kind, range, text)
    } else {
        Ok(None)
    }
}

/// The value of an int or hex: what the user's number gives if the symbol is visible, otherwise the text of its default, or the
/// nearest bound where the default is outside the range. An `Err` means out of memory.
pub(crate) fn number_rule(
    alloc: Global,
    under: &Valuation<'_>,
    symbol: &Symbol<'_>,
    user: Option<&str>,
) -> Result<Text, AllocError>
    requires fits { SymbolFits (valuation_exprs under.now) (length (valuation_tree under.now).symbols) symbol.now }
    requires number { IsNumber symbol.now.kind }
    ensures ok { IfOk result (λ text. text ≡ number_rule_of (valuation_tree under.now) (valuation_values under.now) (symbol_view (valuation_exprs under.now) symbol.now) (option_copied user.entry)) }
{
    let range = active_range(under, symbol.ranges);
    match visible_number(alloc, under, symbol, &range, user)? {
        Some(text) => Ok(text),
        None => number_default(alloc, under, symbol, &range),
    }
}
