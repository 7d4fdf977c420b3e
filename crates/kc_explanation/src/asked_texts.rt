//! The text of what the lines of configuration files ask of a symbol.
ghost use Rattle.std.specs.Prelude.{◌≡◌, ◌<◌, ◌==◌, ◌++◌, OnOk, codes, length, if◌then◌else◌};
ghost use Rattle.kc_evaluation.specs.checker.ValuationView.{valuation_tree, valuation_values};
ghost use Rattle.kc_rules_model.specs.SymbolValues.{value_of_symbol};
ghost use Rattle.kc_reasons_model.specs.Hindrances.{is_given_y};
ghost use Rattle.kc_reasons_model.specs.Reasons.{name_of_symbol, value_text};
ghost use Rattle.kc_explanation.specs.Asked.{is_by_user, outcome_text, why_text, line_place, asked_value, asks_text};

use super::explanation::name_of;
use super::token_texts::push_value_text;
use super::words::hindrance_text;
use itoa::Buffer;
use kc_dotconfig_model::Strings;
use kc_evaluation::Valuation;
use kc_minimal::push_spelled;
use kc_reasons::{Case, ChoiceCase, Hindrance, TextCase, TriCase, is_given_y};
use kc_rules_model::UserValue;
use kc_tree::Sym;
use kc_value::Kind;
use std::alloc::AllocError;

/// Whether a case is what the user asks.
fn is_by_user(case: Case) -> bool
    ensures { result ≡ is_by_user case }
{
    match case {
        Case::Tri(given, _) => matches!(given, TriCase::User),
        Case::Text(given) => matches!(given, TextCase::User),
        Case::Choice(given) => matches!(
            given,
            ChoiceCase::User | ChoiceCase::FirstUnlisted | ChoiceCase::FirstListed
        ),
    }
}

/// Appends what became of an assigned value, by what gives the value and what hinders the assigned one. An `Err` means out of memory.
pub fn push_outcome(
    out: &mut Vec<u8>,
    case: Case,
    hindrance: Option<Hindrance>,
) -> Result<(), AllocError>
    ensures { OnOk result (out.new.items ≡ out.old.items ++ outcome_text case hindrance) }
{
    match hindrance {
        None => push_unhindered(out, case),
        Some(h) => {
            out.extend_from_slice(b"not taken, ")?;
            out.extend_from_slice(hindrance_text(h).as_bytes())
        }
    }
}

/// Appends why an assigned value isn't taken, if something hinders it. An `Err` means out of memory.
pub fn push_why(out: &mut Vec<u8>, hindrance: Option<Hindrance>) -> Result<(), AllocError>
    ensures { OnOk result (out.new.items ≡ out.old.items ++ why_text hindrance) }
{
    match hindrance {
        None => out.extend_from_slice(b""),
        Some(h) => out.extend_from_slice(hindrance_text(h).as_bytes()),
    }
}

/// Appends the name of symbol `s`. An `Err` means out of memory.
pub fn push_name(out: &mut Vec<u8>, under: &Valuation<'_>, s: Sym) -> Result<(), AllocError>
    ensures { OnOk result (out.new.items ≡ out.old.items ++ name_of_symbol (valuation_tree under.now) s) }
{
    out.extend_from_slice(name_of(under, s).as_bytes())
}

/// Appends the value of symbol `s`. An `Err` means out of memory.
pub fn push_value_of(
    out: &mut Vec<u8>,
    under: &Valuation<'_>,
    strings: Strings,
    s: Sym,
) -> Result<(), AllocError>
    requires there { s < length (valuation_tree under.now).symbols }
    ensures { OnOk result (out.new.items ≡ out.old.items ++ value_text strings (value_of_symbol (valuation_tree under.now) (valuation_values under.now) s)) }
{
    push_value_text(out, strings, &under.symbol(s))
}

/// Appends what became of an assigned value that nothing hinders.
fn push_unhindered(out: &mut Vec<u8>, case: Case) -> Result<(), AllocError>
    ensures { OnOk result (out.new.items ≡ out.old.items ++ (if is_by_user case then codes "taken" else codes "the value is that without it")) }
{
    if is_by_user(case) {
        out.extend_from_slice(b"taken")
    } else {
        out.extend_from_slice(b"the value is that without it")
    }
}

/// Appends the place of a line of a configuration file. An `Err` means out of memory.
pub fn push_line_place(out: &mut Vec<u8>, path: &str, number: usize) -> Result<(), AllocError>
    ensures { OnOk result (out.new.items ≡ out.old.items ++ line_place path.now number) }
{
    let mut digits = Buffer::new();
    out.extend_from_slice(path.as_bytes())?;
    out.extend_from_slice(b":")?;
    out.extend_from_slice(digits.format(number).as_bytes())?;
    Ok(())
}

/// Appends the letter of a member that is asked to be selected, or else not to be.
fn push_letter_of(out: &mut Vec<u8>, is_y: bool) -> Result<(), AllocError>
    ensures { OnOk result (out.new.items ≡ out.old.items ++ (if is_y then codes "y" else codes "n")) }
{
    if is_y {
        out.extend_from_slice(b"y")
    } else {
        out.extend_from_slice(b"n")
    }
}

/// Appends what is asked of symbol `s` where member `m` is: `y`, or `MEMBER=y` if that is another.
fn push_asked_member(
    out: &mut Vec<u8>,
    under: &Valuation<'_>,
    s: Sym,
    m: Sym,
) -> Result<(), AllocError>
    ensures { OnOk result (out.new.items ≡ out.old.items ++ (if m == s then codes "y" else name_of_symbol (valuation_tree under.now) m ++ codes "=y")) }
{
    if m.number() == s.number() {
        out.extend_from_slice(b"y")
    } else {
        out.extend_from_slice(name_of(under, m).as_bytes())?;
        out.extend_from_slice(b"=y")
    }
}

/// Appends what a user value asks of symbol `s` of this type. An `Err` means out of memory.
#[tactic(auto, using(crate::proofs::Spellings::spelled_is))]
pub fn push_asked_value(
    out: &mut Vec<u8>,
    under: &Valuation<'_>,
    strings: Strings,
    s: Sym,
    kind: Kind,
    user: &UserValue,
) -> Result<(), AllocError>
    ensures { OnOk result (out.new.items ≡ out.old.items ++ asked_value strings (valuation_tree under.now) s kind user.now) }
{
    match user {
        UserValue::Tri(t) => out.extend_from_slice(t.letter().as_bytes()),
        UserValue::Text(text) => push_spelled(out, strings, kind, text.as_str()),
        UserValue::Member(m) => push_asked_member(out, under, s, *m),
        UserValue::Lines(lines) => push_letter_of(out, is_given_y(lines.as_slice(), s)),
    }
}

/// Appends `PATH:LINE asks VALUE: `, of the line of a configuration file at this path that has this number, and says this of symbol
/// `s` of this type. An `Err` means out of memory.
pub fn push_asks(
    out: &mut Vec<u8>,
    under: &Valuation<'_>,
    strings: Strings,
    s: Sym,
    kind: Kind,
    path: &str,
    number: usize,
    user: &UserValue,
) -> Result<(), AllocError>
    ensures { OnOk result (out.new.items ≡ out.old.items ++ asks_text strings (valuation_tree under.now) s kind path.now number user.now) }
{
    push_line_place(out, path, number)?;
    out.extend_from_slice(b" asks ")?;
    push_asked_value(out, under, strings, s, kind, user)?;
    out.extend_from_slice(b": ")?;
    Ok(())
}
