//! The text of a spelled expression, with the values of its names.
ghost use Rattle.std.specs.Prelude.{◌≡◌, ◌<◌, ◌++◌, ◌∷◌, ◌||◌, [], length, All, flat_map, option_map, is_some, IfOk, OnOk, Some, None, codes, if◌then◌else◌};
ghost use Rattle.kc_value.specs.Number.{loose_number};
ghost use Rattle.kc_tokens.specs.TokenGrammar.{relation_text};
ghost use Rattle.kc_tokens.specs.declared.token.TokenKind.TheVariants.{Relation as RelationKind};
ghost use Rattle.kc_expr.specs.Expr.{constant};
ghost use Rattle.kc_expr.specs.Grammar.{letter_value, ors};
ghost use Rattle.kc_expr.specs.Lookup.{symbol_value_of};
ghost use Rattle.kc_expr.specs.between.Arena.{node_expr};
ghost use Rattle.kc_expr.specs.between.Operand.{operand_of_ref, HasKnownName};
ghost use Rattle.kc_evaluation.specs.checker.ValuationView.{valuation_tree, valuation_exprs, valuation_values};
ghost use Rattle.kc_rules_model.specs.SymbolValues.{environment};
ghost use Rattle.kc_reasons_model.specs.Spelling.{operand_token, token_text, spelling};
ghost use Rattle.kc_reasons_model.specs.Reasons.{value_text, word_value, valued_token};
ghost use Rattle.kc_explanation.specs.Explained.{in_parentheses, value_in_parentheses, token_with_value, spelled_with_values};
ghost use Rattle.kc_explanation.specs.checker.Contexts.{exprs_of, names_of};
ghost use Rattle.kc_explanation.specs.between.SpelledTokens.{left_operand, right_operand, lexeme_of, lexemes_of, IsTokenOf};

use super::context::Context;
use super::spelling::{SpelledToken, spelled_tokens};
use kc_dotconfig_model::Strings;
use kc_evaluation::Valuation;
use kc_expr::{ExprId, ExprParts, Looked, Operand};
use kc_minimal::push_spelled;
use kc_reasons::parts_at;
use kc_tokens::Relop;
use kc_value::{Tri, loose_number_of, push_escaped};
use std::alloc::AllocError;

/// Appends the value of a symbol as it is spelled in a configuration file.
pub(crate) fn push_value_text(
    out: &mut Vec<u8>,
    strings: Strings,
    seen: &Looked<'_>,
) -> Result<(), AllocError>
    ensures { OnOk result (out.new.items ≡ out.old.items ++ value_text strings (Some (symbol_value_of seen.now))) }
{
    push_spelled(out, strings, seen.kind, seen.text)
}

/// Appends the value of a symbol in parentheses.
pub(crate) fn push_value(
    out: &mut Vec<u8>,
    by: &Context<'_>,
    seen: &Looked<'_>,
) -> Result<(), AllocError>
    ensures { OnOk result (out.new.items ≡ out.old.items ++ in_parentheses (value_text by.now.strings (Some (symbol_value_of seen.now)))) }
{
    out.extend_from_slice(b" (")?;
    push_value_text(out, by.strings, seen)?;
    out.extend_from_slice(b")")?;
    Ok(())
}

/// Whether a word is one of the constants.
fn is_constant(word: &str) -> bool
    ensures { result ≡ is_some (letter_value word.now) }
{
    match word.as_bytes() {
        [b'n'] => true,
        [b'm'] => true,
        [b'y'] => true,
        _ => false,
    }
}

/// Appends that a word is no symbol's name, unless it is a number.
fn push_undefined(out: &mut Vec<u8>, word: &str) -> Result<(), AllocError>
    ensures { OnOk result (out.new.items ≡ out.old.items ++ (if is_some (loose_number word.now) then [] else codes " (undefined)")) }
{
    if loose_number_of(word.as_bytes()).is_some() {
        out.extend_from_slice(b"")
    } else {
        out.extend_from_slice(b" (undefined)")
    }
}

/// The value of the symbol with this name, if there is one.
fn value_of_name<'a>(under: &Valuation<'a>, name: &str) -> Option<Looked<'a>>
    ensures { option_map symbol_value_of result ≡ environment (valuation_tree under.now) (valuation_values under.now) name.now }
{
    match under.rules.tree.find(name) {
        None => None,
        Some(s) => Some(under.symbol(s)),
    }
}

/// Appends the value of a name in parentheses; nothing for a constant, and for a number that is no name.
fn push_value_of_word(out: &mut Vec<u8>, by: &Context<'_>, word: &str) -> Result<(), AllocError>
    ensures { OnOk result (out.new.items ≡ out.old.items ++ value_in_parentheses (word_value by.now.strings word.now (names_of by.now word.now))) }
{
    if is_constant(word) {
        return out.extend_from_slice(b"");
    }
    match value_of_name(by.under, word) {
        None => push_undefined(out, word),
        Some(seen) => push_value(out, by, &seen),
    }
}

/// Appends a constant.
fn push_constant(out: &mut Vec<u8>, by: &Context<'_>, value: Tri) -> Result<(), AllocError>
    ensures { OnOk result (out.new.items ≡ out.old.items ++ token_with_value (valued_token by.now.strings (names_of by.now) (operand_token (constant value)))) }
{
    let letter = value.letter();
    out.extend_from_slice(letter.as_bytes())?;
    push_value_of_word(out, by, letter)
}

/// Appends an operand, a name with its value.
fn push_operand(out: &mut Vec<u8>, by: &Context<'_>, operand: Operand<'_>) -> Result<(), AllocError>
    requires known { HasKnownName (exprs_of by.now).names operand }
    ensures { OnOk result (out.new.items ≡ out.old.items ++ token_with_value (valued_token by.now.strings (names_of by.now) (operand_token (operand_of_ref (exprs_of by.now).names operand.entry)))) }
{
    match operand {
        Operand::Tri(t) => push_constant(out, by, t),
        Operand::Quoted(text) => push_escaped(out, text),
        Operand::Name(id) => {
            let name = by.under.rules.tree.arena().name(id);
            out.extend_from_slice(name.as_bytes())?;
            push_value_of_word(out, by, name)
        }
    }
}

/// The left and the right operand of an expression; `n` where it has none.
fn operands_at<'a>(under: &Valuation<'a>, id: ExprId) -> (Operand<'a>, Operand<'a>)
    requires there { id < length (valuation_exprs under.now).nodes }
    ensures left { operand_of_ref (valuation_exprs under.now).names result.0 ≡ left_operand (node_expr (valuation_exprs under.now) id) }
    ensures right { operand_of_ref (valuation_exprs under.now).names result.1 ≡ right_operand (node_expr (valuation_exprs under.now) id) }
    ensures known_left { HasKnownName (valuation_exprs under.now).names result.0 }
    ensures known_right { HasKnownName (valuation_exprs under.now).names result.1 }
{
    match parts_at(under, id) {
        ExprParts::Alone(a) => (a, Operand::Tri(Tri::N)),
        ExprParts::Related(_, a, b) => (a, b),
        ExprParts::Negated(_) => (Operand::Tri(Tri::N), Operand::Tri(Tri::N)),
        ExprParts::Both(_, _) => (Operand::Tri(Tri::N), Operand::Tri(Tri::N)),
        ExprParts::Either(_, _) => (Operand::Tri(Tri::N), Operand::Tri(Tri::N)),
        ExprParts::Shown(_) => (Operand::Tri(Tri::N), Operand::Tri(Tri::N)),
    }
}

/// A relation with a space on each side.
fn relation_words(op: Relop) -> &'static str
    ensures { result.now ≡ token_text (RelationKind op) (relation_text op) }
{
    match op {
        Relop::Equal => " = ",
        Relop::NotEqual => " != ",
        Relop::Less => " < ",
        Relop::Greater => " > ",
        Relop::LessEqual => " <= ",
        Relop::GreaterEqual => " >= ",
    }
}

/// Appends a token, a name with its value.
fn push_token(out: &mut Vec<u8>, by: &Context<'_>, token: SpelledToken) -> Result<(), AllocError>
    requires there { IsTokenOf (exprs_of by.now) token }
    ensures { OnOk result (out.new.items ≡ out.old.items ++ token_with_value (valued_token by.now.strings (names_of by.now) (lexeme_of (exprs_of by.now) token))) }
{
    match token {
        SpelledToken::Left(id) => push_operand(out, by, operands_at(by.under, id).0),
        SpelledToken::Right(id) => push_operand(out, by, operands_at(by.under, id).1),
        SpelledToken::Relation(op) => out.extend_from_slice(relation_words(op).as_bytes()),
        SpelledToken::Not => out.extend_from_slice(b"!"),
        SpelledToken::And => out.extend_from_slice(b" && "),
        SpelledToken::Or => out.extend_from_slice(b" || "),
        SpelledToken::Open => out.extend_from_slice(b"("),
        SpelledToken::Close => out.extend_from_slice(b")"),
    }
}

/// Appends some tokens.
fn push_tokens(
    out: &mut Vec<u8>,
    by: &Context<'_>,
    tokens: &[SpelledToken],
) -> Result<(), AllocError>
    requires there { All (IsTokenOf (exprs_of by.now)) tokens.now }
    ensures { OnOk result (out.new.items ≡ out.old.items ++ flat_map (λ t. token_with_value (valued_token by.now.strings (names_of by.now) t)) (lexemes_of (exprs_of by.now) tokens.now)) }
{
    for token in tokens {
        push_token(out, by, *token)?;
    }
    Ok(())
}

/// The tokens of an expression of the tree.
fn tokens_at(by: &Context<'_>, id: ExprId) -> Result<Vec<SpelledToken>, AllocError>
    requires there { id < length (exprs_of by.now).nodes }
    ensures ok { IfOk result (λ found. lexemes_of (exprs_of by.now) found.items ≡ spelling ors (node_expr (exprs_of by.now) id)) }
    ensures held { IfOk result (λ found. All (IsTokenOf (exprs_of by.now)) found.items) }
{
    spelled_tokens(by.alloc, by.under.rules.tree.arena(), id)
}

/// Appends an expression, each name with its value in parentheses. An `Err` means out of memory.
pub fn push_expression(out: &mut Vec<u8>, by: &Context<'_>, id: ExprId) -> Result<(), AllocError>
    requires there { id < length (exprs_of by.now).nodes }
    ensures { OnOk result (out.new.items ≡ out.old.items ++ spelled_with_values by.now.strings (names_of by.now) (node_expr (exprs_of by.now) id)) }
{
    let tokens = tokens_at(by, id)?;
    push_tokens(out, by, &tokens)
}
