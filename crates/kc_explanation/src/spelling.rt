//! The tokens of an expression's plain spelling.
ghost use Rattle.std.specs.Prelude.{◌≡◌, ◌<◌, ◌++◌, ◌∷◌, [], length, All, IfOk, OnOk};
ghost use Rattle.kc_expr.specs.between.Arena.{Exprs, node_expr};
ghost use Rattle.kc_expr.specs.between.ExprParts.{expr_of_parts};
ghost use Rattle.kc_reasons_model.specs.Spelling.{spelling};
ghost use Rattle.kc_expr.specs.Grammar.{ors};
ghost use Rattle.kc_explanation.specs.between.SpelledTokens.{lexeme_of, lexemes_of, IsTokenOf};
ghost use Rattle.kc_explanation.specs.declared.spelling.SpelledToken.TheVariants.{Left as LeftToken, Right as RightToken, Relation as RelationToken};
ghost use Rattle.kc_explanation.specs.checker.SpellingWalk.{is_enclosed, past_shown, spelling_in_reverse};

use kc_expr::{Arena, ExprId, ExprParts};
use kc_tokens::Relop;
use std::alloc::{AllocError, Global};

/// A token of a spelled expression. An operand is the left or the right one of the expression with a number: the only one of an
/// operand alone is its left one.
#[derive(Clone, Copy)]
pub enum SpelledToken {
    Left(ExprId),
    Right(ExprId),
    Relation(Relop),
    Not,
    And,
    Or,
    Open,
    Close,
}

/// Where an expression is, by which it has parentheses or not.
#[derive(Clone, Copy)]
enum OperandPlace {
    /// As a whole, or at the left of `||`: anything.
    InOr,
    /// At the right of `||`, or at the left of `&&`: no `||`.
    InAnd,
    /// At the right of `&&`: no `||` and no `&&`.
    Factor,
    /// Behind a `!`: no relation either.
    BehindNot,
}

/// Whether an expression is spelled in parentheses at a place.
fn is_enclosed(place: OperandPlace, parts: &ExprParts<'_>) -> bool
    ensures { (exprs : Exprs) → result ≡ is_enclosed place (expr_of_parts exprs parts.now) }
{
    match parts {
        ExprParts::Related(_, _, _) => match place {
            OperandPlace::BehindNot => true,
            OperandPlace::InOr => false,
            OperandPlace::InAnd => false,
            OperandPlace::Factor => false,
        },
        ExprParts::Both(_, _) => match place {
            OperandPlace::Factor => true,
            OperandPlace::BehindNot => true,
            OperandPlace::InOr => false,
            OperandPlace::InAnd => false,
        },
        ExprParts::Either(_, _) => match place {
            OperandPlace::InAnd => true,
            OperandPlace::Factor => true,
            OperandPlace::BehindNot => true,
            OperandPlace::InOr => false,
        },
        ExprParts::Alone(_) => false,
        ExprParts::Negated(_) => false,
        ExprParts::Shown(_) => false,
    }
}

/// Where an expression is that takes the place of another one at a place.
fn past_shown(place: OperandPlace) -> OperandPlace
    ensures { result ≡ past_shown place }
{
    match place {
        OperandPlace::BehindNot => OperandPlace::Factor,
        OperandPlace::InOr => OperandPlace::InOr,
        OperandPlace::InAnd => OperandPlace::InAnd,
        OperandPlace::Factor => OperandPlace::Factor,
    }
}

/// Appends a token.
fn push_token(found: &mut Vec<SpelledToken>, token: SpelledToken) -> Result<(), AllocError>
    ensures tokens { (exprs : Exprs) → OnOk result (lexemes_of exprs found.new.items ≡ lexemes_of exprs found.old.items ++ lexeme_of exprs token ∷ []) }
    ensures held { (exprs : Exprs) → IsTokenOf exprs token → OnOk result (All (IsTokenOf exprs) found.old.items → All (IsTokenOf exprs) found.new.items) }
{
    found.push(token)?;
    Ok(())
}

/// Appends a relation from right to left.
fn push_relation(found: &mut Vec<SpelledToken>, op: Relop, id: ExprId) -> Result<(), AllocError>
    ensures tokens { (exprs : Exprs) → OnOk result (lexemes_of exprs found.new.items ≡ lexemes_of exprs found.old.items ++ (lexeme_of exprs (RightToken id) ∷ lexeme_of exprs (RelationToken op) ∷ lexeme_of exprs (LeftToken id) ∷ [])) }
    ensures held { (exprs : Exprs) → id < length exprs.nodes → OnOk result (All (IsTokenOf exprs) found.old.items → All (IsTokenOf exprs) found.new.items) }
{
    found.push(SpelledToken::Right(id))?;
    found.push(SpelledToken::Relation(op))?;
    found.push(SpelledToken::Left(id))?;
    Ok(())
}

/// Appends the tokens of an expression at a place, from right to left.
fn push_spelling(
    arena: &Arena,
    id: ExprId,
    place: OperandPlace,
    found: &mut Vec<SpelledToken>,
) -> Result<(), AllocError>
    requires there { id < length arena.now.nodes }
    ensures tokens { OnOk result (lexemes_of arena.now found.new.items ≡ lexemes_of arena.now found.old.items ++ spelling_in_reverse place (node_expr arena.now id)) }
    ensures held { OnOk result (All (IsTokenOf arena.now) found.old.items → All (IsTokenOf arena.now) found.new.items) }
{
    let mut at = id;
    let mut here = place;
    'down: loop {
        let parts = arena.parts(at);
        if is_enclosed(here, &parts) {
            push_token(found, SpelledToken::Close)?;
            push_spelling(arena, at, OperandPlace::InOr, found)?;
            return push_token(found, SpelledToken::Open);
        }
        match parts {
            ExprParts::Alone(_) => return push_token(found, SpelledToken::Left(at)),
            ExprParts::Related(op, _, _) => return push_relation(found, op, at),
            ExprParts::Negated(part) => {
                push_spelling(arena, part, OperandPlace::BehindNot, found)?;
                return push_token(found, SpelledToken::Not);
            }
            ExprParts::Both(left, right) => {
                push_spelling(arena, right, OperandPlace::Factor, found)?;
                push_token(found, SpelledToken::And)?;
                at = left;
                here = OperandPlace::InAnd;
            }
            ExprParts::Either(left, right) => {
                push_spelling(arena, right, OperandPlace::InAnd, found)?;
                push_token(found, SpelledToken::Or)?;
                at = left;
                here = OperandPlace::InOr;
            }
            ExprParts::Shown(part) => {
                at = part;
                here = past_shown(here);
            }
        }
    }
}

/// The tokens of an expression. An `Err` means out of memory.
pub fn spelled_tokens(
    alloc: Global,
    arena: &Arena,
    id: ExprId,
) -> Result<Vec<SpelledToken>, AllocError>
    requires there { id < length arena.now.nodes }
    ensures ok { IfOk result (λ found. lexemes_of arena.now found.items ≡ spelling ors (node_expr arena.now id)) }
    ensures held { IfOk result (λ found. All (IsTokenOf arena.now) found.items) }
{
    let mut found = Vec::new(alloc);
    push_spelling(arena, id, OperandPlace::InOr, &mut found)?;
    found.reverse();
    Ok(found)
}
