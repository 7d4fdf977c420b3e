//! The form of ranges: what may follow `range` ("Menu attributes").
ghost use Rattle.std.specs.Prelude.{◌≡◌, true, Some, IfOk, IfErr};
ghost use Rattle.kc_expr.specs.between.Arena.{Grows};
ghost use Rattle.kc_expr.specs.Grammar.{is_operand_kind, operand_of_lexeme};
ghost use Rattle.kc_tokens.specs.Token.{lexemes_of, lexeme_of};
ghost use Rattle.kc_tree_model.specs.declared.fault.TreeKind.TheVariants.{OutOfMemory};
ghost use Rattle.kc_tree_model.specs.Forms.{range_line};
ghost use Rattle.kc_tree_model.specs.declared.statement.Attribute.TheVariants.{Range as range};
ghost use Rattle.kc_tree_model.specs.declared.statement.Statement.TheVariants.{Attribute as attribute};
ghost use Rattle.kc_statements.specs.between.StatementViews.{ReturnsOrFails, RangeNodesExist, OperandNodeExists, range_in, operand_or_n};

use super::condition::optional_if;
use super::statement::ReadRange;
use super::token::is_operand;
use kc_expr::{Arena, ExprId};
use kc_tokens::Token;
use kc_tree_model::{RangeAttribute, TreeKind};

/// Adds a bare word or a quoted text to the arena, as an expression of one operand.
pub(crate) fn operand(arena: &mut Arena, token: &Token<'_>) -> Result<ExprId, TreeKind>
    requires kind { is_operand_kind token.now.kind ≡ true }
    ensures grows { Grows arena.old arena.new }
    ensures operand { IfOk result (λ id. operand_of_lexeme (lexeme_of token.now) ≡ Some (operand_or_n arena.new id)) }
    ensures held { IfOk result (OperandNodeExists arena.new) }
    ensures memory { IfErr result (λ k. k ≡ OutOfMemory) }
{
    let alone = [*token];
    match arena.parse_expr(&alone, 0, false) {
        Ok(read) => Ok(read.0),
        Err(_) => Err(TreeKind::OutOfMemory),
    }
}

/// Reads the tokens after `range`: two operands and maybe a condition, `OP OP [if E]`.
pub(crate) fn range_attribute(
    arena: &mut Arena,
    tokens: &[Token<'_>],
) -> Result<ReadRange, TreeKind>
    ensures grows { Grows arena.old arena.new }
    ensures gives { ReturnsOrFails (λ r. attribute (range (range_in arena.new r))) result (range_line (lexemes_of tokens.now)) }
    ensures held { IfOk result (RangeNodesExist arena.new) }
{
    if tokens.len() < 2 {
        return Err(TreeKind::Malformed);
    }
    if !is_operand(&tokens[0]) {
        return Err(TreeKind::Malformed);
    }
    if !is_operand(&tokens[1]) {
        return Err(TreeKind::Malformed);
    }
    let low = operand(arena, &tokens[0])?;
    let high = operand(arena, &tokens[1])?;
    let condition = optional_if(arena, tokens, 2)?;
    Ok(RangeAttribute {
        low,
        high,
        condition,
    })
}
