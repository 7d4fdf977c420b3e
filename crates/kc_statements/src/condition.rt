//! The ends of lines: conditions, and nothing.
ghost use Rattle.std.specs.Prelude.{◌≡◌, ◌≤◌, length, drop, IfOk};
ghost use Rattle.kc_expr.specs.between.Arena.{Grows, node_expr};
ghost use Rattle.kc_tokens.specs.Token.{lexemes_of};
ghost use Rattle.kc_tree_model.specs.Forms.{no_more, last_condition, optional_if};
ghost use Rattle.kc_statements.specs.between.StatementViews.{ReturnsOrFails, NodeExists, IfNodeExists, if_in};

use super::fault::tree_kind_of;
use super::token::is_the_word;
use kc_expr::{Arena, ExprId};
use kc_tokens::Token;
use kc_tree_model::TreeKind;

/// Gives what was read before these last tokens of a line, of which there must be none.
pub(crate) fn no_more<T: Drop>(read: T, tokens: &[Token<'_>]) -> Result<T, TreeKind>
    ensures { result ≡ no_more read (lexemes_of tokens.now) }
{
    if tokens.is_empty() {
        Ok(read)
    } else {
        Err(TreeKind::Malformed)
    }
}

/// Reads a condition from the token at `at` up to the end of the line.
pub(crate) fn last_condition(
    arena: &mut Arena,
    tokens: &[Token<'_>],
    at: usize,
) -> Result<ExprId, TreeKind>
    requires within { at ≤ length tokens.now }
    ensures grows { Grows arena.old arena.new }
    ensures gives { ReturnsOrFails (node_expr arena.new) result (last_condition (drop at (lexemes_of tokens.now))) }
    ensures held { IfOk result (NodeExists arena.new) }
{
    let (id, next) = match arena.parse_expr(tokens, at, true) {
        Ok(read) => read,
        Err(fault) => return Err(tree_kind_of(fault.kind)),
    };
    if next < tokens.len() {
        return Err(TreeKind::Malformed);
    }
    Ok(id)
}

/// Reads a condition that may be left out, `[if E]`, from the token at `at` up to the end of the line.
pub(crate) fn optional_if(
    arena: &mut Arena,
    tokens: &[Token<'_>],
    at: usize,
) -> Result<Option<ExprId>, TreeKind>
    requires within { at ≤ length tokens.now }
    ensures grows { Grows arena.old arena.new }
    ensures gives { ReturnsOrFails (if_in arena.new) result (optional_if (drop at (lexemes_of tokens.now))) }
    ensures held { IfOk result (IfNodeExists arena.new) }
{
    if at == tokens.len() {
        return Ok(None);
    }
    if !is_the_word("if", &tokens[at]) {
        return Err(TreeKind::Malformed);
    }
    Ok(Some(last_condition(arena, tokens, at + 1)?))
}
