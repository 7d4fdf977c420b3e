//! The forms of options: what may follow `option` ("Menu attributes").
ghost use Rattle.std.specs.Prelude.{IfOk};
ghost use Rattle.kc_expr.specs.between.Arena.{Grows};
ghost use Rattle.kc_tokens.specs.Token.{lexemes_of};
ghost use Rattle.kc_tree_model.specs.Forms.{environment_line, option_line};
ghost use Rattle.kc_tree_model.specs.declared.statement.Statement.TheVariants.{Attribute as attribute};
ghost use Rattle.kc_statements.specs.between.StatementViews.{ReturnsOrFails, AttributeNodesExist, attribute_in};

use super::condition::no_more;
use super::range::operand;
use super::statement::ReadAttribute;
use super::token::{is_quoted, is_the_word};
use kc_expr::Arena;
use kc_tokens::Token;
use kc_tree_model::{Attribute, DefaultAttribute, TreeKind};

/// Reads the tokens after `option env`: one quoted text, which is the value of a default.
fn environment_attribute(arena: &mut Arena, tokens: &[Token<'_>]) -> Result<ReadAttribute, TreeKind>
    ensures grows { Grows arena.old arena.new }
    ensures gives { ReturnsOrFails (λ a. attribute (attribute_in arena.new a)) result (environment_line (lexemes_of tokens.now)) }
    ensures held { IfOk result (AttributeNodesExist arena.new) }
{
    if tokens.len() != 1 {
        return Err(TreeKind::Malformed);
    }
    if !is_quoted(&tokens[0]) {
        return Err(TreeKind::Malformed);
    }
    let value = operand(arena, &tokens[0])?;
    Ok(Attribute::Default(DefaultAttribute {
        value,
        single: true,
        condition: None,
        from_environment: true,
    }))
}

/// Reads the tokens after `option`: the word `modules` alone, or `env` and a quoted text.
pub(crate) fn option_attribute(
    arena: &mut Arena,
    tokens: &[Token<'_>],
) -> Result<ReadAttribute, TreeKind>
    ensures grows { Grows arena.old arena.new }
    ensures gives { ReturnsOrFails (λ a. attribute (attribute_in arena.new a)) result (option_line (lexemes_of tokens.now)) }
    ensures held { IfOk result (AttributeNodesExist arena.new) }
{
    if tokens.is_empty() {
        return Err(TreeKind::Malformed);
    }
    if is_the_word("modules", &tokens[0]) {
        no_more((), &tokens[1..])?;
        return Ok(Attribute::Modules);
    }
    if is_the_word("env", &tokens[0]) {
        return environment_attribute(arena, &tokens[1..]);
    }
    Err(TreeKind::Malformed)
}
