//! The forms of attributes: what may follow their first words ("Menu attributes"). `Q` is a quoted text, `E` an expression.
ghost use Rattle.std.specs.Prelude.{◌≡◌, Option, IfOk, false};
ghost use Rattle.kc_expr.specs.between.Arena.{Grows, node_expr};
ghost use Rattle.kc_expr.specs.Expr.{Expr};
ghost use Rattle.kc_tokens.specs.Token.{lexemes_of};
ghost use Rattle.kc_tree_model.specs.Forms.{type_line, prompt_line, default_line, target_line, condition_line, statement_of};
ghost use Rattle.kc_tree_model.specs.Statements.{Attribute as DefinedAttribute};
ghost use Rattle.kc_tree_model.specs.between.Attributes.{DefaultAttribute as DefinedValued, TargetAttribute as DefinedAimed};
ghost use Rattle.kc_tree_model.specs.declared.statement.Statement.TheVariants.{Attribute as attribute};
ghost use Rattle.kc_statements.specs.between.StatementViews.{ReturnsOrFails, AttributeNodesExist, NodeExists, IfNodeExists, DefaultNodesExist, TargetNodesExist, attribute_in, if_in, default_in, target_in};
ghost use Rattle.kc_statements.specs.checker.Heads.{begins_head};

use super::condition::{last_condition, no_more, optional_if};
use super::fault::tree_kind_of;
use super::options::option_attribute;
use super::range::range_attribute;
use super::statement::{ReadAttribute, ReadDefault, ReadTarget};
use super::token::{is_name, is_quoted, is_the_word};
use kc_expr::{Arena, ExprId};
use kc_tokens::Token;
use kc_tree_model::{Attribute, DefaultAttribute, Keyword, TargetAttribute, TreeKind};
use kc_value::Kind;

/// Reads a quoted text and maybe a condition, `Q [if E]`, and gives the condition.
fn prompt(arena: &mut Arena, tokens: &[Token<'_>]) -> Result<Option<ExprId>, TreeKind>
    ensures grows { Grows arena.old arena.new }
    ensures gives { (f : Option Expr → DefinedAttribute) → ReturnsOrFails (λ c. attribute (f (if_in arena.new c))) result (prompt_line f (lexemes_of tokens.now)) }
    ensures held { IfOk result (IfNodeExists arena.new) }
{
    if tokens.is_empty() {
        return Err(TreeKind::Malformed);
    }
    if !is_quoted(&tokens[0]) {
        return Err(TreeKind::Malformed);
    }
    optional_if(arena, tokens, 1)
}

/// Reads the tokens after a type: nothing, or a prompt with maybe a condition, `[Q [if E]]`.
fn typed_attribute(
    arena: &mut Arena,
    kind: Kind,
    tokens: &[Token<'_>],
) -> Result<ReadAttribute, TreeKind>
    ensures grows { Grows arena.old arena.new }
    ensures gives { ReturnsOrFails (λ a. attribute (attribute_in arena.new a)) result (type_line kind (lexemes_of tokens.now)) }
    ensures held { IfOk result (AttributeNodesExist arena.new) }
{
    if tokens.is_empty() {
        return Ok(Attribute::Typed(kind));
    }
    Ok(Attribute::TypedPrompt(kind, prompt(arena, tokens)?))
}

/// Reads the value of a default and maybe a condition, `E [if E]`. The constant `m` in the value stays `m`.
#[inline(always)]
fn default_attribute(arena: &mut Arena, tokens: &[Token<'_>]) -> Result<ReadDefault, TreeKind>
    ensures grows { Grows arena.old arena.new }
    ensures gives { (f : DefinedValued → DefinedAttribute) → ReturnsOrFails (λ d. attribute (f (default_in arena.new d))) result (default_line f (lexemes_of tokens.now)) }
    ensures held { IfOk result (DefaultNodesExist arena.new) }
{
    let (value, next) = match arena.parse_expr(tokens, 0, false) {
        Ok(read) => read,
        Err(fault) => return Err(tree_kind_of(fault.kind)),
    };
    let condition = optional_if(arena, tokens, next)?;
    Ok(DefaultAttribute {
        value,
        single: next == 1,
        condition,
        from_environment: false,
    })
}

/// Reads a word and a condition up to the end of the tokens.
fn condition_after_word(
    arena: &mut Arena,
    word: &str,
    tokens: &[Token<'_>],
) -> Result<ExprId, TreeKind>
    ensures grows { Grows arena.old arena.new }
    ensures gives { (f : Expr → DefinedAttribute) → ReturnsOrFails (λ id. attribute (f (node_expr arena.new id))) result (condition_line word.now f (lexemes_of tokens.now)) }
    ensures held { IfOk result (NodeExists arena.new) }
{
    if tokens.is_empty() {
        return Err(TreeKind::Malformed);
    }
    if !is_the_word(word, &tokens[0]) {
        return Err(TreeKind::Malformed);
    }
    last_condition(arena, tokens, 1)
}

/// Reads the tokens after `select` or `imply`: the name of a symbol and maybe a condition, `NAME [if E]`.
fn target_attribute(arena: &mut Arena, tokens: &[Token<'_>]) -> Result<ReadTarget, TreeKind>
    ensures grows { Grows arena.old arena.new }
    ensures gives { (f : DefinedAimed → DefinedAttribute) → ReturnsOrFails (λ s. attribute (f (target_in arena.new s))) result (target_line f (lexemes_of tokens.now)) }
    ensures held { IfOk result (TargetNodesExist arena.new) }
{
    if tokens.is_empty() {
        return Err(TreeKind::Malformed);
    }
    if !is_name(&tokens[0]) {
        return Err(TreeKind::Malformed);
    }
    let condition = optional_if(arena, tokens, 1)?;
    match arena.intern(tokens[0].text) {
        Ok(name) => Ok(TargetAttribute { name, condition }),
        Err(_) => Err(TreeKind::OutOfMemory),
    }
}

/// Reads an attribute: by its keyword, what may follow the word that begins it.
pub(crate) fn attribute_of(
    arena: &mut Arena,
    keyword: Keyword,
    tokens: &[Token<'_>],
) -> Result<ReadAttribute, TreeKind>
    requires keyword { begins_head keyword ≡ false }
    ensures grows { Grows arena.old arena.new }
    ensures gives { ReturnsOrFails (λ a. attribute (attribute_in arena.new a)) result (statement_of keyword (lexemes_of tokens.now)) }
    ensures held { IfOk result (AttributeNodesExist arena.new) }
{
    match keyword {
        Keyword::Type(kind) => typed_attribute(arena, kind, tokens),
        Keyword::DefaultType(kind) => Ok(Attribute::TypedDefault(
            kind,
            default_attribute(arena, tokens)?,
        )),
        Keyword::Prompt => Ok(Attribute::Prompt(prompt(arena, tokens)?)),
        Keyword::Default => Ok(Attribute::Default(default_attribute(arena, tokens)?)),
        Keyword::Depends => Ok(Attribute::Depends(condition_after_word(arena, "on", tokens)?)),
        Keyword::Select => Ok(Attribute::Select(target_attribute(arena, tokens)?)),
        Keyword::Imply => Ok(Attribute::Imply(target_attribute(arena, tokens)?)),
        Keyword::Range => Ok(Attribute::Range(range_attribute(arena, tokens)?)),
        Keyword::Visible => Ok(Attribute::Visible(condition_after_word(arena, "if", tokens)?)),
        Keyword::Help => no_more(Attribute::Help, tokens),
        Keyword::Modules => no_more(Attribute::Modules, tokens),
        Keyword::Option => option_attribute(arena, tokens),
        Keyword::Optional => no_more(Attribute::Optional, tokens),
        _ => Err(TreeKind::Malformed),
    }
}
