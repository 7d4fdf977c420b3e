//! The forms of statements that close the open entry: what may follow their first words ("Kconfig syntax").
ghost use Rattle.std.specs.Prelude.{◌≡◌, ℕ, List, IfOk, IfErr};
ghost use Rattle.kc_expr.specs.between.Arena.{Exprs};
ghost use Rattle.kc_tokens.specs.QuotedTexts.{quoted_text as text_meant};
ghost use Rattle.kc_tokens.specs.Token.{lexemes_of, lexeme_of};
ghost use Rattle.kc_tree_model.specs.declared.fault.TreeKind.TheVariants.{OutOfMemory};
ghost use Rattle.kc_tree_model.specs.Forms.{config_line, titled_line, source_line, path_of};
ghost use Rattle.kc_tree_model.specs.Statements.{Head as DefinedHead};
ghost use Rattle.kc_tree_model.specs.declared.statement.Head.TheVariants.{Mainmenu as mainmenu};
ghost use Rattle.kc_tree_model.specs.declared.statement.Statement.TheVariants.{Head as head};
ghost use Rattle.kc_statements.specs.checker.Titles.{is_one_quoted};
ghost use Rattle.kc_statements.specs.between.StatementViews.{ReturnsOrFails, StatementNodesExist, statement_in};

use super::statement::ReadStatement;
use super::token::{is_name, is_quoted, is_word};
use kc_tokens::{Token, quoted_text};
use kc_tree_model::{Head, Statement, TreeKind};
use kc_value::Text;
use std::alloc::{AllocError, Global};

/// Reads the tokens after `config`: the name of a symbol alone.
pub(crate) fn config_line<'a>(tokens: &[Token<'a>]) -> Result<ReadStatement<'a>, TreeKind>
    ensures gives { (e : Exprs) → ReturnsOrFails (statement_in e) result (config_line (lexemes_of tokens.now)) }
    ensures held { (e : Exprs) → IfOk result (StatementNodesExist e) }
{
    if tokens.len() != 1 {
        return Err(TreeKind::Malformed);
    }
    if !is_name(&tokens[0]) {
        return Err(TreeKind::Malformed);
    }
    Ok(Statement::Head(Head::Config(tokens[0].text)))
}

/// Whether the tokens are one quoted text.
fn is_title(tokens: &[Token<'_>]) -> bool
    ensures { result ≡ is_one_quoted (lexemes_of tokens.now) }
{
    tokens.len() == 1 && is_quoted(&tokens[0])
}

/// The text that a quoted token represents.
fn unquoted(alloc: Global, text: &str) -> Result<Text, TreeKind>
    ensures ok { IfOk result (λ t. t ≡ text_meant text.now) }
    ensures memory { IfErr result (λ k. k ≡ OutOfMemory) }
{
    match quoted_text(alloc, text) {
        Ok(text) => Ok(Text::from_string(text)),
        Err(_) => Err(TreeKind::OutOfMemory),
    }
}

/// Reads the tokens after `menu` or `comment`: a title, one quoted text.
pub(crate) fn title(alloc: Global, tokens: &[Token<'_>]) -> Result<Text, TreeKind>
    ensures { (f : List ℕ → DefinedHead) → ReturnsOrFails (λ t. head (f t)) result (titled_line f (lexemes_of tokens.now)) }
{
    if !is_title(tokens) {
        return Err(TreeKind::Malformed);
    }
    unquoted(alloc, tokens[0].text)
}

/// Reads the tokens after `mainmenu`: a title, one quoted text, which isn't kept.
pub(crate) fn mainmenu_line<'a>(tokens: &[Token<'_>]) -> Result<ReadStatement<'a>, TreeKind>
    ensures gives { (e : Exprs) → ReturnsOrFails (statement_in e) result (titled_line (λ _. mainmenu) (lexemes_of tokens.now)) }
    ensures held { (e : Exprs) → IfOk result (StatementNodesExist e) }
{
    if is_title(tokens) {
        Ok(Statement::Head(Head::Mainmenu))
    } else {
        Err(TreeKind::Malformed)
    }
}

/// The path that a word or a quoted text is. An `Err` means out of memory.
fn path_of(alloc: Global, token: &Token<'_>) -> Result<Option<Text>, AllocError>
    ensures { IfOk result (λ path. path ≡ path_of (lexeme_of token.now)) }
{
    if is_quoted(token) {
        let text = quoted_text(alloc, token.text)?;
        return Ok(Some(Text::from_string(text)));
    }
    if is_word(token) {
        let text = Text::copied(alloc, token.text)?;
        return Ok(Some(text));
    }
    Ok(None)
}

/// Reads the tokens after `source`: a path, one quoted text or one bare word.
pub(crate) fn source_line<'a>(
    alloc: Global,
    tokens: &[Token<'_>],
) -> Result<ReadStatement<'a>, TreeKind>
    ensures gives { (e : Exprs) → ReturnsOrFails (statement_in e) result (source_line (lexemes_of tokens.now)) }
    ensures held { (e : Exprs) → IfOk result (StatementNodesExist e) }
{
    if tokens.len() != 1 {
        return Err(TreeKind::Malformed);
    }
    match path_of(alloc, &tokens[0]) {
        Ok(Some(path)) => Ok(Statement::Head(Head::Source(path))),
        Ok(None) => Err(TreeKind::Malformed),
        Err(_) => Err(TreeKind::OutOfMemory),
    }
}
