//! The statements of lines, by their keywords and the tokens after their first words.
ghost use Rattle.std.specs.Prelude.{IfOk};
ghost use Rattle.kc_expr.specs.between.Arena.{Grows};
ghost use Rattle.kc_tokens.specs.Token.{lexemes_of};
ghost use Rattle.kc_tree_model.specs.Forms.{statement_of as defined_statement};
ghost use Rattle.kc_statements.specs.between.StatementViews.{ReturnsOrFails, StatementNodesExist, statement_in};

use super::attributes::attribute_of;
use super::condition::{last_condition, no_more};
use super::heads::{config_line, mainmenu_line, source_line, title};
use super::statement::ReadStatement;
use kc_expr::Arena;
use kc_tokens::Token;
use kc_tree_model::{Head, Keyword, Statement, TreeKind};
use std::alloc::Global;

/// The statement of a line, by the keyword of its first token and the tokens after that ("Kconfig syntax", "Menu attributes").
///
/// An `Err` is `Malformed` if the tokens don't have the form of the keyword, or if the keyword is `LeftOut`; the fault of an
/// expression, such as `TooDeep` for a symbol under more than 64 `!` and parentheses; or `OutOfMemory`. Expressions that were
/// read stay in the arena also after an `Err`.
pub fn statement_of<'a>(
    alloc: Global,
    arena: &mut Arena,
    keyword: Keyword,
    tokens: &[Token<'a>],
) -> Result<ReadStatement<'a>, TreeKind>
    ensures grows { Grows arena.old arena.new }
    ensures gives { ReturnsOrFails (statement_in arena.new) result (defined_statement keyword (lexemes_of tokens.now)) }
    ensures held { IfOk result (StatementNodesExist arena.new) }
{
    match keyword {
        Keyword::Config => config_line(tokens),
        Keyword::Choice => no_more(Statement::Head(Head::Choice), tokens),
        Keyword::Menu => Ok(Statement::Head(Head::Menu(title(alloc, tokens)?))),
        Keyword::If => Ok(Statement::Head(Head::Condition(last_condition(arena, tokens, 0)?))),
        Keyword::Comment => Ok(Statement::Head(Head::Comment(title(alloc, tokens)?))),
        Keyword::Source => source_line(alloc, tokens),
        Keyword::Mainmenu => mainmenu_line(tokens),
        Keyword::End(block) => no_more(Statement::Head(Head::Ends(block)), tokens),
        _ => Ok(Statement::Attribute(attribute_of(arena, keyword, tokens)?)),
    }
}
