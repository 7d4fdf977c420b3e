//! The parser of expressions.
ghost use Rattle.std.specs.Prelude.{◌≡◌, ◌↔◌, ◌≤◌, Some, length, drop, ◌&&◌, ◌||◌, ◌⊎◌, IsTrue, IfSome, IfOk, IfErr, ◌+◌, []};
ghost use Rattle.kc_tokens.specs.declared.token.TokenKind.TheVariants.{Word, Quoted, Not, Open};
ghost use Rattle.kc_expr.specs.Expr.{named};
ghost use Rattle.kc_expr.specs.Grammar.{past_depth_limit, constant_or, extent, fault_of, is_close, is_operand_kind};
ghost use Rattle.kc_expr.specs.checker.ParserResults.{first_kind, first_operand, first_relation, operand_read, factor_read, connective_kind, part_read, joined_read, read_all_tokens, IsRead, IsParsedToEnd, IsRefusedToEnd, MeetsFault};
ghost use Rattle.kc_tokens.specs.Token.{lexemes_of};

use super::node::{Connective, Node};
use super::node_store::NodeStore;
use kc_tokens::{ExprFault, ExprKind, Relop, Token, TokenKind};

/// Whether the token at an index is of this kind.
fn is_kind_at(tokens: &[Token<'_>], at: usize, kind: TokenKind) -> bool
    ensures { IsTrue result ↔ (first_kind (drop at (lexemes_of tokens.now)) ≡ Some kind) }
{
    at < tokens.len() && same_kind(tokens[at].kind, kind)
}

fn same_kind(kind: TokenKind, other: TokenKind) -> bool
    ensures { IsTrue result ↔ (kind ≡ other) }
{
    kind == other
}

/// The relation at an index, if there is one.
fn relation_at(tokens: &[Token<'_>], at: usize) -> Option<Relop>
    ensures { result ≡ first_relation (drop at (lexemes_of tokens.now)) }
{
    if at >= tokens.len() {
        return None;
    }
    match tokens[at].kind {
        TokenKind::Relation(op) => Some(op),
        _ => None,
    }
}

/// The text of the token at a place, where it is a word and the last one.
fn last_word<'a>(tokens: &[Token<'a>], at: usize) -> Option<&'a str>
    requires within { at ≤ length tokens.now }
    ensures kind { IfSome result (λ _. first_kind (drop at (lexemes_of tokens.now)) ≡ Some Word) }
    ensures operand { IfSome result (λ text. first_operand (drop at (lexemes_of tokens.now)) ≡ Some (constant_or named text.now)) }
    ensures last { IfSome result (λ _. drop (at + 1) (lexemes_of tokens.now) ≡ []) }
{
    if at + 1 != tokens.len() {
        return None;
    }
    let token = tokens[at];
    match token.kind {
        TokenKind::Word => Some(token.text),
        _ => None,
    }
}

/// The fault of a kind at a place: at the token there, and after the last one where there is none.
fn fault_at(tokens: &[Token<'_>], at: usize, kind: ExprKind) -> ExprFault
    ensures { result ≡ fault_of (lexemes_of tokens.now) (kind, drop at (lexemes_of tokens.now)) }
{
    let offset = if at < tokens.len() {
        tokens[at].start
    } else if tokens.is_empty() {
        0
    } else {
        tokens[tokens.len() - 1].end
    };
    ExprFault { offset, kind }
}

/// Whether the token at an index is a `!` or a `(`.
fn is_prefix_at(tokens: &[Token<'_>], at: usize) -> bool
    ensures { IsTrue result ↔ ((first_kind (drop at (lexemes_of tokens.now)) ≡ Some Not) ⊎ (first_kind (drop at (lexemes_of tokens.now)) ≡ Some Open)) }
{
    is_kind_at(tokens, at, TokenKind::Not) || is_kind_at(tokens, at, TokenKind::Open)
}

/// Whether the token at an index is a word or a quoted text.
fn is_symbol_at(tokens: &[Token<'_>], at: usize) -> bool
    ensures { IsTrue result ↔ ((first_kind (drop at (lexemes_of tokens.now)) ≡ Some Word) ⊎ (first_kind (drop at (lexemes_of tokens.now)) ≡ Some Quoted)) }
{
    is_kind_at(tokens, at, TokenKind::Word) || is_kind_at(tokens, at, TokenKind::Quoted)
}

/// Whether the token at an index is this connective.
fn is_connective_at(tokens: &[Token<'_>], at: usize, connective: Connective) -> bool
    ensures { IsTrue result ↔ (first_kind (drop at (lexemes_of tokens.now)) ≡ Some (connective_kind connective)) }
{
    match connective {
        Connective::And => is_kind_at(tokens, at, TokenKind::And),
        Connective::Or => is_kind_at(tokens, at, TokenKind::Or),
    }
}

/// The fault past the limit of depth: the first symbol is too deep, unless another token comes before it.
fn too_deep(tokens: &[Token<'_>], at: usize) -> ExprFault
    requires within { at ≤ length tokens.now }
    ensures fault { MeetsFault (lexemes_of tokens.now) (past_depth_limit (drop at (lexemes_of tokens.now))) result }
{
    let mut symbol = at;
    while is_prefix_at(tokens, symbol) {
        symbol += 1;
    }
    if is_symbol_at(tokens, symbol) {
        fault_at(tokens, symbol, ExprKind::TooDeep)
    } else {
        fault_at(tokens, symbol, ExprKind::Malformed)
    }
}

/// How many of the tokens the expression at their front has: those up to the first word or quoted token that directly follows an
/// operand or a `)`, else all.
pub(crate) fn extent_len(tokens: &[Token<'_>]) -> usize
    ensures count { result ≡ length (extent (lexemes_of tokens.now)) }
    ensures within { result ≤ length tokens.now }
{
    for i in 1..tokens.len() {
        if ends_between(tokens[i - 1].kind, tokens[i].kind) {
            return i;
        }
    }
    tokens.len()
}

/// Whether an expression ends between two tokens.
fn ends_between(left: TokenKind, right: TokenKind) -> bool
    ensures { result ≡ ((is_operand_kind left || is_close left) && is_operand_kind right) }
{
    matches!(left, TokenKind::Word | TokenKind::Quoted | TokenKind::Close)
        && matches!(right, TokenKind::Word | TokenKind::Quoted)
}

/// What the parser reads: tokens, with at most `depth` more `!` and parentheses around a symbol, as a condition or as they are.
#[derive(Clone, Copy)]
struct Input<'a> {
    tokens: &'a [Token<'a>],
    depth: usize,
    condition: bool,
}

/// The number of the node that was read, and the index after its last token.
type Parsed = Result<(u32, usize), ExprFault>;

impl NodeStore {
    ghost use Rattle.kc_expr.specs.checker.Store.{IsSound, Extends, HasNamesOf};

    /// Reads an operand, or a relation of two.
    fn parse_relation(&mut self, input: &Input<'_>, at: usize) -> Parsed
        requires within { at ≤ length input.now.tokens.now }
        requires sound { IsSound self.old }
        ensures { IsRead self.old self.new input.now at (λ _. operand_read) result }
    {
        let tokens = input.tokens;
        let Some(left) = self.leaf_at(tokens, at)? else {
            return Err(fault_at(tokens, at, ExprKind::Malformed));
        };
        let Some(op) = relation_at(tokens, at + 1) else {
            return Ok((self.push_alone(left, input.condition)?, at + 1));
        };
        let Some(right) = self.leaf_at(tokens, at + 2)? else {
            return Err(fault_at(tokens, at + 2, ExprKind::Malformed));
        };
        Ok((self.push(Node::Related(op, left, right))?, at + 3))
    }

    /// Reads a factor: an operand, a relation, a `!` and a factor, or an expression in parentheses.
    #[cycle(parser)]
    fn parse_factor(&mut self, input: &Input<'_>, at: usize) -> Parsed
        requires within { at ≤ length input.now.tokens.now }
        requires sound { IsSound self.old }
        ensures { IsRead self.old self.new input.now at factor_read result }
    {
        let tokens = input.tokens;
        let negated = is_kind_at(tokens, at, TokenKind::Not);
        if !negated && !is_kind_at(tokens, at, TokenKind::Open) {
            return self.parse_relation(input, at);
        }
        if input.depth == 0 {
            return Err(too_deep(tokens, at + 1));
        }
        let inside = Input {
            depth: input.depth - 1,
            ..*input
        };
        if negated {
            let (part, next) = self.parse_factor(&inside, at + 1)?;
            return Ok((self.push(Node::Negated(part))?, next));
        }
        let (id, next) = self.parse_joined(Connective::Or, &inside, at + 1)?;
        if is_kind_at(tokens, next, TokenKind::Close) {
            Ok((id, next + 1))
        } else {
            Err(fault_at(tokens, next, ExprKind::Malformed))
        }
    }

    /// Reads parts joined by a connective.
    #[cycle(parser)]
    #[inline(never)]
    fn parse_joined(&mut self, connective: Connective, input: &Input<'_>, at: usize) -> Parsed
        requires within { at ≤ length input.now.tokens.now }
        requires sound { IsSound self.old }
        ensures { IsRead self.old self.new input.now at (joined_read connective) result }
    {
        let (mut left, mut next) = self.parse_part(connective, input, at)?;
        'parts: while is_connective_at(input.tokens, next, connective) {
            let (right, after) = self.parse_part(connective, input, next + 1)?;
            left = self.push(Node::Joined(connective, left, right))?;
            next = after;
        }
        Ok((left, next))
    }

    /// Reads a part of what a connective joins: a factor by `&&`, and by `||` factors joined by `&&`.
    #[cycle(parser)]
    fn parse_part(&mut self, connective: Connective, input: &Input<'_>, at: usize) -> Parsed
        requires within { at ≤ length input.now.tokens.now }
        requires sound { IsSound self.old }
        ensures { IsRead self.old self.new input.now at (part_read connective) result }
    {
        match connective {
            Connective::And => self.parse_factor(input, at),
            Connective::Or => self.parse_joined(Connective::And, input, at),
        }
    }

    /// Reads all tokens from index `at` on as one expression, with at most `depth` `!` and parentheses around a symbol, and
    /// returns the number of its node. Most expressions are just one word.
    #[inline(always)]
    pub(crate) fn parse_to_end(
        &mut self,
        tokens: &[Token<'_>],
        at: usize,
        depth: usize,
        condition: bool,
    ) -> Result<u32, ExprFault>
        requires within { at ≤ length tokens.now }
        requires sound { IsSound self.old }
        ensures sound { IsSound self.new }
        ensures extends { Extends self.old self.new }
        ensures names { IfOk result (HasNamesOf self.old self.new) }
        ensures ok { IfOk result (IsParsedToEnd self.new condition (read_all_tokens depth (drop at (lexemes_of tokens.now)))) }
        ensures fault { IfErr result (IsRefusedToEnd (lexemes_of tokens.now) (read_all_tokens depth (drop at (lexemes_of tokens.now)))) }
    {
        if let Some(text) = last_word(tokens, at) {
            return self.parse_word(text, condition);
        }
        let input = Input {
            tokens,
            depth,
            condition,
        };
        let (id, next) = self.parse_joined(Connective::Or, &input, at)?;
        if next < tokens.len() {
            return Err(fault_at(tokens, next, ExprKind::Malformed));
        }
        Ok(id)
    }
}
