//! The names, operators and texts of assignments, as lines have them.
ghost use Rattle.std.specs.Prelude.{◌≡◌, ℕ, Bool, true, IfSome, option_map};
ghost use Rattle.kc_tokens.specs.Token.{is_white_byte};
ghost use Rattle.kc_macros_model.specs.LineTokens.{line_tokens};
ghost use Rattle.kc_macros_model.specs.Assignments.{assigned, without_front, is_blank_byte, operator_at, assignment_to, assignment_at};
ghost use Rattle.kc_macro_lines.specs.checker.LineTexts.{token_view};
ghost use Rattle.kc_macro_lines.specs.checker.LineFronts.{name_token, assigned_of};

use super::line_tokens::LineToken;
use kc_answers::byte_at;
use kc_macro_forms::is_keyword;
use kc_macros_model::Operator;
use kc_tokens::is_white;

/// An assignment as a line has it: its name before expansion, its operator, and the text after the operator.
#[derive(Clone, Copy)]
pub(crate) struct FoundAssignment<'t> {
    pub(crate) name: &'t [u8],
    pub(crate) operator: Operator,
    pub(crate) text: &'t [u8],
}

/// A space or a tab.
fn is_blank(byte: u8) -> bool
    ensures { result ≡ is_blank_byte byte }
{
    byte == b' ' || byte == b'\t'
}

/// A text without the bytes at its front that pass a test.
fn without_front<F: Fn(u8) -> bool>(text: &[u8], passes: F) -> &[u8]
    requires callable { F.IsAlwaysCallable passes }
    ensures value { (test : ℕ → Bool) → ((byte : ℕ) (passed : Bool) → F.post passes byte passed → passed ≡ test byte) → result.now ≡ without_front test text.now }
{
    let mut rest = text;
    'bytes: while !rest.is_empty() {
        if !passes(rest[0]) {
            return rest;
        }
        rest = &rest[1..];
    }
    rest
}

/// A text without the white bytes at its front.
pub(crate) fn without_white_front(text: &[u8]) -> &[u8]
    ensures { result.now ≡ without_front is_white_byte text.now }
{
    without_front(text, |byte| is_white(byte))
}

/// A text without the spaces and tabs at its front.
fn without_blank_front(text: &[u8]) -> &[u8]
    ensures { result.now ≡ without_front is_blank_byte text.now }
{
    without_front(text, |byte| is_blank(byte))
}

/// The assignment operator at the front of a text, and the bytes after it.
fn operator_at(text: &[u8]) -> Option<(Operator, &[u8])>
    ensures { option_map (λ r. assigned r.0 r.1.now) result ≡ operator_at text.now }
{
    if byte_at(text, 0) == b'=' {
        return Some((Operator::Sets, &text[1..]));
    }
    if byte_at(text, 0) == b':' && byte_at(text, 1) == b'=' {
        return Some((Operator::SetsNow, &text[2..]));
    }
    if byte_at(text, 0) == b'+' && byte_at(text, 1) == b'=' {
        return Some((Operator::Appends, &text[2..]));
    }
    None
}

/// The assignment to `name`, if `name` is no keyword and an operator is at the front of `after`, white aside.
pub(crate) fn assignment_to<'t>(name: &'t [u8], after: &'t [u8]) -> Option<FoundAssignment<'t>>
    ensures value { option_map assigned_of result ≡ assignment_to (name_token name.now) (line_tokens 0 after.now) }
    ensures name { IfSome result (λ f. f.name ≡ name.entry) }
{
    let (operator, text) = operator_at(without_white_front(after))?;
    if is_keyword(name) {
        return None;
    }
    Some(FoundAssignment {
        name,
        operator,
        text: without_blank_front(text),
    })
}

/// The assignment that has `token` as its name, if `may_assign` allows one, the token is a run but no keyword, and an operator is
/// at the front of `after`, white aside.
pub(crate) fn assignment_at<'t>(
    may_assign: bool,
    token: LineToken<'t>,
    after: &'t [u8],
) -> Option<FoundAssignment<'t>>
    ensures value { option_map assigned_of result ≡ assignment_at may_assign (token_view token.entry) (line_tokens 0 after.now) }
    ensures name { IfSome result (λ f. token_view token.entry ≡ name_token f.name.now) }
    ensures may_assign { IfSome result (λ f. may_assign ≡ true) }
{
    if !may_assign {
        return None;
    }
    match token {
        LineToken::Word(name) => assignment_to(name, after),
        LineToken::Trivia(_)
        | LineToken::Quoted(_, _)
        | LineToken::Other(_)
        | LineToken::Broken(_) => None,
    }
}
