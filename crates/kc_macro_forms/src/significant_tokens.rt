//! The tokens of a line without trivia.
ghost use Rattle.std.specs.Prelude.{◌≡◌, ◌≤◌, [], ◌∷◌, length, IfSome, IfNone};
ghost use Rattle.kc_macro_forms.specs.between.WrittenTokens.{token_of};
ghost use Rattle.kc_macro_forms.specs.checker.SignificantTokens.{trivia_count, significant_tokens, is_empty_line};

use super::token_sorts::is_trivia;
use super::written_tokens::WrittenToken;

/// How many tokens of trivia (white, comments and tokens with an empty value) come before the first other token of a line.
pub(crate) fn trivia_count(tokens: &[WrittenToken]) -> usize
    ensures value { result ≡ trivia_count tokens.now }
    ensures within { result ≤ length tokens.now }
{
    'tokens: for i in 0..tokens.len() {
        if !is_trivia(&tokens[i]) {
            return i;
        }
    }
    tokens.len()
}

/// The first token of a line that is no trivia, and the tokens after it; `None` if all are trivia.
pub(crate) fn next_significant(tokens: &[WrittenToken]) -> Option<(&WrittenToken, &[WrittenToken])>
    ensures some { IfSome result (λ r. significant_tokens tokens.now ≡ token_of r.0.now ∷ significant_tokens r.1.now) }
    ensures none { IfNone result (significant_tokens tokens.now ≡ []) }
{
    let place = trivia_count(tokens);
    if place >= tokens.len() {
        return None;
    }
    Some((&tokens[place], &tokens[place + 1..]))
}

/// Whether all tokens of a line are trivia: white, comments and tokens with an empty value.
pub(crate) fn is_empty_line(tokens: &[WrittenToken]) -> bool
    ensures { result ≡ is_empty_line (significant_tokens tokens.now) }
{
    next_significant(tokens).is_none()
}
