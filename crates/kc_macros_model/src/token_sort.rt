//! The sorts of tokens of expanded lines.

/// The sort of a token as the expansion writes it. Trivia is white, a comment or a token with an empty value; an unknown token
/// depends on a question without an answer, and isn't written yet.
#[derive(Clone, Copy, Debug, PartialEq, Eq)]
pub enum TokenSort {
    Trivia,
    Word,
    Quoted,
    Other,
    Unknown,
}
