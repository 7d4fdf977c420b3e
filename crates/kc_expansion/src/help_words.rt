//! Lines that begin help texts.
ghost use Rattle.std.specs.Prelude.{◌≡◌, ◌||◌, bytes_eq, codes, length, take_while};
ghost use Rattle.kc_tokens.specs.Token.{is_white_byte};
ghost use Rattle.kc_tree_model.specs.LogicalLines.{begins_help};
ghost use Rattle.kc_expansion.specs.checker.HelpWords.{is_end};

use kc_tokens::{is_white, word_len};

/// How many white bytes a text begins with.
fn white_length(text: &[u8]) -> usize
    ensures { result ≡ length (take_while is_white_byte text.now) }
{
    text.iter().take_while(|byte| is_white(**byte)).count()
}

/// Whether a word begins a help text.
fn is_help_word(word: &[u8]) -> bool
    ensures { result ≡ (bytes_eq word.now (codes "help") || bytes_eq word.now (codes "---help---")) }
{
    word == b"help".as_slice() || word == b"---help---".as_slice()
}

/// Whether the rest of a line has nothing but white bytes and a comment.
fn is_end(text: &[u8]) -> bool
    ensures { result ≡ is_end text.now }
{
    match text[white_length(text)..].first() {
        Some(byte) => *byte == b'#',
        None => true,
    }
}

/// Whether a help text follows a line: apart from white space and a comment, the line is `help` or `---help---`.
pub(crate) fn begins_help(text: &[u8]) -> bool
    ensures { result ≡ begins_help text.now }
{
    let line = &text[white_length(text)..];
    let word = word_len(line);
    is_help_word(&line[..word]) && is_end(&line[word..])
}
