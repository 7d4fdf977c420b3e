//! The paths of `source` lines.
ghost use Rattle.std.specs.Prelude.{◌≡◌, ◌==◌, ◌||◌, ◌∷◌, ℕ, [], codes, Ok, IfOk, option_map, string_bytes};
ghost use Rattle.std.specs.Global.{Vec};
ghost use Rattle.kc_tokens.specs.Token.{lexeme_of, lexemes_from, lexemes_of};
ghost use Rattle.kc_tree_model.specs.Limits.{is_in_list};
ghost use Rattle.kc_macros_model.specs.LineForms.{source_words, sort_of_source};
ghost use Rattle.kc_macros_model.specs.TreeExpansion.{path_meant};
ghost use Rattle.kmin_faults.specs.SourcedPaths.{is_open, path_of_tokens, path_text, sourced_path};

use kc_files::path_meant;
use kc_macros::is_text;
use kc_tokens::{ExprKind, Language, Token, TokenKind, push_tokens, quoted_text};
use std::alloc::{AllocError, Global};

/// The path, below the folder of a tree, that a line of its file at the path `file` sources by `source`, `rsource`, `osource` or
/// `orsource`; `None` on another line, and where the line has a macro. An `Err` means out of memory.
pub fn sourced_path(
    alloc: Global,
    language: Language,
    file: &[u8],
    line: &str,
) -> Result<Option<Vec<u8>>, AllocError>
    ensures { IfOk result (λ path. option_map (λ (bytes : Vec ℕ). bytes.items) path ≡ sourced_path file.now (lexemes_from language 0 0 line.now)) }
{
    let mut found = Vec::new(alloc);
    match push_tokens(language, line, &mut found) {
        Ok(()) => path_of_tokens(alloc, file, &found),
        Err(fault) => match fault.kind {
            ExprKind::OutOfMemory => Err(AllocError),
            _ => Ok(None),
        },
    }
}

/// Whether a path is a pattern, or has a macro.
pub fn is_open(path: &[u8]) -> bool
    ensures { result ≡ is_open path.now }
{
    path.iter().any(|byte| is_open_byte(*byte))
}

/// Whether a path with this byte is a pattern, or has a macro.
fn is_open_byte(byte: u8) -> bool
    ensures { result ≡ (byte == 42 || (byte == 63) || (byte == 91) || (byte == 36)) }
{
    byte == b'*' || byte == b'?' || byte == b'[' || byte == b'$'
}

/// The path that the tokens of a line of a file source.
fn path_of_tokens(
    alloc: Global,
    file: &[u8],
    tokens: &[Token<'_>],
) -> Result<Option<Vec<u8>>, AllocError>
    ensures { IfOk result (λ path. option_map (λ (bytes : Vec ℕ). bytes.items) path ≡ path_of_tokens file.now (lexemes_of tokens.now)) }
{
    match tokens {
        [word, path, ..] => path_by(alloc, file, word, path),
        _ => Ok(None),
    }
}

/// The path that a line of a file sources, by its first two tokens.
fn path_by(
    alloc: Global,
    file: &[u8],
    word: &Token<'_>,
    path: &Token<'_>,
) -> Result<Option<Vec<u8>>, AllocError>
    ensures { IfOk result (λ whole. option_map (λ (bytes : Vec ℕ). bytes.items) whole ≡ path_of_tokens file.now (lexeme_of word.now ∷ lexeme_of path.now ∷ [])) }
{
    if is_source_word(word.text.as_bytes()) {
        let whole = path_after(alloc, file, word, path)?;
        return Ok(Some(whole));
    }
    Ok(None)
}

/// The path that a line of a file sources, by the word with which it begins, and the token after that.
fn path_after(
    alloc: Global,
    file: &[u8],
    word: &Token<'_>,
    path: &Token<'_>,
) -> Result<Vec<u8>, AllocError>
    ensures { IfOk result (λ whole. whole.items ≡ path_meant (sort_of_source (lexeme_of word.now).text) file.now (path_text (lexeme_of path.now))) }
{
    let text = path_text(alloc, path)?;
    let relative = is_relative_word(word.text.as_bytes());
    path_meant(alloc, relative, file, text.as_bytes())
}

/// Whether a line that begins with this word sources files.
pub(crate) fn is_source_word(word: &[u8]) -> bool
    ensures { result ≡ is_in_list word.now source_words }
{
    is_text(b"source", word)
        || is_text(b"rsource", word)
        || is_text(b"osource", word)
        || is_text(b"orsource", word)
}

/// Whether the path after this word is in the folder of the file.
fn is_relative_word(word: &[u8]) -> bool
    ensures { result ≡ is_in_list word.now (codes "rsource" ∷ codes "orsource" ∷ []) }
{
    is_text(b"rsource", word) || is_text(b"orsource", word)
}

/// The text of a path: a word as it stands, a quoted text without its quotes.
fn path_text(alloc: Global, token: &Token<'_>) -> Result<String, AllocError>
    ensures { IfOk result (λ text. string_bytes text ≡ path_text (lexeme_of token.now)) }
{
    match token.kind {
        TokenKind::Quoted => quoted_text(alloc, token.text),
        _ => String::from_str(alloc, token.text),
    }
}
