//! The text for a line, by the kind of its fault or notice.
ghost use Rattle.std.specs.Prelude.{◌≡◌, IfOk, string_bytes};
ghost use Rattle.kc_tokens.specs.Token.{lexemes_from};
ghost use Rattle.kc_dotconfig_model.specs.between.Prefixes.{prefix_bytes};
ghost use Rattle.kmin_details.specs.LineTexts.{tree_line_text, file_line_text};
ghost use Rattle.kmin_details.specs.between.NamedSymbols.{hidden_text, notice_text, notice_names};
ghost use Rattle.kmin_details.specs.between.Details.{detail_text, detail_names, without_words};

use crate::details::Detail;
use crate::line_words::{first_run, named_on};
use crate::tree_lines::{bad_token_text, first_token, left_out_text};
use kc_dotconfig_model::{LoadKind, NoticeKind, Prefix, trimmed, value_parts};
use kc_tokens::Language;
use kc_tree_model::TreeKind;
use std::alloc::{AllocError, Global};

/// The text for a fault of a line of a tree. Empty for a kind whose message shows nothing of the line.
pub fn tree_line_text(
    alloc: Global,
    language: Language,
    kind: TreeKind,
    line: &str,
) -> Result<String, AllocError>
    ensures { IfOk result (λ text. string_bytes text ≡ tree_line_text kind line.now (lexemes_from language 0 0 line.now)) }
{
    match kind {
        TreeKind::UnknownStatement | TreeKind::StrayEnd | TreeKind::Malformed => {
            String::from_str(alloc, first_token(alloc, language, line)?)
        }
        TreeKind::LeftOut => left_out_text(alloc, language, line),
        TreeKind::BadToken => bad_token_text(alloc, language, line),
        _ => Ok(String::new(alloc)),
    }
}

/// The text for a fault of a line of a configuration file.
pub fn file_line_text(alloc: Global, kind: LoadKind, line: &[u8]) -> Result<String, AllocError>
    ensures { IfOk result (λ text. string_bytes text ≡ file_line_text kind line.now) }
{
    match kind {
        LoadKind::Malformed => first_run(alloc, line),
        _ => Ok(String::new(alloc)),
    }
}

/// The detail of a notice of a line, without a name that is near.
pub fn notice_detail<'a>(kind: NoticeKind, prefix: &Prefix, line: &'a str) -> Detail<'a>
    ensures text { detail_text result ≡ notice_text kind (prefix_bytes prefix.now) line.now }
    ensures names { detail_names result ≡ notice_names kind (prefix_bytes prefix.now) line.now }
    ensures hidden { detail_text (without_words result) ≡ hidden_text kind (prefix_bytes prefix.now) line.now }
    ensures hidden_names { detail_names (without_words result) ≡ notice_names kind (prefix_bytes prefix.now) line.now }
{
    match kind {
        NoticeKind::UnknownSymbol => match named_on(prefix, line) {
            Some(name) => Detail::Unknown { name, near: None },
            None => Detail::Nothing,
        },
        NoticeKind::NotOfType => match value_parts(prefix, trimmed(line)) {
            Some((name, value)) => Detail::Value { name, value },
            None => Detail::Nothing,
        },
        _ => Detail::Nothing,
    }
}
