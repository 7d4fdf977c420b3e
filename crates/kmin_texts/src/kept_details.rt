//! Details of messages that borrow nothing.
ghost use Rattle.std.specs.Prelude.{◌≡◌, IfOk};
ghost use Rattle.std.specs.Str.Lossy.{utf8_lossy};
ghost use Rattle.kmin_texts.specs.LineDetails.{is_one_of, no_detail, of_limit, words};
ghost use Rattle.kmin_details.specs.between.Details.{detail_names, detail_text};
ghost use Rattle.kmin_texts.specs.between.KeptDetails.{MayBe, hidden_kept, kept_detail};

use kmin_details::{Detail, Unreadable};
use kmin_faults::Limit;
use std::alloc::{AllocError, Global};

/// A detail that borrows nothing.
#[derive(Drop)]
pub(crate) enum KeptDetail {
    Nothing,
    /// Words of a line that may be shown.
    Words(String),
    /// The path of a sourced file, and why it can't be read.
    Missing { path: Vec<u8>, why: Unreadable },
    Unread(Unreadable),
    /// The place of a first definition.
    First { path: Vec<u8>, line: u32 },
    Limit(Limit),
}

impl KeptDetail {
    /// The detail of a message.
    pub(crate) fn as_detail(&self) -> Detail<'_>
        ensures text { detail_text result ≡ (kept_detail self.now).text }
        ensures names { detail_names result ≡ (kept_detail self.now).names }
    {
        match self {
            KeptDetail::Nothing => Detail::Nothing,
            KeptDetail::Words(words) => Detail::Words(words.as_str()),
            KeptDetail::Missing { path, why } => Detail::Missing {
                path: path.as_slice(),
                why: *why,
            },
            KeptDetail::Unread(why) => Detail::Unread(*why),
            KeptDetail::First { path, line } => Detail::First {
                path: path.as_slice(),
                line: *line,
            },
            KeptDetail::Limit(limit) => Detail::Limit(*limit),
        }
    }
}

/// The detail of a limit, if there is one.
pub(crate) fn limit_detail(limit: Option<Limit>) -> KeptDetail
    ensures { MayBe (is_one_of (of_limit limit)) (kept_detail result) }
{
    match limit {
        Some(limit) => KeptDetail::Limit(limit),
        None => KeptDetail::Nothing,
    }
}

/// A path as a detail.
pub(crate) fn path_detail(alloc: Global, path: &[u8]) -> Result<KeptDetail, AllocError>
    ensures shown { IfOk result (λ detail. kept_detail detail ≡ words (utf8_lossy path.now)) }
    ensures hidden { IfOk result (λ detail. hidden_kept detail ≡ no_detail) }
{
    let words = String::from_utf8_lossy(alloc, path)?;
    Ok(KeptDetail::Words(words))
}

/// A detail where no words of the line may be shown: of a path only why it can't be read.
pub(crate) fn hidden(detail: KeptDetail) -> KeptDetail
    ensures { kept_detail result ≡ hidden_kept detail }
{
    match detail {
        KeptDetail::Missing { why, .. } | KeptDetail::Unread(why) => KeptDetail::Unread(why),
        _ => KeptDetail::Nothing,
    }
}
