//! The prefix of symbol names in a configuration file.
ghost use Rattle.std.specs.Prelude.{◌≡◌, ◌↔◌, ◌≤◌, [], codes, take, IsTrue, IsSome, IfSome};
ghost use Rattle.kc_value.specs.declared.limits.TheConstants.{MAX_PREFIX_BYTES};
ghost use Rattle.kc_dotconfig_model.specs.PrefixGrammar.{is_prefix, is_name_prefix};

use kc_tokens::are_name_bytes;
use kc_value::MAX_PREFIX_BYTES;

/// What comes before the names in configuration files: a prefix, of 1 to `MAX_PREFIX_BYTES` letters, digits and `_`, or nothing,
/// where names are there as in the tree.
///
/// It has no model, to which the bytes past its length would be lost, and `Copy` needs them: public clauses cite `prefix_bytes`.
#[derive(Clone, Copy)]
pub struct Prefix {
    bytes: [u8; MAX_PREFIX_BYTES],
    len: usize,
    ghost short: { len ≤ MAX_PREFIX_BYTES },
    ghost valid: { IsTrue (is_name_prefix (take len bytes)) },
}

/// Whether bytes can be a prefix.
fn is_valid(text: &[u8]) -> bool
    ensures { result ≡ is_prefix text.now }
{
    !text.is_empty() && text.len() <= MAX_PREFIX_BYTES && are_name_bytes(text)
}

impl Prefix {
    ghost use Rattle.kc_dotconfig_model.specs.between.Prefixes.{prefix_bytes};

    /// The prefix of Linux's configuration files, `CONFIG_`.
    pub fn plain() -> Prefix
        ensures { prefix_bytes result ≡ codes "CONFIG_" }
    {
        let mut bytes = [0u8; MAX_PREFIX_BYTES];
        bytes[..7].copy_from_slice(b"CONFIG_");
        Prefix { bytes, len: 7 }
    }

    /// No prefix: names are in configuration files as in the tree.
    pub fn none() -> Prefix
        ensures { prefix_bytes result ≡ [] }
    {
        Prefix {
            bytes: [0u8; MAX_PREFIX_BYTES],
            len: 0,
        }
    }

    /// The prefix whose bytes are `text`; `None` if it is empty, longer than `MAX_PREFIX_BYTES`, or has another byte than
    /// letters, digits and `_`.
    pub fn of(text: &[u8]) -> Option<Prefix>
        ensures valid { IsSome result ↔ IsTrue (is_prefix text.now) }
        ensures text { IfSome result (λ prefix. prefix_bytes prefix ≡ text.now) }
    {
        if !is_valid(text) {
            return None;
        }
        let mut bytes = [0u8; MAX_PREFIX_BYTES];
        bytes[..text.len()].copy_from_slice(text);
        Some(Prefix {
            bytes,
            len: text.len(),
        })
    }

    /// The bytes of the prefix; none where there is no prefix.
    pub fn as_bytes(&self) -> &[u8]
        ensures { result.now ≡ prefix_bytes self.now }
    {
        &self.bytes[..self.len]
    }
}
