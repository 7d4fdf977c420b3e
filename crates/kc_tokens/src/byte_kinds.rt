//! The bytes of white space, words and names.
ghost use Rattle.std.specs.Prelude.{◌≡◌, ◌+◌, ◌<◌, ◌≤◌, ◌-◌, true, length, get_or, take_while, slice_index};
ghost use Rattle.std.specs.List.{list_all, suffix_len};
ghost use Rattle.kc_tokens.specs.Token.{is_white_byte, is_word_byte, is_name_byte};

/// The bytes of words, each at its own place; a `!` at the place of any other byte.
static WORD_BYTES: [u8; 256] = *b"\
    !!!!!!!!!!!!!!!!!!!!!!!!!!!!!!!!\
    !!!!!!!!!!!!!-./0123456789!!!!!!\
    !ABCDEFGHIJKLMNOPQRSTUVWXYZ!!!!_\
    !abcdefghijklmnopqrstuvwxyz!!!!!\
    !!!!!!!!!!!!!!!!!!!!!!!!!!!!!!!!\
    !!!!!!!!!!!!!!!!!!!!!!!!!!!!!!!!\
    !!!!!!!!!!!!!!!!!!!!!!!!!!!!!!!!\
    !!!!!!!!!!!!!!!!!!!!!!!!!!!!!!!!";

/// Whether a byte is white: a tab, a vertical tab, a form feed, a carriage return or a space.
pub fn is_white(byte: u8) -> bool
    ensures { result ≡ is_white_byte byte }
{
    matches!(byte, 0x09 | 0x0B | 0x0C | 0x0D | 0x20)
}

/// Whether a byte is one of words: a letter, a digit, `_`, `-`, `.` or `/`.
pub fn is_word(byte: u8) -> bool
    ensures { result ≡ is_word_byte byte }
{
    WORD_BYTES[byte as usize] != b'!'
}

/// Whether a byte is one of names: a letter, a digit or `_`. Of the table's bytes these alone come after `/`.
fn is_name_byte(byte: u8) -> bool
    ensures { result ≡ is_name_byte byte }
{
    WORD_BYTES[byte as usize] > b'/'
}

/// Whether each byte is a letter, a digit or `_`.
pub fn are_name_bytes(bytes: &[u8]) -> bool
    ensures { result ≡ list_all is_name_byte bytes.now }
{
    bytes.iter().all(|byte| is_name_byte(*byte))
}

/// How many bytes at the front are of a word.
pub fn word_len(bytes: &[u8]) -> usize
    ensures count { result ≡ length (take_while is_word_byte bytes.now) }
    ensures within { result ≤ length bytes.now }
    ensures run { 0 < length bytes.now → is_word_byte (slice_index bytes.now 0) ≡ true → 0 < result }
    ensures ends { 0 < result → slice_index bytes.now (result - 1) < 128 }
{
    for i in 0..bytes.len() {
        if !is_word(bytes[i]) {
            return i;
        }
    }
    bytes.len()
}

/// Where the white bytes at the end of a text begin.
pub fn white_end(text: &[u8]) -> usize
    ensures place { result + suffix_len is_white_byte text.now ≡ length text.now }
    ensures white { result < length text.now → is_white_byte (get_or text.now result 0) ≡ true }
{
    let mut end = text.len();
    while end > 0 && is_white(text[end - 1]) {
        end -= 1;
    }
    end
}
