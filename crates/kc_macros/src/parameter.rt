//! Parameters of functions, which are numbers.
ghost use Rattle.std.specs.Prelude.{◌≡◌, ◌⊎◌, ◌<◌, ◌≤◌, ◌+◌, ◌-◌, ◌*◌, ◌^◌, true, false, IfSome, IfNone, option_map};
ghost use Rattle.std.specs.List.{list_all};
ghost use Rattle.std.specs.Char.{is_digit, digit_value};
ghost use Rattle.std.specs.Str.Parse.{digits_value};
ghost use Rattle.kc_macros_model.specs.Variables.{is_number, argument_of};

use super::bytes::Bytes;

/// Whether a byte is a decimal digit.
fn is_digit_byte(byte: u8) -> bool
    ensures { result ≡ is_digit byte 10 }
{
    byte.is_ascii_digit()
}

/// Whether each byte is a decimal digit.
fn are_digits(text: &[u8]) -> bool
    ensures { result ≡ list_all (λ c. is_digit c 10) text.now }
{
    text.iter().all(|&byte| is_digit_byte(byte))
}

/// Whether a text is a number: decimal digits, at least one.
pub(crate) fn is_number(text: &[u8]) -> bool
    ensures { result ≡ is_number text.now }
{
    !text.is_empty() && are_digits(text)
}

/// A number with a digit more; none where the byte is no digit or the number has no room.
fn with_digit(number: usize, byte: u8) -> Option<usize>
    ensures digit { IfSome result (λ n. is_digit byte 10 ≡ true) }
    ensures value { IfSome result (λ n. n ≡ number * 10 + digit_value byte) }
    ensures none { IfNone result ((is_digit byte 10 ≡ false) ⊎ (2 ^ 64 ≤ number * 10 + digit_value byte)) }
{
    if !is_digit_byte(byte) {
        return None;
    }
    number.checked_mul(10)?.checked_add((byte - b'0') as usize)
}

/// The number of a text of digits, if it is one from 1 to a limit.
fn number_within(text: &[u8], limit: usize) -> Option<usize>
    ensures digits { IfSome result (λ n. is_number text.now ≡ true) }
    ensures value { IfSome result (λ n. digits_value 10 text.now ≡ n) }
    ensures within { IfSome result (λ n. (0 < n) × (n ≤ limit)) }
    ensures none { IfNone result ((is_number text.now ≡ false) ⊎ ((digits_value 10 text.now ≡ 0) ⊎ (limit < digits_value 10 text.now))) }
{
    let mut number = 0;
    'digits: for i in 0..text.len() {
        let next = with_digit(number, text[i])?;
        if next > limit {
            return None;
        }
        number = next;
    }
    if number == 0 { None } else { Some(number) }
}

/// The argument that a reference such as `$(1)` means, if there is one; arguments are counted from 1, and `inside` are the bytes
/// between the parentheses.
pub(crate) fn argument_of<'a>(args: &'a [Option<Bytes>], inside: &[u8]) -> Option<&'a Option<Bytes>>
    ensures { option_map (λ a. a.now) result ≡ argument_of args.now inside.now }
{
    let number = number_within(inside, args.len())?;
    args.get(number - 1)
}
