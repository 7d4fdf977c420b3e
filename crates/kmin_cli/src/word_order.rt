//! Puts the command before the options that come before it.
ghost use Rattle.std.specs.Prelude.{◌≡◌, ◌<◌, ◌++◌, false, length, map, option_map, drop, take, List, ℕ, IfOk, IfSome};
ghost use Rattle.std.specs.Borrow.{Bor};
ghost use Rattle.kmin_cli.specs.WordOrder.{command_first, command_place, moved_to_front};

use kmin_commands::{gives_option, names_command, takes_next};
use std::alloc::{AllocError, Global};

/// The words with the command first, if only options are before it, and these right after it. Other words stay as they are, and
/// so does the order of the options.
pub fn command_first<'a>(alloc: Global, words: &[&'a str]) -> Result<Vec<&'a str>, AllocError>
    ensures { IfOk result (λ ordered. map (λ (word : Bor (List ℕ)). word.now) ordered.items ≡ command_first (map (λ (word : Bor (List ℕ)). word.now) words.now)) }
{
    match command_place(words) {
        Some(place) => moved_to_front(alloc, words, place),
        None => Vec::from_slice(alloc, words),
    }
}

/// The place of the command, if only options are before it.
fn command_place(words: &[&str]) -> Option<usize>
    ensures place { result ≡ command_place false (map (λ (word : Bor (List ℕ)). word.now) words.now) }
    ensures there { IfSome result (λ place. place < length words.now) }
{
    let mut is_value = false;
    for (place, word) in words.iter().enumerate() {
        if is_value {
            is_value = false;
        } else if names_command(word) {
            return Some(place);
        } else if gives_option(word) {
            is_value = takes_next(word);
        } else {
            return None;
        }
    }
    None
}

/// The words with the one at a place in front of the others.
fn moved_to_front<'a>(
    alloc: Global,
    words: &[&'a str],
    place: usize,
) -> Result<Vec<&'a str>, AllocError>
    requires there { place < length words.now }
    ensures value { IfOk result (λ moved. map (λ (word : Bor (List ℕ)). word.now) moved.items ≡ moved_to_front place (map (λ (word : Bor (List ℕ)). word.now) words.now)) }
{
    let mut moved = Vec::from_slice(alloc, &words[place..place + 1])?;
    moved.extend_from_slice(&words[..place])?;
    moved.extend_from_slice(&words[place + 1..])?;
    Ok(moved)
}
