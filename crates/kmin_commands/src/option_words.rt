//! The words of the command line that name a command or give an option.
ghost use Rattle.std.specs.Prelude.{◌≡◌, ℕ, List, not, bytes_eq};
ghost use Rattle.std.specs.Borrow.{Bor};
ghost use Rattle.std.specs.List.{list_any};
ghost use Rattle.clap.specs.Words.{App};
ghost use Rattle.kmin_commands.specs.Declarations.{IsProgram};
ghost use Rattle.kmin_commands.specs.OptionWords.{command_words, gives_option, has_value, is_among, is_flag, name_part, names_command, option_words, takes_next};

/// The words that name a command.
static COMMANDS: [&str; 8] = [
    "min", "full", "missed", "check", "explain", "compare", "tidy", "wants",
];

/// The words that name an option with a value.
static VALUED: [&str; 14] = [
    "--root",
    "--tree",
    "--language",
    "--prefix",
    "--strings",
    "--imply",
    "--answers",
    "--define",
    "--env",
    "--output",
    "-o",
    "--from",
    "--messages",
    "--format",
];

/// The words that name an option without a value.
static FLAGS: [&str; 13] = [
    "--no-prefix",
    "--strict",
    "--expand",
    "--drop",
    "--exit-code",
    "--long",
    "--by-cause",
    "--every",
    "--deep",
    "--all",
    "--write",
    "-z",
    "--unused",
];

/// Whether a word is one of these.
fn is_among(words: &[&str], word: &str) -> bool
    ensures { result ≡ list_any (λ (other : Bor (List ℕ)). bytes_eq other.now word.now) words.now }
{
    words.iter().any(|other| *other == word)
}

/// Whether a word names a command.
pub fn names_command(word: &str) -> bool
    ensures value { result ≡ names_command word.now }
    ensures declared { (program : App) → IsProgram program → result ≡ is_among (command_words program) word.now }
{
    is_among(&COMMANDS, word)
}

/// Whether a word is an option whose value is the next word.
pub fn takes_next(word: &str) -> bool
    ensures value { result ≡ takes_next word.now }
    ensures declared { (program : App) → IsProgram program → result ≡ is_among (option_words has_value program) word.now }
{
    is_among(&VALUED, word)
}

/// Whether a word is an option without a value.
fn is_flag(word: &str) -> bool
    ensures value { result ≡ is_flag word.now }
    ensures declared { (program : App) → IsProgram program → result ≡ is_among (option_words (λ rule. not (has_value rule)) program) word.now }
{
    is_among(&FLAGS, word)
}

/// Whether a word gives an option of a command: it names one, or has a value after the name, as in `--root=DIR` and `-oFILE`.
pub fn gives_option(word: &str) -> bool
    ensures { result ≡ gives_option word.now }
{
    let name = name_part(word);
    takes_next(name) || is_flag(name) || word.as_bytes().starts_with(b"-o")
}

/// A word up to its first `=`, if it has one.
fn name_part(word: &str) -> &str
    ensures { result.now ≡ name_part word.now }
{
    match word.split_once('=') {
        Some((name, _)) => name,
        None => word,
    }
}
