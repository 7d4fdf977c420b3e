//! Words that give a line its form.
ghost use Rattle.std.specs.Prelude.{◌≡◌, ◌∷◌, [], codes};
ghost use Rattle.kc_tree_model.specs.Limits.{is_in_list};
ghost use Rattle.kc_macros_model.specs.LineForms.{prompt_words, source_words, help_words};

use super::keywords::is_among;

/// Words that a prompt or a title follows.
static PROMPT_WORDS: [&[u8]; 9] = [
    b"bool",
    b"tristate",
    b"string",
    b"hex",
    b"int",
    b"prompt",
    b"menu",
    b"comment",
    b"mainmenu",
];

/// Words that a path of files to be read follows.
static SOURCE_WORDS: [&[u8]; 4] = [b"source", b"rsource", b"osource", b"orsource"];

/// Words after which a help text begins.
static HELP_WORDS: [&[u8]; 2] = [b"help", b"---help---"];

/// Words that aren't a prompt where they follow a type or `prompt`.
static CONDITION_WORDS: [&[u8]; 2] = [b"if", b"on"];

/// Whether a prompt or a title follows a word, as it does for `bool` and `menu`.
pub fn is_prompt_word(word: &[u8]) -> bool
    ensures { result ≡ is_in_list word.now prompt_words }
{
    is_among(&PROMPT_WORDS, word)
}

/// Whether the path of files to be read follows a word: `source`, `rsource`, `osource` or `orsource`.
pub fn is_source_word(word: &[u8]) -> bool
    ensures { result ≡ is_in_list word.now source_words }
{
    is_among(&SOURCE_WORDS, word)
}

/// Whether a help text begins after a word: `help` or `---help---`.
pub fn is_help_word(word: &[u8]) -> bool
    ensures { result ≡ is_in_list word.now help_words }
{
    is_among(&HELP_WORDS, word)
}

/// Whether a word isn't a prompt where it follows a type or `prompt`: `if` or `on`.
pub(crate) fn is_condition_word(word: &[u8]) -> bool
    ensures { result ≡ is_in_list word.now (codes "if" ∷ codes "on" ∷ []) }
{
    is_among(&CONDITION_WORDS, word)
}
