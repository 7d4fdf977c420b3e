//! The first words of lines, the blocks and the entries that statements open.
ghost use Rattle.std.specs.Prelude.{◌≡◌, bytes_eq};
ghost use Rattle.kc_tree_model.specs.Keywords.{keyword_in_table, keywords};
ghost use Rattle.kc_tree_model.specs.checker.WordLengths.{of_length};

use kc_value::Kind;

/// A block that a statement opens and an end statement closes ("Menu structure"): a menu, an `if` or a choice.
#[derive(Clone, Copy, Debug, PartialEq, Eq)]
pub enum Block {
    Menu,
    If,
    Choice,
}

/// What the first word of a logical line begins: a statement or an attribute. `menuconfig` is read as `config`.
#[derive(Clone, Copy, Debug, PartialEq, Eq)]
pub enum Keyword {
    Config,
    Choice,
    Menu,
    If,
    Comment,
    Source,
    Mainmenu,
    /// The word `endmenu`, `endif` or `endchoice`, by the block that it ends.
    End(Block),
    /// The word `bool`, `tristate`, `string`, `int` or `hex`, by its type.
    Type(Kind),
    /// The word `def_bool`, `def_tristate`, `def_string`, `def_int` or `def_hex`, by its type.
    DefaultType(Kind),
    Prompt,
    Default,
    Depends,
    Select,
    Imply,
    Range,
    Visible,
    Help,
    Modules,
    Option,
    Optional,
    /// The word `rsource`, `osource`, `orsource` or `transitional`: Kconfig forms that this project leaves out.
    LeftOut,
}

/// The sort of an entry to which the attributes after it belong ("Kconfig syntax": config, choice, menu, comment).
#[derive(Clone, Copy, Debug, PartialEq, Eq)]
pub enum OpenEntry {
    Config,
    Choice,
    Menu,
    Comment,
}

/// The keyword that a word is, if it is one; looked up by the word's length first.
#[inline]
pub fn keyword_named(word: &[u8]) -> Option<Keyword>
    ensures { result ≡ keyword_in_table keywords word.now }
{
    match word.len() {
        2 => keyword_of_two(word),
        3 => keyword_of_three(word),
        4 => keyword_of_four(word),
        5 => keyword_of_five(word),
        6 => keyword_of_six(word),
        7 => keyword_of_seven(word),
        8 => keyword_of_eight(word),
        9 => keyword_of_nine(word),
        10 => keyword_of_ten(word),
        12 => keyword_of_twelve(word),
        _ => None,
    }
}

/// Whether a word is `keyword`, of at most twelve letters. It is compiled into its callers as tests of single bytes, where `==` of slices
/// would be a call for each keyword that begins as the word does.
#[inline]
fn is_text(keyword: &[u8], word: &[u8]) -> bool
    ensures { result ≡ bytes_eq keyword.now word.now }
{
    match (keyword, word) {
        ([], []) => true,
        ([first, keyword @ ..], [byte, word @ ..]) => first == byte && is_text(keyword, word),
        _ => false,
    }
}

/// The keywords of two letters.
fn keyword_of_two(word: &[u8]) -> Option<Keyword>
    ensures value { result ≡ keyword_in_table (of_length 2) word.now }
{
    if is_text(b"if", word) {
        return Some(Keyword::If);
    }
    None
}

/// The keywords of three letters.
fn keyword_of_three(word: &[u8]) -> Option<Keyword>
    ensures value { result ≡ keyword_in_table (of_length 3) word.now }
{
    if is_text(b"int", word) {
        return Some(Keyword::Type(Kind::Int));
    }
    if is_text(b"hex", word) {
        return Some(Keyword::Type(Kind::Hex));
    }
    None
}

/// The keywords of four letters.
fn keyword_of_four(word: &[u8]) -> Option<Keyword>
    ensures value { result ≡ keyword_in_table (of_length 4) word.now }
{
    if is_text(b"bool", word) {
        return Some(Keyword::Type(Kind::Bool));
    }
    if is_text(b"help", word) {
        return Some(Keyword::Help);
    }
    if is_text(b"menu", word) {
        return Some(Keyword::Menu);
    }
    None
}

/// The keywords of five letters.
fn keyword_of_five(word: &[u8]) -> Option<Keyword>
    ensures value { result ≡ keyword_in_table (of_length 5) word.now }
{
    if is_text(b"endif", word) {
        return Some(Keyword::End(Block::If));
    }
    if is_text(b"imply", word) {
        return Some(Keyword::Imply);
    }
    if is_text(b"range", word) {
        return Some(Keyword::Range);
    }
    None
}

/// The keywords of six letters.
fn keyword_of_six(word: &[u8]) -> Option<Keyword>
    ensures value { result ≡ keyword_in_table (of_length 6) word.now }
{
    if is_text(b"config", word) {
        return Some(Keyword::Config);
    }
    if is_text(b"select", word) {
        return Some(Keyword::Select);
    }
    if is_text(b"source", word) {
        return Some(Keyword::Source);
    }
    if is_text(b"string", word) {
        return Some(Keyword::Type(Kind::Text));
    }
    if is_text(b"prompt", word) {
        return Some(Keyword::Prompt);
    }
    if is_text(b"choice", word) {
        return Some(Keyword::Choice);
    }
    if is_text(b"option", word) {
        return Some(Keyword::Option);
    }
    None
}

/// The keywords of seven letters.
fn keyword_of_seven(word: &[u8]) -> Option<Keyword>
    ensures value { result ≡ keyword_in_table (of_length 7) word.now }
{
    if is_text(b"depends", word) {
        return Some(Keyword::Depends);
    }
    if is_text(b"default", word) {
        return Some(Keyword::Default);
    }
    if is_text(b"comment", word) {
        return Some(Keyword::Comment);
    }
    if is_text(b"endmenu", word) {
        return Some(Keyword::End(Block::Menu));
    }
    if is_text(b"visible", word) {
        return Some(Keyword::Visible);
    }
    if is_text(b"modules", word) {
        return Some(Keyword::Modules);
    }
    if is_text(b"def_int", word) {
        return Some(Keyword::DefaultType(Kind::Int));
    }
    if is_text(b"def_hex", word) {
        return Some(Keyword::DefaultType(Kind::Hex));
    }
    if is_text(b"rsource", word) {
        return Some(Keyword::LeftOut);
    }
    if is_text(b"osource", word) {
        return Some(Keyword::LeftOut);
    }
    None
}

/// The keywords of eight letters.
fn keyword_of_eight(word: &[u8]) -> Option<Keyword>
    ensures value { result ≡ keyword_in_table (of_length 8) word.now }
{
    if is_text(b"tristate", word) {
        return Some(Keyword::Type(Kind::Tristate));
    }
    if is_text(b"def_bool", word) {
        return Some(Keyword::DefaultType(Kind::Bool));
    }
    if is_text(b"mainmenu", word) {
        return Some(Keyword::Mainmenu);
    }
    if is_text(b"optional", word) {
        return Some(Keyword::Optional);
    }
    if is_text(b"orsource", word) {
        return Some(Keyword::LeftOut);
    }
    None
}

/// The keywords of nine letters.
fn keyword_of_nine(word: &[u8]) -> Option<Keyword>
    ensures value { result ≡ keyword_in_table (of_length 9) word.now }
{
    if is_text(b"endchoice", word) {
        return Some(Keyword::End(Block::Choice));
    }
    None
}

/// The keywords of ten letters.
fn keyword_of_ten(word: &[u8]) -> Option<Keyword>
    ensures value { result ≡ keyword_in_table (of_length 10) word.now }
{
    if is_text(b"menuconfig", word) {
        return Some(Keyword::Config);
    }
    if is_text(b"---help---", word) {
        return Some(Keyword::Help);
    }
    if is_text(b"def_string", word) {
        return Some(Keyword::DefaultType(Kind::Text));
    }
    None
}

/// The keywords of twelve letters.
fn keyword_of_twelve(word: &[u8]) -> Option<Keyword>
    ensures value { result ≡ keyword_in_table (of_length 12) word.now }
{
    if is_text(b"def_tristate", word) {
        return Some(Keyword::DefaultType(Kind::Tristate));
    }
    if is_text(b"transitional", word) {
        return Some(Keyword::LeftOut);
    }
    None
}
