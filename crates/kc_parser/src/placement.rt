//! Checks before the form of a line.
ghost use Rattle.std.specs.Prelude.{◌≡◌, List};
ghost use Rattle.kc_tokens.specs.Token.{lexemes_of};
ghost use Rattle.kc_tree_model.specs.Blocks.{Group as Placed};
ghost use Rattle.kc_tree_model.specs.Limits.{FileSource};
ghost use Rattle.kc_tree_model.specs.Placement.{is_allowed as allowed, is_stray_end, is_choice_open};
ghost use Rattle.kc_tree_model.specs.Statements.{same_block as same};
ghost use Rattle.kc_parser.specs.checker.LinePlacement.{place_of_keyword, block_ended, entry_kept, fault_before};
ghost use Rattle.kc_parser.specs.checker.StateViews.{Describes};

use super::listing::{Group, GroupHead};
use super::open_blocks::{in_choice, innermost, open_block_count};
use super::state::ReaderState;
use kc_statements::{allows_attribute, is_left_out};
use kc_tokens::{Language, Token};
use kc_tree_model::{Block, Keyword, OpenEntry, TreeKind};

/// The place in a file where a line is allowed, by its keyword.
#[derive(Clone, Copy)]
pub(crate) enum AllowedPlace {
    Anywhere,
    OutsideChoices,
    OutsideBlocks,
    InEntry,
}

/// Where a line with this keyword is allowed.
fn place_of(keyword: Keyword) -> AllowedPlace
    ensures { result ≡ place_of_keyword keyword }
{
    match keyword {
        Keyword::Config | Keyword::If | Keyword::Comment | Keyword::Source =>
            AllowedPlace::Anywhere,
        Keyword::End(_) => AllowedPlace::Anywhere,
        Keyword::Choice | Keyword::Menu => AllowedPlace::OutsideChoices,
        Keyword::Mainmenu => AllowedPlace::OutsideBlocks,
        _ => AllowedPlace::InEntry,
    }
}

/// The block that a line with this keyword ends.
fn ended_block(keyword: Keyword) -> Option<Block>
    ensures { result ≡ block_ended keyword }
{
    match keyword {
        Keyword::End(block) => Some(block),
        _ => None,
    }
}

fn same_block(a: Block, b: Block) -> bool
    ensures { result ≡ same a b }
{
    match a {
        Block::Menu => matches!(b, Block::Menu),
        Block::If => matches!(b, Block::If),
        Block::Choice => matches!(b, Block::Choice),
    }
}

/// The entry that is open after some groups, if one is.
fn open_entry(groups: &[Group]) -> Option<OpenEntry>
    ensures { result ≡ entry_kept groups.now }
{
    let Some(group) = groups.last() else {
        return None;
    };
    match group.head {
        GroupHead::Config(_) => Some(OpenEntry::Config),
        GroupHead::Choice => Some(OpenEntry::Choice),
        GroupHead::Menu(_) => Some(OpenEntry::Menu),
        GroupHead::Comment(_) => Some(OpenEntry::Comment),
        _ => None,
    }
}

fn is_choice(entry: Option<OpenEntry>) -> bool
    ensures { result ≡ is_choice_open entry }
{
    matches!(entry, Some(OpenEntry::Choice))
}

/// Whether a line with this keyword is allowed here.
fn is_allowed(read: &ReaderState, keyword: Keyword) -> bool
    ensures { (r : FileSource) (before : List Placed) → Describes r read.now before → result ≡ allowed before keyword }
{
    match place_of(keyword) {
        AllowedPlace::Anywhere => true,
        AllowedPlace::OutsideChoices => !in_choice(&read.stack),
        AllowedPlace::OutsideBlocks => open_block_count(&read.stack) == 0,
        AllowedPlace::InEntry => match open_entry(&read.listing.groups) {
            Some(entry) => allows_attribute(entry, keyword),
            None => false,
        },
    }
}

/// Whether a line with this keyword ends a block that isn't the innermost of its file.
fn is_stray(read: &ReaderState, keyword: Keyword) -> bool
    ensures { (r : FileSource) (before : List Placed) → Describes r read.now before → result ≡ is_stray_end before keyword }
{
    let Some(block) = ended_block(keyword) else {
        return false;
    };
    match innermost(&read.stack) {
        Some((open_block, _)) => !same_block(block, open_block),
        None => true,
    }
}

/// The fault of a line, by its keyword and the tokens after it, that comes before the faults of the statement's form:
/// the statement is left out of the language, is misplaced, or ends no open block.
pub(crate) fn fault_before_form(
    read: &ReaderState,
    language: Language,
    keyword: Keyword,
    tokens: &[Token<'_>],
) -> Option<TreeKind>
    ensures { (r : FileSource) (before : List Placed) → Describes r read.now before → result ≡ fault_before language before keyword (lexemes_of tokens.now) }
{
    let entry = open_entry(&read.listing.groups);
    if is_left_out(language, keyword, tokens, is_choice(entry)) {
        return Some(TreeKind::LeftOut);
    }
    if !is_allowed(read, keyword) {
        return Some(TreeKind::Misplaced);
    }
    if is_stray(read, keyword) {
        return Some(TreeKind::StrayEnd);
    }
    None
}
