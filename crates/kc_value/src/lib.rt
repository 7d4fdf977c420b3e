//! Values of symbols, number texts and quoted texts, limits, newlines, searches of bytes, and the readers and writers that the other crates use.
#![tactic(auto)]

mod byte_search;
mod limits;
mod newlines;
mod number;
mod quoted_texts;
mod reader_bytes;
mod seed;
mod streams;
mod tri;
mod value;
mod variant_names;

pub use byte_search::{ByteTest, first_marked};
pub use limits::{
    MAX_ANSWER_BYTES, MAX_ANSWER_LINE_BYTES, MAX_ANSWER_LINES, MAX_BLOCK_BYTES, MAX_BUNDLE_BYTES,
    MAX_CHOICES, MAX_CONFIG_BLOCK_BYTES, MAX_CONFIG_BYTES, MAX_CONFIG_LINES, MAX_EXPR_DEPTH,
    MAX_FILE_BYTES, MAX_FILES, MAX_LINE_BYTES, MAX_LIST_BYTES, MAX_LISTED_NAMES, MAX_NAME_BYTES,
    MAX_NEW_NAMES, MAX_NUMBER_BYTES, MAX_OPEN_BLOCKS, MAX_OPEN_EXPANSIONS, MAX_OPEN_FILES,
    MAX_PIECES, MAX_PREFIX_BYTES, MAX_SYMBOLS, MAX_TEXT_BYTES, MAX_TREE_BYTES, MAX_VARIABLE_BYTES,
    MAX_WORK,
};
pub use newlines::has_newline;
pub use number::{hex_of, int_of, loose_number_of, number_text, number_texts_are_the_grammars};
pub use quoted_texts::{
    closing_quote, push_escaped, quoted_texts_read_back, read_quoted, unescape,
};
pub use reader_bytes::{ReadBytes, ReadEnd, read_up_to};
pub use seed::Seed;
pub use streams::{Failed, FromRead, Sink, Source, ToWrite};
pub use tri::Tri;
pub use value::{Kind, Text, Value, ValueRef};
