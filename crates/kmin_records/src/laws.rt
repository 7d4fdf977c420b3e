//! Laws of records.
ghost use Rattle.std.specs.Prelude.{◌≡◌, ◌≤◌, ℕ, List, IsUtf8};
ghost use Rattle.json.specs.Json.{Members, object, string, max_depth};
ghost use Rattle.json.specs.Tree.{depth};
ghost use Rattle.kmin_records.specs.JsonValues.{text_json};
ghost use Rattle.kmin_messages.specs.SmallNumbers.{MembersAreSmall};
ghost use Rattle.kmin_records.specs.Records.{IsRecord, record_line, compare_members, compare_record, tidy_members, tidy_record};

/// A record whose numbers are small, and which doesn't nest deeper than a reader takes, is one object in one line, which reads back as
/// its members.
pub fn records_read_back()
    ensures { (members : Members) → MembersAreSmall members → depth (object members) ≤ max_depth → IsRecord members (record_line members) }
{}

/// The record of a symbol whose values differ is one object in one line, which reads back as its name and its values.
pub fn compare_records_read_back()
    ensures { (name left right : List ℕ) → IsRecord (compare_members name left right) (compare_record name left right) }
{}

/// The record of a file whose minimal file differs is one object in one line, which reads back as its path, how they differ, the lines
/// that go and those that come.
pub fn tidy_records_read_back()
    ensures { (path bytes least : List ℕ) → IsRecord (tidy_members path bytes least) (tidy_record path bytes least) }
{}

/// Bytes that are UTF-8 are the text that a record has of them.
pub fn lossless_texts()
    ensures { (bytes : List ℕ) → IsUtf8 bytes → text_json bytes ≡ string bytes }
{}
