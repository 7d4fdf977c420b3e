//! The attributes of each group.
ghost use Rattle.std.specs.Prelude.{◌≡◌, ◌≤◌, ◌<◌, All, length, slice_range};
ghost use Rattle.kc_parser.specs.between.ListingView.{LineNodesExist};
ghost use Rattle.kc_checks.specs.between.Summaries.{attributes_end, own_lines, IsRepresented};

use kc_parser::{Group, Line, Listing};

/// The index after the last attribute line of group `i`.
pub fn end_of(groups: &[Group], lines: &[Line], i: usize) -> usize
    requires there { i < length groups.now }
    ensures value { result ≡ attributes_end groups.now lines.now i }
{
    if i + 1 < groups.len() {
        groups[i + 1].attributes
    } else {
        lines.len()
    }
}

/// The attribute lines from index `from` up to, but without, index `to`.
pub fn part(lines: &[Line], from: usize, to: usize) -> &[Line]
    requires rising { from ≤ to }
    requires within { to ≤ length lines.now }
    ensures value { result.now ≡ slice_range lines.now from to }
{
    &lines[from..to]
}

/// The attribute lines of group `i` of a listing.
pub fn lines_of(listing: &Listing, i: usize) -> &[Line]
    requires shown { IsRepresented listing.now }
    requires here { i < length listing.now.groups.items }
    ensures lines { result.now ≡ own_lines listing.now i }
    ensures held { All (LineNodesExist listing.now.names.arena) result.now }
{
    let begin = listing.groups[i].attributes;
    let end = end_of(&listing.groups, &listing.lines, i);
    part(&listing.lines, begin, end)
}
