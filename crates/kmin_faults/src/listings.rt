//! The statements of the texts of a tree.
ghost use Rattle.std.specs.Prelude.{◌≡◌, IfOk};
ghost use Rattle.kc_parser.specs.between.ListingView.{RepresentsListing};
ghost use Rattle.kc_tree_model.specs.TreeReading.{reading};

use kc_checks::is_out_of_memory;
use kc_parser::{Listing, read_files};
use kc_tree::Texts;
use std::alloc::{AllocError, Global};

/// The statements of the texts that are read from the path `first` on, up to their first fault. An `Err` means out of memory.
pub(crate) fn listing_of(alloc: Global, texts: &Texts, first: &str) -> Result<Listing, AllocError>
    ensures { IfOk result (λ listing. RepresentsListing listing (reading texts.now first.now).read) }
{
    let (listing, fault) = read_files(alloc, texts, first);
    if is_out_of_memory(fault) {
        return Err(AllocError);
    }
    Ok(listing)
}
