// The entries of a listing of at most 1,024 whose tables lie within the bytes, by lengths that are added up unclamped.

ghost use Rattle.std.specs.Prelude.{◌≡◌, ◌+◌, ◌<◌, ◌≤◌};
ghost use Rattle.std.specs.Prelude.{IfSome, IfNone, None, length, ◌*◌};
ghost use Rattle.definition.specs.Listing.{entry_count};
ghost use Rattle.laws.specs.ListingSteps.{path_length_at, contents_mark_at};
ghost use Rattle.listing.specs.Places.{Reached};

use crate::{contents_length, number_at};

// An entry, whose path begins at `at`, or the place behind the last one.
#[derive(Clone, Copy)]
pub struct Spot<'a> {
    pub listing: &'a [u8],
    pub count: usize,
    pub index: usize,
    pub at: usize,
    ghost reached: { Reached listing.now count index at },
}

impl<'a> Spot<'a> {
    // The first entry, or the place behind none.
    pub(super) fn first(listing: &'a [u8], count: usize) -> Option<Self>
        requires { count ≡ entry_count listing.now }
        ensures { IfSome result (λ s. (s.listing.now ≡ listing.now) × (s.index ≡ 0) × (s.count ≡ count)) }
    {
        if count > 1024 || 8 + 8 * count > listing.len() {
            return None;
        }
        Some(Spot {
            listing,
            count,
            index: 0,
            at: 8 + 8 * count,
        })
    }

    // Where the path ends.
    pub(super) fn end(self) -> usize
        requires { self.index < self.count }
        ensures is { result ≡ self.entry.at + path_length_at self.entry.listing.now self.entry.index }
        ensures small { result < self.entry.at + 4294967296 }
    {
        self.at + number_at(self.listing, 8 + 4 * self.index)
    }

    // The number that the listing has for the contents. Its table is cut off first, which the loops do once: read at 8 + 4 * count + 4 * index, a
    // search in vain took a third longer.
    pub(super) fn mark(self) -> usize
        requires { self.index < self.count }
        ensures is { result ≡ contents_mark_at self.entry.listing.now self.entry.index }
        ensures small { result < 4294967296 }
    {
        let marks = &self.listing[8 + 4 * self.count..];
        number_at(marks, 4 * self.index)
    }

    // The entry behind it.
    pub(super) fn next(self) -> Self
        requires { self.index < self.count }
        ensures { (result.listing.now ≡ self.entry.listing.now) × (result.count ≡ self.entry.count) × (result.index ≡ self.entry.index + 1) }
    {
        let at = self.end() + contents_length(self.mark());
        Spot {
            listing: self.listing,
            count: self.count,
            index: self.index + 1,
            at,
        }
    }
}
