// The entries of a listing, one after another.

ghost use Rattle.laws.specs.ListingSteps.{Standing};

use listing::DIRECTORY;

// An entry of a listing.
#[derive(Clone, Copy)]
pub struct Entry<'a> {
    pub path: &'a [u8],
    pub contents: &'a [u8],
    pub directory: bool,
}

// The entries that are left of a listing whose sizes fit; the path of the next one begins at `at`.
#[derive(Drop)]
pub struct EntriesLeft<'a> {
    listing: &'a [u8],
    count: usize,
    index: usize,
    at: usize,
    ghost stands: { Standing listing.now count index at },
}

impl<'a> Iterator for EntriesLeft<'a> {
    ghost use Rattle.std.specs.Iterator.{YieldsFirstBy, item_count};
    ghost use Rattle.listing_check.specs.Meaning.{row_of, rows_left};

    type Item = Entry<'a>;

    ghost next_gives = { YieldsFirstBy row_of rows_left };

    ghost remaining = { item_count rows_left };

    fn next(&mut self) -> Option<Entry<'a>> {
        if self.index >= self.count {
            return None;
        }
        let l = self.listing;
        let k = 8 + 4 * self.index;
        let j = 8 + 4 * self.count + 4 * self.index;
        let start = self.at;
        let end = start + listing::read_number(&l[k..k + 4]);
        let c = listing::read_number(&l[j..j + 4]);
        let next = end + listing::contents_length(c);
        self.index += 1;
        self.at = next;
        Some(Entry {
            path: &l[start..end],
            contents: &l[end..next],
            directory: c == DIRECTORY,
        })
    }
}

impl<'a> EntriesLeft<'a> {
    ghost use Rattle.std.specs.Prelude.{◌≡◌, true};
    ghost use Rattle.definition.specs.Listing.{rows, sizes_fit};
    ghost use Rattle.listing_check.specs.Meaning.{rows_left};

    // All of them.
    pub(super) fn new(listing: &'a [u8]) -> Self
        requires { sizes_fit listing.now ≡ true }
        ensures { rows_left result ≡ rows listing.now }
    {
        let count = listing::read_number(listing);
        Self {
            listing,
            count,
            index: 0,
            at: 8 + 8 * count,
        }
    }
}
