ghost use Rattle.ports.specs.Listing.{HasOneKindEach, IsListed};

use crate::{Entry, Listing};
use src_text::Seq;

// The listing of a folder with these entries, which stand in any order and may stand twice.
pub(crate) fn listing_of(mut entries: Vec<Entry>) -> Listing
    ensures { HasOneKindEach entries.items → IsListed entries.items result }
{
    if entries.is_empty() {
        return Listing::Absent;
    }
    entries.sort_unstable();
    entries.dedup();
    Listing::Found(Seq::from_vec(entries))
}
