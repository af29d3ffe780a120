// Pointers that name records in the records' own order.
ghost use Rattle.std.specs.Prelude.{◌≡◌, IfSome};
ghost use Rattle.ged_link.specs.Indexes.{found_in};
ghost use Rattle.ged_link.specs.Places.{ArePlaces};
ghost use Rattle.ged_link.specs.inner.Places.{IsNamedAt};
ghost use Rattle.ged_link.specs.inner.Resolving.{AreKnown};

use crate::index::RecordPlace;
use crate::places::place_of;
use crate::pointers::Records;
use ged_tree::Forest;

/// Whether pointers name the records one behind the other, as in a family whose children stand side by side, and which record is named
/// next if they go on so. That one is told by its identifier where it stands, which takes less time than to look the name up among all.
/// No answer rests on it.
#[derive(Clone, Copy)]
pub(crate) struct NamingOrder {
    /// The number of the record behind the one that was named last.
    next: usize,
    /// Whether the one that was named last stands behind the one that was named before it.
    holds: bool,
}

impl NamingOrder {
    /// No record was named yet.
    pub(crate) fn new() -> NamingOrder {
        NamingOrder {
            next: 0,
            holds: false,
        }
    }

    /// Takes note of the number of a record that a pointer names.
    #[inline(always)]
    pub(crate) fn note(&mut self, number: usize) {
        self.holds = number == self.next;
        self.next = number.saturating_add(1);
    }
}

/// The greatest length of a file's identifiers, in bytes, with which pointers' names are compared. A longer one could be read anew for each
/// of very many pointers, which would take far longer than to look their names up.
pub(crate) const LONGEST_COMPARED: usize = 255;

/// Where the record stands that is named next if pointers name them in order, if it has this name.
#[inline(always)]
fn next_in_order<F: Forest>(
    forest: &F,
    records: &Records<'_>,
    order: NamingOrder,
    name: &str,
) -> Option<RecordPlace>
    requires { ArePlaces (F.trees forest.now) records.now.places.now }
    ensures { IfSome result (λ found. IsNamedAt (F.trees forest.now) found name.now) }
{
    if !order.holds || !records.are_comparable {
        return None;
    }
    let number = order.next;
    let place = place_of(records.places, number)?;
    if forest.xref(place)? == name {
        Some(RecordPlace { number, place })
    } else {
        None
    }
}

/// Where the record stands that has a name.
#[inline(always)]
pub(crate) fn find_named<F: Forest>(
    forest: &F,
    records: &Records<'_>,
    order: NamingOrder,
    name: &str,
) -> Option<RecordPlace>
    requires { AreKnown (F.trees forest.now) records.now }
    ensures { result ≡ found_in records.now.names.now name.now }
{
    match next_in_order(forest, records, order, name) {
        Some(found) => Some(found),
        None => records.names.find(name),
    }
}
