ghost use Rattle.std.specs.Prelude.{◌≡◌, is_none, position};
ghost use Rattle.std.specs.Option.{option_or};
ghost use Rattle.layers.specs.Tables.{lists, used};

use crate::table::Entry;

// The place that lists the cell.
pub(crate) fn place_of<X: Copy>(places: &[Option<Entry<X>>], cell: usize) -> Option<usize>
    ensures { result ≡ position (λ o. lists o cell) places.now }
{
    places
        .iter()
        .position(|place| matches!(place, Some(entry) if entry.cell == cell))
}

// A place that lists no cell.
fn room<X: Copy>(places: &[Option<Entry<X>>]) -> Option<usize>
    ensures { result ≡ position (λ o. is_none o) places.now }
{
    places.iter().position(|place| place.is_none())
}

// Where the cell is to be listed: in the place that it has, or in an empty one.
pub(crate) fn place_for<X: Copy>(places: &[Option<Entry<X>>], cell: usize) -> Option<usize>
    ensures { result ≡ option_or (position (λ o. lists o cell) places.now) (position (λ o. is_none o) places.now) }
{
    place_of(places, cell).or_else(|| room(places))
}

// How many cells are listed.
#[tactic(auto, using(crate::proofs::Reading::counted))]
pub(crate) fn listed_in<X: Copy>(places: &[Option<Entry<X>>]) -> usize
    ensures { result ≡ used places.now }
{
    places.iter().filter(|place| place.is_some()).count()
}
