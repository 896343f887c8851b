ghost use Rattle.std.specs.Prelude.{◌≡◌, ℕ, true, false, is_some, None, MatchResult};
ghost use Rattle.layers.specs.Changes.{full, Entered, Removed};
ghost use Rattle.layers.specs.Tables.{lookup, used};

use crate::scan::{listed_in, place_for, place_of};
use crate::table::{Entry, Table};
use refusal::types::TableFault;

impl<X: Copy, const N: usize> Table<X, N> {
    pub(crate) fn new() -> Table<X, N>
        ensures { ((j : ℕ) → lookup result.places j ≡ None) × (used result.places ≡ 0) }
    {
        Table {
            places: [None; N],
            listed: 0,
        }
    }

    pub(crate) fn find(&self, cell: usize) -> Option<X>
        ensures { result ≡ lookup self.now.places cell }
    {
        if self.listed == 0 {
            return None;
        }
        let place = place_of(&self.places, cell)?;
        self.places[place].map(|entry| entry.laid)
    }

    // Refused where the cell is listed.
    pub(crate) fn unlisted(&self, cell: usize) -> Result<(), TableFault>
        ensures { MatchResult result (λ _. is_some (lookup self.now.places cell) ≡ false) (λ e. (e ≡ TableFault.PinnedAlready cell) × (is_some (lookup self.now.places cell) ≡ true)) }
    {
        match self.find(cell) {
            Some(_) => Err(TableFault::PinnedAlready(cell)),
            None => Ok(()),
        }
    }

    // Lists the cell, or replaces what is laid on it.
    pub(crate) fn put(&mut self, cell: usize, laid: X) -> Result<(), TableFault>
        ensures { MatchResult result (λ _. Entered N self.old.places cell laid self.new.places) (λ e. (e ≡ TableFault.Full cell) × (full N self.old.places cell ≡ true) × (self.new.places ≡ self.old.places)) }
    {
        match place_for(&self.places, cell) {
            None => Err(TableFault::Full(cell)),
            Some(place) => {
                self.places[place] = Some(Entry { cell, laid });
                self.listed = listed_in(&self.places);
                Ok(())
            }
        }
    }

    pub(crate) fn remove(&mut self, cell: usize) -> Result<(), TableFault>
        ensures { MatchResult result (λ _. Removed self.old.places cell self.new.places) (λ e. (e ≡ TableFault.NoPin cell) × (is_some (lookup self.old.places cell) ≡ false) × (self.new.places ≡ self.old.places)) }
    {
        match place_of(&self.places, cell) {
            None => Err(TableFault::NoPin(cell)),
            Some(place) => {
                self.places[place] = None;
                self.listed = listed_in(&self.places);
                Ok(())
            }
        }
    }
}
