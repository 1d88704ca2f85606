// What is asked of the elements of a grid.
ghost use Rattle.std.specs.Prelude.{◌≡◌, length, option_copied, slice_index_or};
ghost use Rattle.std.specs.Option.{option_map_or};
ghost use Rattle.plans.specs.Drawings.{blank, fan_of, place_at};
ghost use Rattle.plans.specs.Fitting.{list_on};
ghost use Rattle.plans.specs.Holdings.{lists_of, elements_of};

use crate::modes::{Mode, Side};
use crate::tables::{Element, Table};
use grids::{Movers, Place, Vector};

impl Element {
    // The vectors of one side.
    fn vectors(&self, side: Side) -> &[Vector]
        ensures { result.now ≡ list_on side (lists_of self.now) }
    {
        match side {
            Side::First => self.first.items.as_slice(),
            Side::Second => self.second.items.as_slice(),
        }
    }

    fn fan(&self) -> usize
        ensures { result ≡ fan_of (lists_of self.now) }
    {
        self.first.items.len() + self.second.items.len()
    }

    // The place with that number: the first list's places come first.
    fn place(&self, mode: Mode, p: usize) -> Option<Place>
        ensures { result ≡ place_at mode (lists_of self.now) p }
    {
        let firsts = self.vectors(Side::First);
        if let Some(&vector) = firsts.get(p) {
            return Some(Place {
                movers: mode.first_movers(),
                vector,
            });
        }
        let &vector = self.vectors(Side::Second).get(p - firsts.len())?;
        Some(Place {
            movers: Movers::Odd,
            vector,
        })
    }
}

impl Table {
    // How many elements there are.
    pub(crate) fn count(&self) -> usize
        ensures { result ≡ length (elements_of self.now) }
    {
        self.elements.len()
    }

    // The element with that number, if there is one.
    fn get(&self, e: usize) -> Option<&Element>
        ensures { option_map_or lists_of (option_copied result) blank ≡ slice_index_or (elements_of self.now) e blank }
    {
        self.elements.get(e)
    }

    pub(crate) fn vectors(&self, e: usize, side: Side) -> &[Vector]
        ensures { result.now ≡ list_on side (slice_index_or (elements_of self.now) e blank) }
    {
        self.get(e).map_or(&[], |element| element.vectors(side))
    }

    pub(crate) fn fan(&self, e: usize) -> usize
        ensures { result ≡ fan_of (slice_index_or (elements_of self.now) e blank) }
    {
        self.get(e).map_or(0, Element::fan)
    }

    pub(crate) fn place(&self, mode: Mode, e: usize, p: usize) -> Option<Place>
        ensures { result ≡ place_at mode (slice_index_or (elements_of self.now) e blank) p }
    {
        self.get(e)?.place(mode, p)
    }
}
