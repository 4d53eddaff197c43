// A reader that carries the area and the place of an entry in it: thin calls over find and value.
#![tactic(auto)]

ghost use Rattle.std.specs.Prelude.{◌≡◌};
ghost use Rattle.property_area.specs.Find.{found_answer, find_steps};
ghost use Rattle.property_area.specs.Lookup.{lookup_steps};
ghost use Rattle.property_area.specs.Value.{part_answer, value_steps};

use layout::{Refusal, Span};
use property_area::Found;

// The place is an entry's offset, as find gives it.
#[derive(Clone, Copy)]
pub struct AreaReader<'a> {
    pub area: &'a [u8],
    pub at: u32,
}

impl<'a> AreaReader<'a> {
    // A reader of an area, at a place.
    pub fn over(area: &'a [u8], at: u32) -> AreaReader<'a>
        ensures { (result.area ≡ area.entry) × (result.at ≡ at) }
    {
        AreaReader { area, at }
    }

    // The entry of a name in the reader's area.
    pub fn find_through(self, name: &[u8]) -> Result<Found, Refusal>
        ensures { found_answer result ≡ find_steps self.entry.area.now name.now }
    {
        property_area::find(self.area, name)
    }

    // The value of the entry at the reader's place.
    pub fn value_here(self) -> Result<Span, Refusal>
        ensures { part_answer result ≡ value_steps self.entry.area.now self.entry.at }
    {
        property_area::value(self.area, self.at)
    }
}

// What a lookup of a name shows: one reader finds its entry, another its value.
pub fn lookup(area: &[u8], name: &[u8]) -> Result<Span, Refusal>
    ensures { part_answer result ≡ lookup_steps area.now name.now }
{
    let found = AreaReader::over(area, 0).find_through(name)?;
    AreaReader::over(area, found.offset).value_here()
}
