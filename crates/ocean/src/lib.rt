// The ocean tide of a model sheet (002; document 01, "Model sheet and ocean tide"), added to two lists.

#![tactic(auto)]

ghost use Rattle.ocean.specs.Inner.{Wide, PlacesAdded, TideAdded};

use arguments::Phases;
use choices::Frame;
use sheet::Accepted;
use tides::Tides;

// The corrections of all places, added to both lists.
fn add_places(c: &mut [i64], s: &mut [i64], tides: &Tides<'_>, frame: Frame)
    requires { Wide tides.now.accepted.sheet.bytes.now c.old × Wide tides.now.accepted.sheet.bytes.now s.old }
    ensures { PlacesAdded tides.now.accepted.sheet.bytes.now frame tides.now.factors c.old s.old c.new s.new }
{
    for j in 0..tides.accepted.sheet.layout.places {
        let at = places::index_of(&tides.accepted, j);
        let by = places::correction_of(tides, j, frame);
        field::correct(c, at, by.c);
        field::correct(s, at, by.s);
    }
}

// The ocean tide of an accepted sheet, added to lists that have its places: each tide's factors once, then each place once.
pub fn add_tide(c: &mut [i64], s: &mut [i64], accepted: &Accepted<'_>, phases: Phases, frame: Frame)
    requires { Wide accepted.now.sheet.bytes.now c.old × Wide accepted.now.sheet.bytes.now s.old }
    ensures { TideAdded accepted.now.sheet.bytes.now phases frame c.old s.old c.new s.new }
{
    add_places(c, s, &Tides::of(accepted, phases), frame);
}
