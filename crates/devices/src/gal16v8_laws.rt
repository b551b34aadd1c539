//! Laws of the GAL16V8, as the contracts of a call that does nothing.

ghost use Rattle.devices.specs.Prelude.{ShowsEach};
ghost use Rattle.devices.specs.Gal16V8Tables.{gal16v8c, gal16v8r4, gal16v8r6, gal16v8r8};
ghost use Rattle.devices.specs.MixedCells.{c_shows, mixed, r4_shows, r6_shows, r8_shows};
ghost use Rattle.devices.specs.SimpleCells.{simple_design, simple_shows, two_driven};

/// What cells of both kinds and both polarities show in each mode, and that a row that is switched off
/// is never true. Does nothing.
pub fn mixed_cells()
    ensures c { ShowsEach gal16v8c (mixed gal16v8c) c_shows }
    ensures r4 { ShowsEach gal16v8r4 (mixed gal16v8r4) r4_shows }
    ensures r6 { ShowsEach gal16v8r6 (mixed gal16v8r6) r6_shows }
    ensures r8 { ShowsEach gal16v8r8 (mixed gal16v8r8) r8_shows }
{}

/// What cells show in simple mode: two that drive, and one that never does. Does nothing.
pub fn simple_cells()
    ensures { ShowsEach two_driven simple_design simple_shows }
{}
