//! Laws of the PAL16 devices, as the contracts of calls that do nothing.

ghost use Rattle.std.specs.Prelude.{◌≡◌, ◌<◌, ◌*◌, ◌-◌, ℕ};
ghost use Rattle.devices.specs.Prelude.{ShowsEach, cell_at};
ghost use Rattle.devices.specs.CounterCells.{counter, r4_shows, r6_shows, r8_shows};
ghost use Rattle.devices.specs.Pal16Cells.{combinational_cell};
ghost use Rattle.devices.specs.Pal16L8Table.{pal16l8};
ghost use Rattle.devices.specs.Pal16RTables.{pal16r4, pal16r6, pal16r8};

/// The cells of the PAL16L8 are on pins 19 to 12 with eight rows each. Does nothing.
pub fn layout()
    ensures { (c : ℕ) → c < 8 → cell_at pal16l8 c ≡ combinational_cell (19 - c) (8 * c) }
{}

/// What the cells of a small counter show on each of the devices with registers. Does nothing.
pub fn pal16_counters()
    ensures r4 { ShowsEach pal16r4 (counter pal16r4) r4_shows }
    ensures r6 { ShowsEach pal16r6 (counter pal16r6) r6_shows }
    ensures r8 { ShowsEach pal16r8 (counter pal16r8) r8_shows }
{}
