//! Laws of the GAL22V10, as the contracts of calls that do nothing.

ghost use Rattle.std.specs.Prelude.{◌≡◌, Bool, true, false, List, [], ◌∷◌, map};
ghost use Rattle.devices.specs.Prelude.{ShowsEach};
ghost use Rattle.pld_device.specs.OpenedFuses.{opened_of};
ghost use Rattle.devices.specs.Gal22V10Table.{gal22v10};
ghost use Rattle.devices.specs.SmallCells.{counter, counter_shows, mixed, mixed_shows, all_low, is_preset, is_reset, pins_2_3_22, pins_2_4};

/// What a small counter shows: each register feeds back the complement of its Q, though the pin
/// follows Q. Does nothing.
pub fn gal22v10_counters()
    ensures shows { ShowsEach gal22v10 counter counter_shows }
    ensures opened { opened_of counter ≡ 394 }
{}

/// What cells of both kinds and polarities show, and if the one reset row and the one preset row
/// are true. Does nothing.
pub fn both_kinds()
    ensures shows { ShowsEach gal22v10 mixed mixed_shows }
    ensures resets { map (is_reset mixed) (all_low ∷ pins_2_3_22 ∷ pins_2_4 ∷ [])
        ≡ false ∷ true ∷ false ∷ [] }
    ensures presets { map (is_preset mixed) (all_low ∷ pins_2_3_22 ∷ pins_2_4 ∷ [])
        ≡ false ∷ false ∷ true ∷ [] }
{}
