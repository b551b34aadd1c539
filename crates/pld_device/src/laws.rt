//! Laws of all devices, as the contracts of calls that do nothing.

ghost use Rattle.std.specs.Prelude.{◌≡◌, ◌↔◌, Bool, true, false, List};
ghost use Rattle.pld_device.specs.LawTests.Lists.{apart};
ghost use Rattle.pld_device.specs.LawTests.Cells.{is_same_carry};
ghost use Rattle.pld_device.specs.Laws.{IsDevice};
ghost use Rattle.pld_device.specs.Pins.{HasOwnPins, PairsApart};
ghost use Rattle.pld_device.specs.RowLaws.{AreToldByReads, CarriesAll, HasPairs};
ghost use Rattle.pld_device.specs.RowUses.{HasRowsApart};
ghost use Rattle.pld_device.specs.Rows.{row_is_true};
ghost use Rattle.pld_device.specs.SampleTable.{twice_carried};
ghost use Rattle.pld_device.specs.Table.{Table};
ghost use Rattle.pld_device.specs.LawTests.{Passes};

/// A row is true exactly if each of its connected columns carries 1, and what it reads gives its
/// value. Does nothing.
pub fn rows()
    ensures columns { (fs cs : List Bool) → (row_is_true fs cs ≡ true) ↔ CarriesAll fs cs }
    ensures reads { (t : Table) → HasPairs t → AreToldByReads t }
{}

/// A table that passes the tests keeps the laws, and what the laws give of rows and pins. Does
/// nothing.
pub fn tables()
    ensures tests { (t : Table) → Passes t → IsDevice t }
    ensures rows { (t : Table) → IsDevice t → HasRowsApart t }
    ensures pins { (t : Table) → IsDevice t → HasOwnPins t }
    ensures pairs { (t : Table) → IsDevice t → PairsApart t }
    ensures columns { (t : Table) → IsDevice t → HasPairs t }

    // A table with one pin on two pairs fails its test, and is no device's.
    ensures twice_tested { apart is_same_carry twice_carried.pairs ≡ false }
    ensures twice_refused { IsDevice twice_carried → ⊥ }
{}
