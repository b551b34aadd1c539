//! Laws of the forms, as the contract of a call that does nothing.

ghost use Rattle.std.specs.Prelude.{◌≡◌, ℕ, Bool, List, Some, length};
ghost use Rattle.devices.specs.Atf22V10CTable.{atf22v10c};
ghost use Rattle.devices.specs.Models.{table_at};
ghost use Rattle.devices.specs.Gal22V10Table.{gal22v10};
ghost use Rattle.fuse_forms.specs.InForm.{signature_of, with_spare, without_spare};
ghost use Rattle.fuse_forms.specs.Signature.{signed};
ghost use Rattle.pld_base.specs.declared.model.Model.{Model};
ghost use Rattle.pld_device.specs.Macrocells.{device_logic};

/// What a device does, in whatever mode, depends neither on a text in its signature, nor on the last fuse of an ATF22V10C, which is a GAL22V10 with
/// that fuse more. Does nothing.
pub fn forms_behave_alike()
    ensures signed { (model : Model) (first : ℕ) (text : List ℕ) (fuses : List Bool)
        → signature_of model.name ≡ Some first → length fuses ≡ (table_at model).fuses
        → device_logic (table_at model) (signed text first fuses)
        ≡ device_logic (table_at model) fuses }
    ensures longer { (fuses : List Bool) → length fuses ≡ 5892
        → device_logic atf22v10c (with_spare fuses) ≡ device_logic gal22v10 fuses }
    ensures shorter { (fuses : List Bool) → length fuses ≡ 5893
        → device_logic gal22v10 (without_spare fuses) ≡ device_logic atf22v10c fuses }
{}
