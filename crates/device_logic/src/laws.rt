//! Laws of devices with their fuses, as the contracts of calls that do nothing.

ghost use Rattle.std.specs.Prelude.{Bool, List, length};
ghost use Rattle.device_logic.specs.Prelude.{IsOneLayer, IsDevice, device_logic, Table, IsDetermined, HasNoLoop};
ghost use Rattle.device_logic.specs.CellReads.{cell_reads};
ghost use Rattle.device_logic.specs.ResetPaths.{HasNoResetPath};

/// A device none of whose cells reads itself through others, and whose reset depends on no register,
/// settles, steps and runs in exactly one way, from every state. Does nothing.
pub fn no_loop()
    ensures { (t : Table) (fs : List Bool) → IsDevice t
        → HasNoLoop (length t.cells) (cell_reads t fs) → HasNoResetPath t fs
        → IsDetermined (device_logic t fs) }
{}

/// A device whose cells wait for no other settles, steps and runs in exactly one way, from every
/// state. Does nothing.
pub fn one_layer()
    ensures { (t : Table) (fs : List Bool) → IsOneLayer t fs → IsDetermined (device_logic t fs) }
{}
