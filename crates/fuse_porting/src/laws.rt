//! Laws of fuses that are carried over, as the contracts of calls that do nothing.

ghost use Rattle.device_logic.specs.CellReads.{cell_reads};
ghost use Rattle.devices.specs.Models.{table_at};
ghost use Rattle.pld_order.specs.Graphs.{HasNoLoop};
ghost use Rattle.std.specs.Prelude.{ℕ, ◌<◌, ◌≡◌, ◌*◌, [], Bool, List, length};
ghost use Rattle.fuse_porting.specs.Prelude.{Table, IsDevice, Logic, device_logic, HasRunsOf, HasRestsOf, HasStepsOf};
ghost use Rattle.pld_base.specs.declared.device_name.DeviceName.{DeviceName};
ghost use Rattle.pld_device.specs.declared.flip.Flip.TheVariants.{Always};
ghost use Rattle.fuse_porting.specs.Pairs.{ArePair, IsPair};
ghost use Rattle.fuse_porting.specs.declared.pairs.Pair.{Pair};
ghost use Rattle.fuse_porting.specs.Polarities.{IsPortFault};
ghost use Rattle.fuse_porting.specs.declared.fault.PortFault.{PortFault};
ghost use Rattle.fuse_porting.specs.declared.fault.PortFault.TheVariants.{OutOfMemory};
ghost use Rattle.fuse_porting.specs.AllowSame.{AllowSame, FindsSame, FindsSameFirst, HasSameMismatches};
ghost use Rattle.fuse_porting.specs.SameArray.{HasSameArray, IsCarriedOver};

/// Fuses that are carried over between devices with the same array allow the same; and what allows the same has the same runs
/// and the same mismatches, and differs alike from any third. Does nothing.
pub fn ported_logics()
    ensures carried { (f t : Table) (a b : List Bool) → IsDevice f → IsDevice t → HasSameArray f t → IsCarriedOver f t a b
        → AllowSame (device_logic f a) (device_logic t b) }
    ensures reads { (f t : Table) (a b : List Bool) → IsDevice f → IsDevice t → HasSameArray f t → IsCarriedOver f t a b
        → (c d : ℕ) → c < length t.cells → cell_reads t b c d ≡ cell_reads f a c d }
    ensures no_loop { (f t : Table) (a b : List Bool) → IsDevice f → IsDevice t → HasSameArray f t → IsCarriedOver f t a b
        → HasNoLoop (length f.cells) (cell_reads f a) → HasNoLoop (length t.cells) (cell_reads t b) }
    ensures runs { (a b : Logic) → AllowSame a b → HasRunsOf a b }
    ensures rests { (a b : Logic) → AllowSame a b → HasRestsOf a b }
    ensures back { (a b : Logic) → AllowSame a b → AllowSame b a }
    ensures mismatches { (a b : Logic) → AllowSame a b → HasSameMismatches a b }
    ensures differences { (a b other : Logic) → a.cells ≡ b.cells → AllowSame b other → FindsSame a b other × FindsSameFirst b a other }
{}

/// Two devices are a pair in the modes in which they have the same array, whichever of them is the first; and these modes are the
/// only ones. Does nothing.
pub fn each_pair()
    ensures pair { (from to : DeviceName) (pair : Pair) → ArePair from to pair → IsPair (table_at pair.from) (table_at pair.to) }
    ensures mutual { (from to : DeviceName) (pair : Pair) → ArePair from to pair
        → ArePair to from (record { from = pair.to; to = pair.from }) }
    ensures only { (from to : DeviceName) (pair other : Pair) → ArePair from to pair → ArePair from to other → pair ≡ other }
    ensures back { (f t : Table) → HasSameArray f t → HasSameArray t f }
{}

/// A device that always complements is carried over without a refusal; and if its fuses are those of the array alone, they
/// are the same once they are carried back. Does nothing.
pub fn there_and_back()
    ensures never_refused { (f t : Table) (a : List Bool) → f.flip ≡ Always
        → (fault : PortFault) → IsPortFault f t a fault → fault ≡ OutOfMemory }
    ensures same_again { (f t : Table) → IsDevice f → HasSameArray f t → (a b c : List Bool) → IsCarriedOver f t a b
        → IsCarriedOver t f b c → f.row_switches ≡ [] → f.columns * f.rows ≡ f.fuses → length a ≡ f.fuses → c ≡ a }
{}
