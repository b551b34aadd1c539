//! Laws of netlists with any as 0, as the contract of a call that does nothing.

ghost use Rattle.source_machine.specs.Prelude.{HasRunsOf, Refines, Table, ModuleTree, PlainNetlist, netlist_logic, source_logic, MeansTheSame};
ghost use Rattle.source_machine.specs.AnyAs0.{netlist_with_any_0};
ghost use Rattle.source_machine.specs.Correct.{GatheredAs0};

/// With any as 0 a netlist allows nothing that it doesn't allow otherwise; so its runs are runs of every module that
/// means the same. The netlist of a module then allows what the module does with any as 0, and no more. Does nothing.
pub fn any_as_0()
    ensures refines { (t : Table) (net : PlainNetlist)
        → Refines (netlist_with_any_0 t net) (netlist_logic t net) }
    ensures runs { (t : Table) (m : ModuleTree) (net : PlainNetlist) → MeansTheSame t m net
        → HasRunsOf (source_logic t m) (netlist_with_any_0 t net) }
    ensures module_as_0 { GatheredAs0 }
{}
