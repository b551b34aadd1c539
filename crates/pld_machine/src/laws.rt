//! Laws of all logics, as the contracts of calls that do nothing.

ghost use Rattle.pld_machine.specs.Prelude.{Logic};
ghost use Rattle.pld_machine.specs.Comparison.{DoesTheSame, NodeValues};
ghost use Rattle.pld_machine.specs.Refines.{RefinesValued, HasNoNodes, SameValues, Refines, HasRestsOf, HasStepsOf, HasRunsOf};
ghost use Rattle.pld_machine.specs.ExchangeLaws.{ExchangedLookups, ExchangedRefines, ExchangedValues, ExchangedRests, ExchangedRuns, ExchangedSteps};
ghost use Rattle.pld_machine.specs.Lookups.{Lookups, logic_of};
ghost use Rattle.pld_machine.specs.Order.{IsOrdered};
ghost use Rattle.pld_machine.specs.Steps.{IsDetermined, RestsOnce, RunsOnce};

/// A logic in order settles, steps and runs in exactly one way, from every state. Does nothing.
pub fn one_run()
    ensures { (m : Lookups) → IsOrdered m → IsDetermined (logic_of m) }
{}

/// What a logic does that allows no more than another, the other does too; if each allows no more than the other and one
/// rests once, or runs once, so does the other. Does nothing.
pub fn refined_run()
    ensures rests { (d s : Logic) → Refines d s → HasRestsOf s d }
    ensures steps { (d s : Logic) → Refines d s → HasStepsOf s d }
    ensures runs { (d s : Logic) → Refines d s → HasRunsOf s d }
    ensures one_rest { (d s : Logic) → Refines d s → Refines s d → RestsOnce s → RestsOnce d }
    ensures one_run { (d s : Logic) → Refines d s → Refines s d → RunsOnce s → RunsOnce d }
{}

/// A device does what a source says that allows at each point, with its nodes valued there, what the device does. If
/// neither has nodes, its runs are the source's as they are; and it does what any other source says that allows the
/// same. Does nothing.
pub fn valued_run()
    ensures same { (d s : Logic) (values : NodeValues)
        → RefinesValued d s values → RestsOnce d → RunsOnce d → DoesTheSame d s values }
    ensures plain { (d s : Logic) (values : NodeValues)
        → DoesTheSame d s values → HasNoNodes d → HasNoNodes s → HasRunsOf s d }
    ensures other { (d s r : Logic) (values others : NodeValues) → Refines s r → Refines r s
        → SameValues s values others → DoesTheSame d s values → DoesTheSame d r others }
{}

/// What allows no more than another still does so if the same registers of both store the complement; look-ups in order
/// stay so. Does nothing.
pub fn exchanged_logics()
    ensures refines { ExchangedRefines }
    ensures values { ExchangedValues }
    ensures lookups { ExchangedLookups }
{}

/// The rests, steps and runs of a logic some of whose registers store the complement are those of the logic itself, with
/// these Qs complemented. Does nothing.
pub fn exchanged_runs()
    ensures rests { ExchangedRests }
    ensures steps { ExchangedSteps }
    ensures runs { ExchangedRuns }
{}
