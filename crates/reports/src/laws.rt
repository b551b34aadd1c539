//! What the summary counts, as the contract of a call that does nothing.

ghost use Rattle.reports.specs.Summary.{SummaryCountsTheDesign};

/// A netlist of a module has as many cells assigned as the module assigns. Does nothing.
pub fn summary_counts_the_design()
    ensures { SummaryCountsTheDesign }
{}
