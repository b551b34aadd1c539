//! What functions and controls read.

ghost use Rattle.std.specs.Prelude.{◌≡◌, ◌||◌, Bool, false, length};
ghost use Rattle.gathering.specs.Prelude.{Leaf, arena, AreReads, plain_control, plain_function, function_names, names_if_any, IsControlIn, IsFunctionIn};

use bit_expr::{Control, Exprs, Function, Reads};

/// No leaf. Takes no memory.
pub fn nothing() -> Reads
    ensures { AreReads (λ leaf. false) result }
{
    Reads {
        pins: 0,
        q: 0,
        nodes: 0,
    }
}

/// The leaves of either. Takes no memory.
pub fn both(a: Reads, b: Reads) -> Reads
    ensures { (f g : Leaf → Bool) → AreReads f a → AreReads g b
        → AreReads (λ leaf. f leaf || g leaf) result }
{
    Reads {
        pins: a.pins | b.pins,
        q: a.q | b.q,
        nodes: a.nodes | b.nodes,
    }
}

/// What a function reads. Takes no memory.
pub fn function_reads(exprs: &Exprs, function: Function) -> Reads
    requires { IsFunctionIn (length (arena exprs.now)) function }
    ensures { AreReads (λ leaf. function_names (plain_function (arena exprs.now) function) leaf) result }
{
    both(exprs.reads(function.one), exprs.reads(function.any))
}

/// What a control reads that may be there. Takes no memory.
pub fn control_reads(exprs: &Exprs, control: Option<Control>) -> Reads
    requires { IsControlIn (length (arena exprs.now)) control }
    ensures { AreReads (λ leaf. names_if_any (plain_control (arena exprs.now) control) leaf) result }
{
    match control {
        None => nothing(),
        Some(control) => exprs.reads(control.bit),
    }
}
