//! What the sections of a source are over.

ghost use Rattle.std.specs.Prelude.{◌≡◌, IfOk, None, length};
ghost use Rattle.section_targets.specs.Prelude.{entries_of, view, known_of, term_of, refusal_of, Table};
ghost use Rattle.set_expr.specs.Contexts.{context_for};
ghost use Rattle.expr_bits.specs.ExpressionBits.{MakesBits};
ghost use Rattle.expr_bits.specs.Reads.{reads_signal};
ghost use Rattle.section_targets.specs.{AreNames, IsSide, left_side, target_member};

use crate::named::{NamedSignals, Targets};
use crate::naming::target_names;
use crate::sides::Side;
use crate::siding::{left_side, member_side};
use abel_tree::Expr;
use bit_expr::{ExprFault, Exprs};
use expr_bits::DeviceScope;
use pld_base::{ListOf, OutOfMemory, Place};
use pld_device::{Device, Loaded};
use set_expr::{Scope, Shaped};
use std::alloc::Global;
use std::marker::Model;

/// The names of a source on a device, and the signals that each represents as a target, learnt once for all its sections. A
/// contract sees the names.
#[derive(Drop)]
pub struct SectionScope<'a, D: Device> {
    names: DeviceScope<'a, D>,
    named: ListOf<NamedSignals>,
}

impl<'a, D: Device> Model for SectionScope<'a, D> {
    ghost use Rattle.abel_tree.specs.contracts.expressions.Expr as expression;
    ghost use Rattle.abel_tree.specs.declared.names.Names.{Names};
    ghost use Rattle.section_targets.specs.NamedTargets.{AreNames};
    ghost use Rattle.std.specs.Coded.{codes};

    ghost Value = { Names };

    ghost coded = { Prim.hlevel (codes, expression.the_row.coded) };

    ghost view = { λ s. s.names };

    ghost invariant = { λ s. AreNames s.names s.named };
}

impl<'a, D: Device> SectionScope<'a, D> {
    /// The names of a scope on the device, each with its signals.
    pub fn new(
        alloc: Global,
        device: &'a Loaded<D>,
        scope: Scope<'a>,
    ) -> Result<SectionScope<'a, D>, OutOfMemory>
        ensures { IfOk result (λ s. s ≡ scope.entry) }
    {
        let named = target_names(alloc, &scope)?;
        let names = DeviceScope::new(alloc, device, scope)?;
        Ok(SectionScope { names, named })
    }

    /// The names alone.
    pub fn scope(&self) -> &Scope<'a>
        ensures { result.now ≡ self.now }
    {
        self.names.scope()
    }

    /// The device.
    pub fn device(&self) -> &'a Loaded<D> {
        self.names.device()
    }

    /// The names with the signals that each represents.
    fn targets(&self, alloc: Global) -> Targets<'_>
        ensures scope { result.scope.now ≡ self.now }
        ensures named { AreNames self.now result.named.now }
    {
        Targets {
            alloc,
            scope: self.names.scope(),
            named: self.named.as_slice(),
        }
    }

    /// The signals of the target of an assignment at this place, or what is refused of it.
    pub fn target(&self, alloc: Global, place: Place, target: &Expr) -> Result<Side, OutOfMemory>
        ensures { IfOk result (λ s. (t : Table) → IsSide (length (entries_of self.now)) s (left_side (context_for t self.now) place (view target.now))) }
    {
        left_side(&self.targets(alloc), place, target)
    }

    /// The registers of a state diagram, or what is refused of them.
    pub fn registers(&self, alloc: Global, registers: &Expr) -> Result<Side, OutOfMemory>
        ensures { IfOk result (λ s. (t : Table) → IsSide (length (entries_of self.now)) s (target_member (context_for t self.now) (view registers.now))) }
    {
        member_side(&self.targets(alloc), registers)
    }

    /// Whether an expression reads a signal, whether or not its value depends on it.
    pub fn reads_signal(&self, alloc: Global, expr: &Expr) -> Result<bool, OutOfMemory>
        ensures { IfOk result (λ b. b ≡ reads_signal (term_of (known_of (entries_of self.now)) (view expr.now))) }
    {
        self.names.reads_signal(alloc, expr)
    }

    /// The bits of an expression of which nothing is refused, in just the counted nodes. Only `NodeLimit` or lack of memory
    /// can occur.
    pub fn bits(&self, alloc: Global, expr: &Expr, exprs: &mut Exprs) -> Result<Shaped, ExprFault>
        requires accepted { refusal_of self.now (view expr.now) ≡ None }
        ensures { MakesBits (context_for D.table self.now) (view expr.now) exprs.old exprs.new result }
    {
        self.names.bits(alloc, expr, exprs)
    }
}
