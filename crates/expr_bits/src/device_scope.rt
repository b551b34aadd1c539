//! The names of a source on a device.

ghost use Rattle.std.specs.Prelude.{◌≡◌, None, IfOk, length};
ghost use Rattle.expr_bits.specs.Prelude.{entries_of, view, known_of, term_of, refusal_of, context_for};
ghost use Rattle.expr_bits.specs.{MakesBits, reads_signal, AreRows};

use crate::forms::Bits;
use crate::keeping::rows_of;
use crate::on_device::OnDevice;
use crate::rows::{Row, expr_reads};
use crate::shaping::shaped;
use crate::walking::walk;
use crate::work::{Outer, Work};
use abel_tree::Expr;
use bit_expr::{ExprFault, Exprs};
use pld_base::{ListOf, OutOfMemory};
use pld_device::{Device, Loaded};
use set_expr::{Scope, Shaped};
use std::alloc::Global;
use std::marker::Model;

/// The names of a source on a device, with what each of them reads there and the bits of constants that make no node,
/// learnt once for all its expressions. A contract sees the names.
#[derive(Drop)]
pub struct DeviceScope<'a, D: Device> {
    scope: Scope<'a>,
    rows: ListOf<Row>,
    device: &'a Loaded<D>,
}

impl<'a, D: Device> Model for DeviceScope<'a, D> {
    ghost use Rattle.abel_tree.specs.Entries.{entries_of};
    ghost use Rattle.abel_tree.specs.contracts.expressions.Expr as expression;
    ghost use Rattle.abel_tree.specs.declared.names.Names.{Names};
    ghost use Rattle.expr_bits.specs.Still.{AreRows};
    ghost use Rattle.set_expr.specs.Contexts.{context_for};
    ghost use Rattle.std.specs.Coded.{codes};
    ghost use Rattle.std.specs.Prelude.{◌≡◌, length};

    ghost Value = { Names };

    ghost coded = { Prim.hlevel (codes, expression.the_row.coded) };

    ghost view = { λ s. s.scope };

    ghost invariant = { λ s. AreRows (entries_of s.scope) (context_for D.table s.scope) 0 s.rows × (length s.rows ≡ length (entries_of s.scope)) };
}

impl<'a, D: Device> DeviceScope<'a, D> {
    /// The names of a scope on the device.
    pub fn new(
        alloc: Global,
        device: &'a Loaded<D>,
        scope: Scope<'a>,
    ) -> Result<DeviceScope<'a, D>, OutOfMemory>
        ensures { IfOk result (λ s. s ≡ scope.entry) }
    {
        let rows = rows_of::<D>(alloc, device, &scope)?;
        Ok(DeviceScope {
            scope,
            rows: ListOf::from_vec(rows),
            device,
        })
    }

    /// The names alone.
    pub fn scope(&self) -> &Scope<'a>
        ensures { result.now ≡ self.now }
    {
        &self.scope
    }

    /// The device.
    pub fn device(&self) -> &'a Loaded<D> {
        self.device
    }

    /// What is kept of the names.
    fn rows(&self) -> &[Row]
        ensures rows { AreRows (entries_of self.now) (context_for D.table self.now) 0 result.now }
        ensures all { length result.now ≡ length (entries_of self.now) }
    {
        self.rows.as_slice()
    }

    /// Whether an expression reads a signal, whether or not its value depends on it.
    pub fn reads_signal(&self, alloc: Global, expr: &Expr) -> Result<bool, OutOfMemory>
        ensures { IfOk result (λ b. b ≡ reads_signal (term_of (known_of (entries_of self.now)) (view expr.now))) }
    {
        let reads = expr_reads(alloc, &self.scope, self.rows(), expr)?;
        Ok(reads.signal)
    }

    /// The bits of an expression of which nothing is refused, so that only `NodeLimit` or lack of memory can occur. Each
    /// read of a signal and each operator makes its nodes anew, also of equal operands.
    pub fn bits(&self, alloc: Global, expr: &Expr, exprs: &mut Exprs) -> Result<Shaped, ExprFault>
        requires accepted { refusal_of self.now (view expr.now) ≡ None }
        ensures { MakesBits (context_for D.table self.now) (view expr.now) exprs.old exprs.new result }
    {
        let rows = self.rows();
        let outer = Outer {
            extension: None,
            count: rows.len(),
        };
        let on = OnDevice {
            device: self.device,
            scope: &self.scope,
        };
        let bits = walk::<D>(alloc, &on, rows, Work::Whole(expr, outer), exprs)?;
        let shaped = shaped(alloc, &bits)?;
        Ok(shaped)
    }
}
