//! The rows of all names, each by those before it.

ghost use Rattle.std.specs.Prelude.{◌≡◌, ℕ, None, Some, IfOk, length, slice_get, take};
ghost use Rattle.expr_bits.specs.Prelude.{entries_of, view_declared, view, Context, name_at, source_by, Read, known_of, term_of, context_for};
ghost use Rattle.expr_bits.specs.{IsReads, is_leaf, here_term, AreRows, IsRow};

use crate::on_device::OnDevice;
use crate::reads::Reads;
use crate::rows::{Row, expr_reads};
use crate::sources::source_of;
use crate::walking::walk;
use crate::work::{Outer, Work};
use abel_tree::{Declared, Expr, Extension, Meaning};
use bit_expr::{ExprFault, Exprs};
use pld_base::OutOfMemory;
use pld_device::{Device, Loaded};
use set_expr::Scope;
use std::alloc::Global;

/// Whether a declared signal reads a leaf, bare or with an extension.
fn is_leaf<D: Device>(device: &Loaded<D>, declared: &Declared, extension: Option<Extension>) -> bool
    ensures { result ≡ is_leaf (source_by D.table (view_declared declared.now) (view_declared declared.now).kind extension) }
{
    source_of::<D>(device, declared, extension).is_some()
}

/// What a signal reads.
fn signal_reads<D: Device>(device: &Loaded<D>, declared: &Declared) -> Reads
    ensures { (d : Context) (k : ℕ) → d.device ≡ D.table → name_at d k ≡ view_declared declared.now → IsReads d result (Read k None) }
{
    Reads {
        signal: true,
        bare: is_leaf::<D>(device, declared, None),
        q: is_leaf::<D>(device, declared, Some(Extension::Q)),
        fb: is_leaf::<D>(device, declared, Some(Extension::Fb)),
        pin: is_leaf::<D>(device, declared, Some(Extension::Pin)),
        control: false,
    }
}

/// Whether a constant of this name is refused. Any answer gives right rows: a source with such a constant is refused before
/// a row of it is read, and sets that double would be built in full.
fn is_refused(scope: &Scope<'_>, name: &[u8]) -> bool {
    match scope.get(name) {
        Some(known) => known.checked.fault.is_some(),
        None => false,
    }
}

/// The row of a constant. If its own extensions read no leaf, it is built with its other signals as `.CLK`, under which
/// they read none. It is kept if it made no node, and has the same bits under each extension with which it makes none.
fn constant_row<D: Device>(
    alloc: Global,
    device: &Loaded<D>,
    scope: &Scope<'_>,
    rows: &[Row],
    expr: &Expr,
) -> Result<Row, OutOfMemory>
    requires rows { AreRows (entries_of scope.now) (context_for D.table scope.now) 0 rows.now }
    ensures { IfOk result (λ r. IsRow (context_for D.table scope.now) r (term_of (known_of (take (length rows.now) (entries_of scope.now))) (view expr.now))) }
{
    let reads = expr_reads(alloc, scope, rows, expr)?;
    if reads.control {
        return Ok(Row::of(reads));
    }
    let mut exprs = Exprs::new(alloc);
    let outer = Outer {
        extension: Some(Extension::Clk),
        count: rows.len(),
    };
    let on = OnDevice { device, scope };
    match walk::<D>(alloc, &on, rows, Work::Whole(expr, outer), &mut exprs) {
        Ok(bits) => {
            if exprs.made() == 0 {
                Ok(Row {
                    reads,
                    bits: Some(bits),
                })
            } else {
                Ok(Row::of(reads))
            }
        }
        Err(ExprFault::NodeLimit) => Ok(Row::of(reads)),
        Err(ExprFault::OutOfMemory) => Err(OutOfMemory),
    }
}

/// The row of the next name.
fn row_of<D: Device>(
    alloc: Global,
    device: &Loaded<D>,
    scope: &Scope<'_>,
    rows: &[Row],
    declared: &Declared,
) -> Result<Row, OutOfMemory>
    requires rows { AreRows (entries_of scope.now) (context_for D.table scope.now) 0 rows.now }
    requires here { slice_get (entries_of scope.now) (length rows.now) ≡ Some (view_declared declared.now) }
    ensures { IfOk result (λ r. IsRow (context_for D.table scope.now) r (here_term (entries_of scope.now) (length rows.now) (slice_get (entries_of scope.now) (length rows.now)))) }
{
    match &declared.meaning {
        Meaning::Pin { pin: _, negated: _ } => Ok(Row::of(signal_reads::<D>(device, declared))),
        Meaning::Node(_) => Ok(Row::of(signal_reads::<D>(device, declared))),
        Meaning::Constant(expr) if is_refused(scope, declared.name.bytes()) => {
            Ok(Row::of(expr_reads(alloc, scope, rows, expr)?))
        }
        Meaning::Constant(expr) => constant_row::<D>(alloc, device, scope, rows, expr),
        Meaning::DeviceName => Ok(Row::of(Reads::none())),
    }
}

/// The rows of all names. Each constant is gone through once, and built once if it is kept.
pub(crate) fn rows_of<D: Device>(
    alloc: Global,
    device: &Loaded<D>,
    scope: &Scope<'_>,
) -> Result<Vec<Row>, OutOfMemory>
    ensures rows { IfOk result (λ rs. AreRows (entries_of scope.now) (context_for D.table scope.now) 0 rs.items) }
    ensures all { IfOk result (λ rs. length rs.items ≡ length (entries_of scope.now)) }
{
    let mut rows = Vec::new(alloc);
    for declared in scope.list() {
        let row = row_of::<D>(alloc, device, scope, rows.as_slice(), declared)?;
        rows.push(row)?;
    }
    Ok(rows)
}
