//! The rows of a table: each is checked, and made if nothing is refused so far.

ghost use Rattle.std.specs.Prelude.{◌≡◌, true, None, Some, ℕ, [], ◌∷◌, length, IfOk, OnOk};
ghost use Rattle.truth_tables.specs.Prelude.{is_some, arena, AreIn, Keeps, BuildsNodes, part};
ghost use Rattle.truth_tables.specs.{GivesRow, HasInputs, IsHeaderAccepted, StandsRow, WalksRow, nodes_left};

use crate::checked_rows::{RowFound, read_row};
use crate::giving::{Assigning, Matching, give_positions};
use crate::inputs::{header_bits, row_product};
use abel_tree::{Row, Table};
use bit_expr::{ExprId, Exprs};
use pld_base::{OutOfMemory, Place};
use pld_device::Device;
use section_targets::{Aim, SectionScope, Walked};
use set_expr::{Contribution, Guard, SectionFault};
use std::alloc::Global;

/// A table whose header isn't refused, with the outputs that it names, under a guard.
#[derive(Drop)]
pub(crate) struct Headed<'a, D: Device> {
    pub scope: &'a SectionScope<'a, D>,
    pub table: &'a Table,
    pub outputs: &'a [Option<Aim>],
    pub guard: Guard,
}

/// The bits of the input header from the left, None at X: the first row makes them as a part of its unit, and those
/// after it take them.
fn inputs_of<D: Device>(
    alloc: Global,
    headed: &Headed<'_, D>,
    unit: Place,
    made: Option<Vec<Option<ExprId>>>,
    exprs: &mut Exprs,
) -> Result<Vec<Option<ExprId>>, SectionFault>
    requires accepted { IsHeaderAccepted D.table headed.now }
    requires made { HasInputs D.table headed.now made exprs.old }
    ensures keeps { Keeps (arena exprs.old) (arena exprs.new) }
    ensures builds { BuildsNodes (part unit (nodes_left D.table headed.now made) ∷ []) exprs.old exprs.new result }
    ensures inputs { IfOk result (λ ps. HasInputs D.table headed.now (Some ps) exprs.new) }
{
    match made {
        Some(bits) => Ok(bits),
        None => header_bits::<D>(alloc, headed.scope, &headed.table.inputs, unit, exprs),
    }
}

/// A row of which nothing is refused, as one unit; the first one has the bits of the input header in it.
fn give_row<D: Device>(
    alloc: Global,
    headed: &Headed<'_, D>,
    found: &RowFound,
    inputs: &mut Option<Vec<Option<ExprId>>>,
    out: &mut Walked,
) -> Result<(), SectionFault>
    requires accepted { IsHeaderAccepted D.table headed.now }
    requires inputs { HasInputs D.table headed.now inputs.old out.old.exprs }
    ensures before { out.new.before ≡ out.old.before }
    ensures fault { out.new.fault ≡ out.old.fault }
    ensures gives { GivesRow D.table headed.now (nodes_left D.table headed.now inputs.old) found.now out.old out.new result }
    ensures inputs { HasInputs D.table headed.now inputs.new out.new.exprs }
    ensures made { OnOk result (is_some inputs.new ≡ true) }
{
    let made = inputs.take();
    let bits = inputs_of::<D>(alloc, headed, found.place, made, &mut out.exprs)?;
    let levels = found.inputs.as_slice();
    let bit = row_product(&mut out.exprs, bits.as_slice(), levels, found.place)?;
    *inputs = Some(bits);
    let matching = Matching {
        scope: headed.scope.scope(),
        assigning: Assigning {
            unit: found.place,
            guard: headed.guard,
            clocked: headed.table.clocked,
        },
        bit,
    };
    let given = found.outputs.as_slice();
    give_positions(
        &matching,
        headed.outputs,
        given,
        &mut out.exprs,
        &mut out.list,
    )
}

/// A row after those that were walked, which made the bits of the input header unless something is refused.
pub(crate) fn walk_row<D: Device>(
    alloc: Global,
    headed: &Headed<'_, D>,
    row: &Row,
    inputs: &mut Option<Vec<Option<ExprId>>>,
    out: &mut Walked,
) -> Result<(), OutOfMemory>
    requires accepted { IsHeaderAccepted D.table headed.now }
    requires inputs { HasInputs D.table headed.now inputs.old out.old.exprs }
    ensures walks { OnOk result ((n : ℕ) → (out.old.fault ≡ None → n ≡ nodes_left D.table headed.now inputs.old)
        → WalksRow D.table headed.now n row.now out.old out.new) }
    ensures stands { StandsRow D.table headed.now row.now out.old out.new }
    ensures inputs { OnOk result (HasInputs D.table headed.now inputs.new out.new.exprs) }
    ensures made { OnOk result (out.new.fault ≡ None → is_some inputs.new ≡ true) }
{
    let found = read_row(alloc, headed.scope.scope(), headed.table, row)?;
    if out.refuse(found.fault) {
        return Ok(());
    }
    let made = give_row::<D>(alloc, headed, &found, inputs, out);
    out.keep_limit(made)
}
