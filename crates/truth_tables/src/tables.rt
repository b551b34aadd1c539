//! The walk over truth tables, and what is refused of their headers.

ghost use Rattle.std.specs.Prelude.{◌≡◌, List, [], ◌++◌, if◌then◌else◌, IfOk, OnOk};
ghost use Rattle.truth_tables.specs.Prelude.{is_some, view, Context, IsContextOf, Manner, AreFirsts};
ghost use Rattle.truth_tables.specs.{output_header, assigned_by, some_aims, IsHeaderAccepted, IsWholeHeader, StandsHeaded, StandsTable, WalksHeaded, WalksTable};

use crate::giving::{Assigning, give_no_matches};
use crate::headings::push_outputs;
use crate::rows::{Headed, walk_row};
use abel_tree::{Table, earlier};
use pld_base::{ListOf, OutOfMemory};
use pld_device::{Device, Loaded};
use section_targets::{Aim, Assigned, SectionScope, Walked, Way, check_aims};
use set_expr::{Guard, Scope, SectionFault};
use std::alloc::{AllocError, Global};

/// What is found of a header: its first refusal, and its outputs position by position from the left, None at X.
#[derive(Drop)]
pub(crate) struct Header {
    pub outputs: ListOf<Option<Aim>>,
    pub fault: Option<SectionFault>,
}

/// The outputs alone.
fn list_aims(alloc: Global, outputs: &[Option<Aim>]) -> Result<Vec<Aim>, AllocError>
    ensures { IfOk result (λ aims. aims.items ≡ some_aims outputs.now) }
{
    outputs.iter().filter_map(|output| *output).collect(alloc)
}

/// The outputs that a header assigns: none if it is refused.
fn assigned_aims(
    alloc: Global,
    refused: Option<SectionFault>,
    outputs: &[Option<Aim>],
) -> Result<Vec<Aim>, AllocError>
    ensures { IfOk result (λ aims. aims.items ≡ (if is_some refused then [] else some_aims outputs.now)) }
{
    if refused.is_some() {
        return Ok(Vec::new(alloc));
    }
    list_aims(alloc, outputs)
}

/// Both sides of a table's header, whose outputs are assigned after what was assigned before: the first refusal, and
/// the outputs. How they are assigned is noted. Calls go as deep as the nestings of sets and parentheses.
pub(crate) fn read_header<D: Device>(
    alloc: Global,
    device: &Loaded<D>,
    scope: &Scope<'_>,
    table: &Table,
    before: &mut Assigned,
) -> Result<Header, OutOfMemory>
    ensures header { IfOk result (λ h. (d : Context) (all : List Manner) → IsContextOf D.table scope.now d → AreFirsts before.old all → IsWholeHeader d all table.now h) }
    ensures before { OnOk result ((d : Context) (all : List Manner) → IsContextOf D.table scope.now d → AreFirsts before.old all → AreFirsts before.new (all ++ assigned_by table.now.clocked (output_header d (view table.now.outputs)))) }
{
    let inputs = scope.check(alloc, &table.inputs)?;
    let mut outputs = Vec::new(alloc);
    let refused = push_outputs(alloc, scope, &table.outputs, &mut outputs)?;
    let aims = assigned_aims(alloc, refused, outputs.as_slice())?;
    let way = Way {
        extension: None,
        complement: false,
        clocked: table.clocked,
    };
    let mixed = check_aims::<D>(device, scope, way, aims.as_slice(), before)?;
    let fault = earlier(refused, mixed);
    Ok(Header {
        outputs: ListOf::from_vec(outputs),
        fault: earlier(inputs.fault, fault),
    })
}

/// A table whose header isn't refused: no match for each output, so that each has some contribution of the block, and
/// the rows.
fn walk_headed<D: Device>(
    alloc: Global,
    headed: &Headed<'_, D>,
    out: &mut Walked,
) -> Result<(), OutOfMemory>
    requires accepted { IsHeaderAccepted D.table headed.now }
    ensures walks { OnOk result (WalksHeaded D.table headed.now out.old out.new) }
    ensures stands { StandsHeaded D.table headed.now out.old out.new }
{
    if out.fault.is_none() {
        let assigning = Assigning {
            unit: headed.table.place,
            guard: headed.guard,
            clocked: headed.table.clocked,
        };
        let names = headed.scope.scope();
        let made = give_no_matches(
            names,
            assigning,
            headed.outputs,
            &mut out.exprs,
            &mut out.list,
        );
        out.keep_limit(made)?;
    }
    let rows = headed.table.rows.as_slice();
    let mut inputs = None;
    for row in rows {
        walk_row::<D>(alloc, headed, row, &mut inputs, out)?;
    }
    Ok(())
}

/// A truth table after what was walked before: its header, which is the one unit if it is refused, and its rows. Of the
/// guard count its block and whether that is don't-care. Calls go as deep as the nestings of sets and parentheses.
pub fn walk_table<D: Device>(
    alloc: Global,
    scope: &SectionScope<'_, D>,
    guard: Guard,
    table: &Table,
    out: &mut Walked,
) -> Result<(), OutOfMemory>
    ensures walks { OnOk result (WalksTable D.table scope.now guard table.now out.old out.new) }
    ensures stands { StandsTable D.table scope.now guard table.now out.old out.new }
{
    let names = scope.scope();
    let header = read_header::<D>(alloc, scope.device(), names, table, &mut out.before)?;
    match header.fault {
        Some(fault) => {
            out.refuse(Some(fault));
            Ok(())
        }
        None => {
            let headed = Headed {
                scope,
                table,
                outputs: header.outputs.as_slice(),
                guard,
            };
            walk_headed::<D>(alloc, &headed, out)
        }
    }
}
