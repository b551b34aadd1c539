//! What a summary counts.

ghost use Rattle.std.specs.Prelude.{◌≡◌, ◌+◌, ◌*◌, ◌<◌, ◌≤◌, is_some, length};
ghost use Rattle.reports.specs.Prelude.{plain_netlist, wanted_at, is_used};
ghost use Rattle.pld_device.specs.Rows.{row_fuses};
ghost use Rattle.reports.specs.Summary.{assigned_cells, products_used, rows_used};

use bit_expr::Netlist;
use fitter::cell_wanted;
use pld_device::{Device, Loaded};

/// Whether the netlist asks something of a cell.
#[tactic(auto, using(crate::proofs::Counts::wanted_some))]
fn is_assigned(net: &Netlist, cell: u8) -> bool
    ensures { result ≡ is_some (wanted_at (plain_netlist net.now) cell) }
{
    cell_wanted(net, cell).is_some()
}

/// How many cells of the device the netlist asks something of. Takes no memory.
pub(crate) fn cells_used<D: Device>(device: &Loaded<D>, net: &Netlist) -> usize
    ensures { result ≡ assigned_cells D.table (plain_netlist net.now) }
{
    let mut count = 0usize;
    for cell in 0..device.cells() {
        count += usize::from(is_assigned(net, cell));
    }
    count
}

/// The fuses of a row.
fn row_fuses<'a, D: Device>(device: &Loaded<D>, fuses: &'a [bool], row: u16) -> &'a [bool]
    requires size { length fuses.now ≡ D.table.fuses }
    requires row { row < D.table.rows }
    ensures { result.now ≡ row_fuses D.table fuses.now row }
{
    let first = usize::from(device.columns()) * usize::from(row);
    &fuses[first..first + usize::from(device.columns())]
}

/// Whether some fuse of a row is opened.
fn is_used<D: Device>(device: &Loaded<D>, fuses: &[bool], row: u16) -> bool
    requires size { length fuses.now ≡ D.table.fuses }
    requires row { row < D.table.rows }
    ensures { result ≡ is_used D.table fuses.now row }
{
    row_fuses::<D>(device, fuses, row)
        .iter()
        .any(|level| *level)
}

/// How many data rows of a cell are in use.
fn rows_used<D: Device>(device: &Loaded<D>, fuses: &[bool], cell: u8) -> usize
    requires size { length fuses.now ≡ D.table.fuses }
    requires cell { cell < length D.table.cells }
    ensures count { result ≡ rows_used D.table fuses.now cell }
    ensures most { result ≤ 255 }
{
    let shape = device.cell(cell);
    let mut count = 0usize;
    for offset in 0..shape.room {
        let used = is_used::<D>(device, fuses, shape.first + u16::from(offset));
        count += usize::from(used);
    }
    count
}

/// How many data rows of all cells are in use. Takes no memory.
pub(crate) fn products_used<D: Device>(device: &Loaded<D>, fuses: &[bool]) -> usize
    requires { length fuses.now ≡ D.table.fuses }
    ensures { result ≡ products_used D.table fuses.now }
{
    let mut count = 0usize;
    for cell in 0..device.cells() {
        count += rows_used::<D>(device, fuses, cell);
    }
    count
}
