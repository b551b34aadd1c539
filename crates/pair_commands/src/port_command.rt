//! `port FROM IN TO OUT`.

ghost use Rattle.std.specs.Prelude.{◌≡◌, ◌≤◌, IfOk, length};
ghost use Rattle.pair_commands.specs.Prelude.{ending_seen, limit, table_at};
ghost use Rattle.pair_commands.specs.PortCommand.{PairEnds, PortEnds};
ghost use Rattle.fuse_porting.specs.Pairs.{IsPair};

use crate::pair_lines::{no_counterpart_line, ported_line, unported_line};
use devices::loaded_at;
use fuse_porting::{Pair, PortFault, pair_of, ported_file};
use fuse_reports::{Ending, Output, Taken, take_file};
use pld_base::{DeviceName, OutOfMemory};
use pld_device::Device;
use std::alloc::Global;
use std::marker::Brand;

/// Where a file is put.
#[derive(Clone, Copy)]
struct Target<'a> {
    name: &'a str,
}

/// How `port` ends with bytes as a fuse file of the first device of a pair, for the second.
fn ending_for<'a, F: Device, T: Device>(
    alloc: Global,
    pair: Pair,
    output: Target<'a>,
    bytes: &[u8],
) -> Result<Ending<'a>, OutOfMemory>
    requires table { table_at pair.from ≡ F.table }
    requires other_table { table_at pair.to ≡ T.table }
    requires pair { IsPair F.table T.table }
    requires within { length bytes.now ≤ limit }
    ensures { IfOk result
        (λ e. PairEnds F.table T.table output.entry.name.now bytes.now (ending_seen e)) }
{
    let device = loaded_at::<F>(pair.from);
    let other = loaded_at::<T>(pair.to);
    let file = match take_file::<F>(alloc, &device, bytes)? {
        Taken::File(file) => file,
        Taken::Refused(line) => return Ok(Ending::plain(4, line)),
    };
    let out = match ported_file::<F, T>(alloc, &device, &other, bytes, &file) {
        Ok(out) => out,
        Err(PortFault::NoCounterpart(pin)) => {
            return Ok(Ending::plain(3, no_counterpart_line(alloc, pin)?));
        }
        Err(PortFault::OutOfMemory) => return Err(OutOfMemory),
    };
    Ok(Ending {
        status: 0,
        text: ported_line(alloc, device.name(), other.name())?,
        output: Some(Output {
            name: output.name,
            bytes: out,
        }),
    })
}

/// The same for two devices of these names.
pub fn port_ending<'a>(
    alloc: Global,
    from: DeviceName,
    to: DeviceName,
    output: &'a str,
    bytes: &[u8],
) -> Result<Ending<'a>, OutOfMemory>
    requires { length bytes.now ≤ limit }
    ensures { IfOk result (λ e. PortEnds from to output.now bytes.now (ending_seen e)) }
{
    match pair_of(from, to) {
        Some(pair) => ending_for::<Brand, Brand>(alloc, pair, Target { name: output }, bytes),
        None => Ok(Ending::plain(3, unported_line(alloc, from, to)?)),
    }
}
