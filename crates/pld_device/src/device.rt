//! A device whose table is known only at run time, as a type.

use std::marker::Brand;

/// The device that code for all devices is about: clauses name its table, and a call by its name picks it. Its numbers and
/// its look-ups at run time are `Loaded`; what its crate writes of it is `Part`.
pub trait Device {
    ghost use Rattle.pld_device.specs.Laws.{IsDevice};
    ghost use Rattle.pld_device.specs.Table.{Table};

    /// The whole table.
    ghost table: { Table };

    ghost sound: { IsDevice table };
}

/// Any device: a call that passes `Brand` picks the table, and where none is picked it is the small device's.
impl Device for Brand {
    ghost use Rattle.pld_device.specs.SampleTable.{sample, sample_sound};

    ghost table = { sample };

    ghost sound = { sample_sound };
}
