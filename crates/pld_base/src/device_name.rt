//! The devices by name.

ghost use Rattle.std.specs.Prelude.{◌≡◌, bytes_eq, map};
ghost use Rattle.std.specs.Str.{str_to_ascii_lowercase};
ghost use Rattle.pld_base.specs.DeviceNames.{device_in, device_text, lower_name, named_device};
ghost use Rattle.pld_base.specs.Models.{has_modes, top_cell};

/// The programmable devices that the project knows.
#[derive(Clone, Copy, Debug, PartialEq, Eq)]
pub enum DeviceName {
    P16L8,
    P16R4,
    P16R6,
    P16R8,
    GAL22V10,
    GAL16V8C,
    GAL16V8R4,
    GAL16V8R6,
    GAL16V8R8,
    P20L8,
    P20R4,
    P20R6,
    P20R8,
    P20L10,
    P16P8,
    P18P8,
    GAL18V10,
    ATF22V10C,
    GAL16V8,
    GAL20V8,
}

/// All of them.
const DEVICES: [DeviceName; 20] = [
    DeviceName::P16L8,
    DeviceName::P16R4,
    DeviceName::P16R6,
    DeviceName::P16R8,
    DeviceName::GAL22V10,
    DeviceName::GAL16V8C,
    DeviceName::GAL16V8R4,
    DeviceName::GAL16V8R6,
    DeviceName::GAL16V8R8,
    DeviceName::P20L8,
    DeviceName::P20R4,
    DeviceName::P20R6,
    DeviceName::P20R8,
    DeviceName::P20L10,
    DeviceName::P16P8,
    DeviceName::P18P8,
    DeviceName::GAL18V10,
    DeviceName::ATF22V10C,
    DeviceName::GAL16V8,
    DeviceName::GAL20V8,
];

impl DeviceName {
    /// The name as it is in fuse files and reports.
    pub fn text(&self) -> &'static str
        ensures { result.now ≡ device_text self.now }
    {
        match self {
            DeviceName::P16L8 => "P16L8",
            DeviceName::P16R4 => "P16R4",
            DeviceName::P16R6 => "P16R6",
            DeviceName::P16R8 => "P16R8",
            DeviceName::GAL22V10 => "GAL22V10",
            DeviceName::GAL16V8C => "GAL16V8C",
            DeviceName::GAL16V8R4 => "GAL16V8R4",
            DeviceName::GAL16V8R6 => "GAL16V8R6",
            DeviceName::GAL16V8R8 => "GAL16V8R8",
            DeviceName::P20L8 => "P20L8",
            DeviceName::P20R4 => "P20R4",
            DeviceName::P20R6 => "P20R6",
            DeviceName::P20R8 => "P20R8",
            DeviceName::P20L10 => "P20L10",
            DeviceName::P16P8 => "P16P8",
            DeviceName::P18P8 => "P18P8",
            DeviceName::GAL18V10 => "GAL18V10",
            DeviceName::ATF22V10C => "ATF22V10C",
            DeviceName::GAL16V8 => "GAL16V8",
            DeviceName::GAL20V8 => "GAL20V8",
        }
    }

    /// The device of this name, or of a second name that it has, without regard to case. Takes no memory.
    pub fn named(name: &[u8]) -> Option<DeviceName>
        ensures { result ≡ named_device name.now }
    {
        if name.eq_ignore_ascii_case(b"p22v10") {
            return Some(DeviceName::GAL22V10);
        }
        first_named(&DEVICES, name)
    }

    /// The pin of the first of the eight cells of a chip with modes.
    pub fn top_cell(&self) -> Option<u8>
        ensures { result ≡ top_cell self.now }
    {
        match self {
            DeviceName::GAL16V8 => Some(19),
            DeviceName::GAL20V8 => Some(22),
            _ => None,
        }
    }

    /// Whether the chip has modes.
    pub fn has_modes(&self) -> bool
        ensures { result ≡ has_modes self.now }
    {
        self.top_cell().is_some()
    }

    /// Whether this is the device's name, without regard to case.
    fn is_named(&self, name: &[u8]) -> bool
        ensures { result ≡ bytes_eq (str_to_ascii_lowercase name.now) (lower_name self.now).0 }
    {
        name.eq_ignore_ascii_case(self.text().as_bytes())
    }
}

/// The first of these devices that has the name, without regard to case.
fn first_named(devices: &[DeviceName], name: &[u8]) -> Option<DeviceName>
    ensures { result ≡ device_in (map lower_name devices.now) (str_to_ascii_lowercase name.now) }
{
    for device in devices {
        if device.is_named(name) {
            return Some(*device);
        }
    }
    None
}
