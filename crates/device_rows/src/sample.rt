//! The sample device at run time.

use pld_device::{Loaded, Sample, load};

/// The sample device.
pub fn sample_device() -> Loaded<Sample> {
    load::<Sample, Sample>(&Sample)
}
