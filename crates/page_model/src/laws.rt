//! What a page says of the device and of the run, as the contracts of calls that do nothing.

ghost use Rattle.page_model.specs.Phases.{DriveTheSame};
ghost use Rattle.page_model.specs.Told.{PagesTellTheDevice};

/// The points of vectors drive what the vectors drive. Does nothing.
pub fn points_drive_the_same()
    ensures { DriveTheSame }
{}

/// What a page says of pins and cells is what the device does. Does nothing.
pub fn pages_tell_the_device()
    ensures { PagesTellTheDevice }
{}
