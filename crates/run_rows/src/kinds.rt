//! The kinds of sections. The name of each begins with its kind, before a colon.

use crate::calls::try_failing_calls;
use crate::cases::{try_cases, try_listings, try_whole_files};
use crate::commands::{try_long_files, try_usage};
use crate::demos::{try_demo_files, try_demos};
use crate::each_device::try_devices;
use crate::faults::try_faults;
use crate::fronts::{try_changed_bytes, try_fronts};
use crate::fuse_files::try_fuse_files;
use crate::pairs::try_pairs;
use crate::refusals::{Phase, try_refusals};
use crate::runs::try_runs;
use crate::statements::{try_refused_statements, try_spellings, try_statements};
use std::alloc::{AllocError, Global};
use test_rows::{Report, Section};

/// Tries a section of sources, or of another kind.
pub fn try_section(
    alloc: Global,
    section: &Section<'_>,
    report: &mut Report<'_>,
) -> Result<(), AllocError> {
    let kind = match section.name.split_once(':') {
        Some((kind, _)) => kind,
        None => section.name,
    };
    match kind {
        "compiled" => try_cases(alloc, section, report),
        "listings" => try_listings(alloc, section, report),
        "whole files" => try_whole_files(alloc, section, report),
        "refused" => try_refusals(alloc, section, report, Phase::Source),
        "without a fit" => try_refusals(alloc, section, report, Phase::Fit),
        "spellings" => try_spellings(alloc, section, report),
        "statements compiled" => try_statements(alloc, section, report),
        "statements refused" => try_refused_statements(alloc, section, report, Phase::Source),
        "statements without a fit" => try_refused_statements(alloc, section, report, Phase::Fit),
        _ => try_run_section(alloc, kind, section, report),
    }
}

/// Tries a section of runs.
fn try_run_section(
    alloc: Global,
    kind: &str,
    section: &Section<'_>,
    report: &mut Report<'_>,
) -> Result<(), AllocError> {
    match kind {
        "runs" => try_runs(alloc, section, report),
        "faults" => try_faults(alloc, section, report),
        "usage" => try_usage(alloc, section, report),
        "long files" => try_long_files(alloc, section, report),
        "fuse files" => try_fuse_files(alloc, section, report),
        "fuse files by their rows" => try_devices(alloc, section, report),
        "pairs of fuse files" => try_pairs(alloc, section, report),
        _ => try_special_section(alloc, kind, section, report),
    }
}

/// Tries a section that is a loop over many runs, or one of demos.
fn try_special_section(
    alloc: Global,
    kind: &str,
    section: &Section<'_>,
    report: &mut Report<'_>,
) -> Result<(), AllocError> {
    match kind {
        "calls that fail" => try_failing_calls(alloc, section, report),
        "fronts" => try_fronts(alloc, section, report),
        "changed bytes" => try_changed_bytes(alloc, section, report),
        "demos" => try_demos(alloc, section, report),
        "demo files" => try_demo_files(alloc, section, report),
        _ => {
            report.unread(0);
            Ok(())
        }
    }
}
