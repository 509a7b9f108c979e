//! The report on a file.
ghost use Rattle.std.specs.Prelude.{◌≡◌, ◌≢◌, ◌≤◌, ◌+◌, List, ℕ, Some, IsTrue};
ghost use Rattle.host_model.specs.Counts.{Rose};
ghost use Rattle.host_model.specs.Disk.{WhereTold};
ghost use Rattle.dets_tool.specs.Checking.{Checked, status_of_check};
ghost use Rattle.dets_tool.specs.Status.{status_of_run};

use crate::report_lines::report_lines;
use crate::{FileWhy, Status};
use host_model::{DiskFailed, Host, OutFailed};
use repair_scan::{CheckFault, check};
use std::alloc::Global;

impl From<DiskFailed> for Status {
    ghost use Rattle.dets_tool.specs.declared.status.Status.TheVariants.{Disk};

    ghost from_gives = { λ _ status. status ≡ Disk };

    fn from(_failed: DiskFailed) -> Status {
        Status::Disk
    }
}

impl From<OutFailed> for Status {
    ghost use Rattle.dets_tool.specs.declared.status.Status.TheVariants.{Output};

    ghost from_gives = { λ _ status. status ≡ Output };

    fn from(_failed: OutFailed) -> Status {
        Status::Output
    }
}

impl From<CheckFault> for Status {
    ghost from_gives = { λ fault status. status ≡ status_of_check fault };

    fn from(fault: CheckFault) -> Status {
        match fault {
            CheckFault::Disk => Status::Disk,
            CheckFault::NotDets => Status::File(FileWhy::NotDets),
            CheckFault::Version(version) => Status::File(FileWhy::Version(version)),
            CheckFault::Memory => Status::Memory,
        }
    }
}

/// Puts the report on the file in one piece. The file is only read.
pub(crate) fn check_file<H: Host>(alloc: Global, host: &mut H) -> Status
    ensures checked { (file : List ℕ) → (H.shows host.old).file ≡ Some file
        → Checked result file (H.shows host.old).said (H.shows host.new).said }
    ensures file { (H.shows host.new).file ≡ (H.shows host.old).file }
    ensures disk { result ≡ Status.Disk → Rose (H.shows host.old).disk_faults (H.shows host.new).disk_faults }
    ensures no_disk_fault { result ≢ Status.Disk → (H.shows host.new).disk_faults ≡ (H.shows host.old).disk_faults }
    ensures output { result ≡ Status.Output → Rose (H.shows host.old).out_faults (H.shows host.new).out_faults }
    ensures input { result ≢ Status.SourceFault }
    ensures words { result ≢ Status.WordsRefused }
{
    match put_report(alloc, host) {
        Ok(()) => Status::Done,
        Err(status) => status,
    }
}

/// Puts the report on the file, unless the status says why there is none.
fn put_report<H: Host>(alloc: Global, host: &mut H) -> Result<(), Status>
    ensures checked { (file : List ℕ) → (H.shows host.old).file ≡ Some file
        → Checked (status_of_run result) file (H.shows host.old).said (H.shows host.new).said }
    ensures file { (H.shows host.new).file ≡ (H.shows host.old).file }
    ensures disk { status_of_run result ≡ Status.Disk → Rose (H.shows host.old).disk_faults (H.shows host.new).disk_faults }
    ensures no_disk_fault { status_of_run result ≢ Status.Disk → (H.shows host.new).disk_faults ≡ (H.shows host.old).disk_faults }
    ensures output { status_of_run result ≡ Status.Output → Rose (H.shows host.old).out_faults (H.shows host.new).out_faults }
    ensures input { status_of_run result ≢ Status.SourceFault }
    ensures words { status_of_run result ≢ Status.WordsRefused }
{
    if host.len()? == 0 {
        return Err(Status::File(FileWhy::Empty));
    }
    let report = check(alloc, host)?;
    let lines = report_lines(alloc, &report)?;
    host.put(lines.as_slice())?;
    Ok(())
}
