//! The reading of the header.
ghost use Rattle.std.specs.Prelude.{◌≡◌, ◌≤◌, ◌+◌, length, true, Ok, Err, IsTrue, IfOk, OnOk, OnErr};
ghost use Rattle.host_model.specs.Counts.{Rose};
ghost use Rattle.host_model.specs.Disk.{WhereTold};
ghost use Rattle.host_model.specs.Host.{Rests, CountsRead, MayCountRead};
ghost use Rattle.file_model.specs.Layout.{page_size, page_of};
ghost use Rattle.file_model.specs.Header.{head_in, body_in, is_allowed, located};
ghost use Rattle.block_disk.specs.Answer.{Answers, copies_in, copies_by};

use crate::HeadFault;
use crate::header_bytes::head_in;
use crate::places::{OPEN, PAGE_BYTES, body_at, whole_segments};
use file_model::{Head, Located, Unreadable};
use host_model::{DiskFailed, Host};

/// The current copy, by the two gates, and whether the other one's gate is open too.
fn copies_by(first: bool, second: bool) -> Option<(bool, bool)>
    ensures { result ≡ copies_by first second }
{
    if first {
        Some((false, second))
    } else if second {
        Some((true, false))
    } else {
        None
    }
}

/// The current copy of the file, and whether the other one's gate is open too.
fn read_copies<H: Host>(host: &mut H) -> Result<Option<(bool, bool)>, DiskFailed>
    requires { WhereTold (H.shows host.old).file (λ f. page_size ≤ length f) }
    ensures given { IfOk result (λ copies. WhereTold (H.shows host.old).file (λ f. copies ≡ copies_in (page_of f))) }
    ensures rests { Rests (H.shows host.old) (H.shows host.new) }
    ensures counted { OnOk result (CountsRead (H.shows host.old) (H.shows host.new)) }
    ensures reads { OnErr result (MayCountRead (H.shows host.old) (H.shows host.new)) }
    ensures cause { OnErr result (Rose (H.shows host.old).disk_faults (H.shows host.new).disk_faults) }
    ensures ok_faults { OnOk result ((H.shows host.new).disk_faults ≡ (H.shows host.old).disk_faults) }
    ensures never_falls { (H.shows host.old).disk_faults ≤ (H.shows host.new).disk_faults }
    ensures out_faults { (H.shows host.new).out_faults ≡ (H.shows host.old).out_faults }
{
    let mut gates = [0; 513];
    host.read_at(0, &mut gates)?;
    Ok(copies_by(gates[0] == OPEN, gates[512] == OPEN))
}

/// What the body of a copy says.
fn read_copy<H: Host>(host: &mut H, second: bool) -> Result<Result<Head, Unreadable>, DiskFailed>
    requires { WhereTold (H.shows host.old).file (λ f. page_size ≤ length f) }
    ensures given { IfOk result (λ head. WhereTold (H.shows host.old).file (λ f. head ≡ head_in (body_in (page_of f) second))) }
    ensures allowed { IfOk result (λ head. IfOk head (λ h. is_allowed h ≡ true)) }
    ensures rests { Rests (H.shows host.old) (H.shows host.new) }
    ensures counted { OnOk result (CountsRead (H.shows host.old) (H.shows host.new)) }
    ensures reads { OnErr result (MayCountRead (H.shows host.old) (H.shows host.new)) }
    ensures cause { OnErr result (Rose (H.shows host.old).disk_faults (H.shows host.new).disk_faults) }
    ensures ok_faults { OnOk result ((H.shows host.new).disk_faults ≡ (H.shows host.old).disk_faults) }
    ensures never_falls { (H.shows host.old).disk_faults ≤ (H.shows host.new).disk_faults }
    ensures out_faults { (H.shows host.new).out_faults ≡ (H.shows host.old).out_faults }
{
    let mut body = [0; 32];
    host.read_at(body_at(second), &mut body)?;
    Ok(head_in(&body))
}

/// Reads the header and where it was found, in two reads. `NotDets` and `Version` come just where the file has no header
/// that can be read; `Disk` comes only where a call on the disk failed.
pub fn read_header<H: Host>(host: &mut H) -> Result<Located, HeadFault>
    ensures told { WhereTold (H.shows host.old).file (λ f. Answers result (located f)) }
    ensures found { IfOk result (λ place. WhereTold (H.shows host.old).file (λ f. located f ≡ Ok place)) }
    ensures allowed { IfOk result (λ place. is_allowed place.head ≡ true) }
    ensures whole { IfOk result (λ place. place.whole ≤ place.head.segments) }
    ensures rests { Rests (H.shows host.old) (H.shows host.new) }
    ensures reads { IsTrue (H.shows host.old).tells_stops → (H.shows host.new).reads ≤ (H.shows host.old).reads + 2 }
    ensures cause { result ≡ Err HeadFault.Disk → Rose (H.shows host.old).disk_faults (H.shows host.new).disk_faults }
    ensures ok_faults { (result ≡ Err HeadFault.Disk → ⊥) → (H.shows host.new).disk_faults ≡ (H.shows host.old).disk_faults }
    ensures never_falls { (H.shows host.old).disk_faults ≤ (H.shows host.new).disk_faults }
    ensures out_faults { (H.shows host.new).out_faults ≡ (H.shows host.old).out_faults }
{
    let len = host.len()?;
    if len < PAGE_BYTES {
        return Err(HeadFault::NotDets);
    }
    let Some((second, other_gate)) = read_copies(host)? else {
        return Err(HeadFault::NotDets);
    };
    let head = read_copy(host, second)??;
    Ok(Located {
        head,
        second,
        other_gate,
        whole: whole_segments(head.segments, len),
    })
}
