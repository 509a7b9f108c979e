// A host in memory.
ghost use Rattle.std.specs.Prelude.{◌≡◌, ◌↔◌, ◌≤◌, ◌+◌, [], length, slice_range, IsErr, IsTrue, IfOk, OnOk, OnErr};
ghost use Rattle.host_model.specs.Counts.{is_listed};
ghost use Rattle.host_model.specs.Host.{Settled, Goes, Tears, Stays, Says};
ghost use Rattle.host_model.specs.Calls.Call.{Wrote, Synced, Put};
ghost use Rattle.host_model.specs.CallLaws.{is_coherent};
ghost use Rattle.host_model.specs.MemHost.{MemHostState, fresh_host, file_of, said_of, shown_of, host_after_len, host_after_read, host_after, host_after_disk_fault, host_after_out_fault, pair_of};
ghost use Rattle.host_model.specs.Restart.{moment, pair_at};
ghost use Rattle.host_model.specs.RestartLaws.{LeftAt};

use crate::counts::{must_fail, next_number, with_fault};
use crate::log::Log;
use crate::{DiskFailed, Host, Memory, OutFailed, Pick};
use std::alloc::Global;
use std::marker::Model;

/// A file and an output in memory, with calls that fail where they were told to. It keeps its calls, and answers for
/// every moment since it was made.
#[derive(Drop)]
pub struct MemHost {
    log: Log,
    reads: u64,
    disk_faults: u64,
    out_faults: u64,
    fail: Vec<u64>,
    // `None` once 2^64 calls were made: no number in `fail` is past them.
    next_call: Option<u64>,
    starved: bool,
}

impl Model for MemHost {
    ghost Value = { MemHostState };

    ghost view = { λ h. record {
      origin = h.log.origin;
      calls = h.log.calls;
      reads = h.reads;
      disk_faults = h.disk_faults;
      out_faults = h.out_faults;
      fail = h.fail.items;
      next_call = h.next_call;
      starved = h.starved;
    } };
}

impl MemHost {
    /// A settled host with this file that has said nothing. The calls of `Host` with the numbers in `fail`, counted
    /// together from 0, fail. `Memory`: no room for copies of the two.
    pub fn new(alloc: Global, file: &[u8], fail: &[u64]) -> Result<MemHost, Memory>
        ensures made { IfOk result (λ h. h ≡ fresh_host (record { image = file.now; output = [] }) fail.now) }
        ensures settled { IfOk result (λ h. Settled (shown_of h)) }
        ensures tells { IfOk result (λ h. IsTrue (shown_of h).tells_stops) }
    {
        Ok(MemHost {
            log: Log::new(alloc, file.to_vec(alloc)?, Vec::new(alloc))?,
            reads: 0,
            disk_faults: 0,
            out_faults: 0,
            fail: fail.to_vec(alloc)?,
            next_call: Some(0),
            starved: false,
        })
    }

    /// The file as it reads.
    pub fn file(&self) -> &[u8]
        ensures { result.now ≡ file_of self.now }
    {
        self.log.file()
    }

    /// All that was said so far.
    pub fn said(&self) -> &[u8]
        ensures { result.now ≡ said_of self.now }
    {
        self.log.said()
    }

    /// How many calls moved the clock: as many as succeeded of `write_at`, `sync` and `put`.
    pub fn moments(&self) -> u64
        ensures { result ≡ length self.now.calls }
    {
        self.log.count() as u64
    }

    /// What a program finds after a stop: a settled host over one image of that moment, with the output of the same
    /// pair. The stop is in the call that moved the clock next after the first `at` of them, or after all of them
    /// where `at` is `moments()`. `pick` names the image. No call of the new host is made to fail.
    pub fn restart(&self, alloc: Global, at: u64, pick: Pick) -> Result<MemHost, Memory>
        requires { at ≤ length self.now.calls }
        ensures picked { IfOk result
            (λ h. h ≡ fresh_host (pair_at pick self.now.origin (moment at self.now.calls)) []) }
        ensures of_that_moment { IfOk result (λ h. LeftAt at self.now (pair_of h)) }
        ensures since { IfOk result (λ h. (shown_of self.now).left_since at (pair_of h)) }
        ensures settled { IfOk result (λ h. Settled (shown_of h)) }
        ensures tells { IfOk result (λ h. IsTrue (shown_of h).tells_stops) }
    {
        Ok(MemHost {
            log: self.log.restart(alloc, at as usize, pick)?,
            reads: 0,
            disk_faults: 0,
            out_faults: 0,
            fail: Vec::new(alloc),
            next_call: Some(0),
            starved: false,
        })
    }

    /// Whether a call failed for want of memory, which no listed call does.
    pub fn starved(&self) -> bool
        ensures { result ≡ self.now.starved }
    {
        self.starved
    }
}

impl Host for MemHost {
    ghost shows = { shown_of };

    ghost coherent = { is_coherent };

    /// Fails exactly at a listed call.
    fn len(&mut self) -> Result<u64, DiskFailed>
        ensures listed { IsErr result ↔ IsTrue (is_listed self.old.next_call self.old.fail) }
        ensures length { IfOk result (λ n. n ≡ length (file_of self.old)) }
        ensures ok { OnOk result (self.new ≡ host_after_len self.old) }
        ensures err { OnErr result (self.new ≡ host_after_disk_fault self.old) }
        ensures never_falls { self.old.disk_faults ≤ self.new.disk_faults }
    {
        let listed = must_fail(self.next_call, &self.fail);
        self.next_call = next_number(self.next_call);
        if listed {
            self.disk_faults = with_fault(self.disk_faults);
            return Err(DiskFailed);
        }
        Ok(self.log.file().len() as u64)
    }

    /// Fails exactly at a listed call. A read that failed is not counted.
    fn read_at(&mut self, at: u64, buf: &mut [u8]) -> Result<(), DiskFailed>
        requires { at + length buf.old ≤ length (file_of self.old) }
        ensures listed { IsErr result ↔ IsTrue (is_listed self.old.next_call self.old.fail) }
        ensures given { OnOk result (buf.new ≡ slice_range (file_of self.old) at (at + length buf.old)) }
        ensures same_buffer { OnErr result (buf.new ≡ buf.old) }
        ensures ok { OnOk result (self.new ≡ host_after_read self.old) }
        ensures err { OnErr result (self.new ≡ host_after_disk_fault self.old) }
        ensures never_falls { self.old.disk_faults ≤ self.new.disk_faults }
    {
        let listed = must_fail(self.next_call, &self.fail);
        self.next_call = next_number(self.next_call);
        if listed {
            self.disk_faults = with_fault(self.disk_faults);
            return Err(DiskFailed);
        }
        let from = at as usize;
        let n = buf.len();
        buf.copy_from_slice(&self.log.file()[from..from + n]);
        self.reads = with_fault(self.reads);
        Ok(())
    }

    /// Fails at each listed call, and else only for want of memory, which `starved` tells from then on. A call that
    /// fails has no effect but the count of its fault.
    fn write_at(&mut self, at: u64, bytes: &[u8]) -> Result<(), DiskFailed>
        requires { at ≤ length (file_of self.old) }
        ensures listed { IsTrue (is_listed self.old.next_call self.old.fail) → IsErr result }
        ensures ok { OnOk result (self.new ≡ host_after (Wrote at bytes.now) self.old) }
        ensures err { OnErr result (self.new ≡ host_after_disk_fault self.old) }
        ensures goes { Goes (Tears at (length bytes.now)) (shown_of self.old) (shown_of self.new) }
        ensures never_falls { self.old.disk_faults ≤ self.new.disk_faults }
    {
        let listed = must_fail(self.next_call, &self.fail);
        self.next_call = next_number(self.next_call);
        if !listed && self.log.write(at as usize, bytes).is_ok() {
            return Ok(());
        }
        self.disk_faults = with_fault(self.disk_faults);
        self.starved = self.starved || !listed;
        Err(DiskFailed)
    }

    /// Fails at each listed call, and else only for want of memory, which `starved` tells from then on. A call that
    /// fails has no effect but the count of its fault.
    fn sync(&mut self) -> Result<(), DiskFailed>
        ensures listed { IsTrue (is_listed self.old.next_call self.old.fail) → IsErr result }
        ensures ok { OnOk result (self.new ≡ host_after Synced self.old) }
        ensures err { OnErr result (self.new ≡ host_after_disk_fault self.old) }
        ensures goes { Goes Stays (shown_of self.old) (shown_of self.new) }
        ensures never_falls { self.old.disk_faults ≤ self.new.disk_faults }
    {
        let listed = must_fail(self.next_call, &self.fail);
        self.next_call = next_number(self.next_call);
        if !listed && self.log.sync().is_ok() {
            return Ok(());
        }
        self.disk_faults = with_fault(self.disk_faults);
        self.starved = self.starved || !listed;
        Err(DiskFailed)
    }

    /// Fails at each listed call, and else only for want of memory, which `starved` tells from then on. A call that
    /// fails has no effect but the count of its fault.
    fn put(&mut self, bytes: &[u8]) -> Result<(), OutFailed>
        ensures listed { IsTrue (is_listed self.old.next_call self.old.fail) → IsErr result }
        ensures ok { OnOk result (self.new ≡ host_after (Put bytes.now) self.old) }
        ensures err { OnErr result (self.new ≡ host_after_out_fault self.old) }
        ensures goes { Goes (Says bytes.now) (shown_of self.old) (shown_of self.new) }
        ensures never_falls { self.old.out_faults ≤ self.new.out_faults }
    {
        let listed = must_fail(self.next_call, &self.fail);
        self.next_call = next_number(self.next_call);
        if !listed && self.log.put(bytes).is_ok() {
            return Ok(());
        }
        self.out_faults = with_fault(self.out_faults);
        self.starved = self.starved || !listed;
        Err(OutFailed)
    }
}
