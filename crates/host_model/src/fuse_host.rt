// A host that stops serving after some calls.
ghost use Rattle.std.specs.Prelude.{◌≡◌, ◌⊎◌, ◌≤◌, ◌+◌, length, slice_range, IsErr, IsTrue, IfOk, OnOk, OnErr};
ghost use Rattle.host_model.specs.Counts.{is_listed};
ghost use Rattle.host_model.specs.Host.{Goes, Tears, Stays, Says};
ghost use Rattle.host_model.specs.Calls.Call.{Wrote, Synced, Put};
ghost use Rattle.host_model.specs.MemHost.{file_of, host_after_len, host_after_read, host_after};
ghost use Rattle.host_model.specs.FuseHost.{FuseHostState, fresh_fuse, shown_of, is_coherent, fuse_after, fuse_after_disk_fault, fuse_after_out_fault};

use crate::counts::with_fault;
use crate::{DiskFailed, Host, MemHost, OutFailed};
use std::marker::Model;

/// A host that passes a number of calls on to a host in memory, and then fails each. As the inner host was left, a
/// restart finds what a stop there leaves.
#[derive(Drop)]
pub struct FuseHost {
    inner: MemHost,
    calls_left: u64,
    disk_blown: u64,
    out_blown: u64,
}

impl Model for FuseHost {
    ghost Value = { FuseHostState };

    ghost view = { λ f. record {
      inner = f.inner;
      calls_left = f.calls_left;
      disk_blown = f.disk_blown;
      out_blown = f.out_blown;
    } };
}

impl FuseHost {
    /// Passes so many calls of `Host` on, counted together, and then fails each.
    pub fn new(inner: MemHost, calls: u64) -> FuseHost
        ensures { result ≡ fresh_fuse inner calls }
    {
        FuseHost {
            inner,
            calls_left: calls,
            disk_blown: 0,
            out_blown: 0,
        }
    }

    /// The inner host as the calls left it.
    pub fn into_inner(self) -> MemHost
        ensures { result ≡ self.inner }
    {
        let FuseHost {
            inner,
            calls_left: _,
            disk_blown: _,
            out_blown: _,
        } = self;
        inner
    }
}

impl Host for FuseHost {
    ghost shows = { shown_of };

    ghost coherent = { is_coherent };

    /// Fails where its calls are used up, and where the inner host does; so does each call.
    fn len(&mut self) -> Result<u64, DiskFailed>
        ensures blown { self.old.calls_left ≡ 0 → IsErr result }
        ensures listed { IsTrue (is_listed self.old.inner.next_call self.old.inner.fail) → IsErr result }
        ensures only_then { IsErr result →
            (self.old.calls_left ≡ 0) ⊎ IsTrue (is_listed self.old.inner.next_call self.old.inner.fail) }
        ensures length { IfOk result (λ n. n ≡ length (file_of self.old.inner)) }
        ensures ok { OnOk result (self.new ≡ fuse_after (host_after_len self.old.inner) self.old) }
        ensures err { OnErr result (self.new ≡ fuse_after_disk_fault self.old) }
    {
        if self.calls_left == 0 {
            self.disk_blown = with_fault(self.disk_blown);
            return Err(DiskFailed);
        }
        self.calls_left -= 1;
        self.inner.len()
    }

    fn read_at(&mut self, at: u64, buf: &mut [u8]) -> Result<(), DiskFailed>
        requires { at + length buf.old ≤ length (file_of self.old.inner) }
        ensures blown { self.old.calls_left ≡ 0 → IsErr result }
        ensures listed { IsTrue (is_listed self.old.inner.next_call self.old.inner.fail) → IsErr result }
        ensures only_then { IsErr result →
            (self.old.calls_left ≡ 0) ⊎ IsTrue (is_listed self.old.inner.next_call self.old.inner.fail) }
        ensures given { OnOk result (buf.new ≡ slice_range (file_of self.old.inner) at (at + length buf.old)) }
        ensures ok { OnOk result (self.new ≡ fuse_after (host_after_read self.old.inner) self.old) }
        ensures err { OnErr result (self.new ≡ fuse_after_disk_fault self.old) }
    {
        if self.calls_left == 0 {
            self.disk_blown = with_fault(self.disk_blown);
            return Err(DiskFailed);
        }
        self.calls_left -= 1;
        self.inner.read_at(at, buf)
    }

    fn write_at(&mut self, at: u64, bytes: &[u8]) -> Result<(), DiskFailed>
        requires { at ≤ length (file_of self.old.inner) }
        ensures blown { self.old.calls_left ≡ 0 → IsErr result }
        ensures listed { IsTrue (is_listed self.old.inner.next_call self.old.inner.fail) → IsErr result }
        ensures ok { OnOk result (self.new ≡ fuse_after (host_after (Wrote at bytes.now) self.old.inner) self.old) }
        ensures err { OnErr result (self.new ≡ fuse_after_disk_fault self.old) }
        ensures goes { Goes (Tears at (length bytes.now)) (shown_of self.old) (shown_of self.new) }
    {
        if self.calls_left == 0 {
            self.disk_blown = with_fault(self.disk_blown);
            return Err(DiskFailed);
        }
        self.calls_left -= 1;
        self.inner.write_at(at, bytes)
    }

    fn sync(&mut self) -> Result<(), DiskFailed>
        ensures blown { self.old.calls_left ≡ 0 → IsErr result }
        ensures listed { IsTrue (is_listed self.old.inner.next_call self.old.inner.fail) → IsErr result }
        ensures ok { OnOk result (self.new ≡ fuse_after (host_after Synced self.old.inner) self.old) }
        ensures err { OnErr result (self.new ≡ fuse_after_disk_fault self.old) }
        ensures goes { Goes Stays (shown_of self.old) (shown_of self.new) }
    {
        if self.calls_left == 0 {
            self.disk_blown = with_fault(self.disk_blown);
            return Err(DiskFailed);
        }
        self.calls_left -= 1;
        self.inner.sync()
    }

    fn put(&mut self, bytes: &[u8]) -> Result<(), OutFailed>
        ensures blown { self.old.calls_left ≡ 0 → IsErr result }
        ensures listed { IsTrue (is_listed self.old.inner.next_call self.old.inner.fail) → IsErr result }
        ensures ok { OnOk result (self.new ≡ fuse_after (host_after (Put bytes.now) self.old.inner) self.old) }
        ensures err { OnErr result (self.new ≡ fuse_after_out_fault self.old) }
        ensures goes { Goes (Says bytes.now) (shown_of self.old) (shown_of self.new) }
    {
        if self.calls_left == 0 {
            self.out_blown = with_fault(self.out_blown);
            return Err(OutFailed);
        }
        self.calls_left -= 1;
        self.inner.put(bytes)
    }
}
