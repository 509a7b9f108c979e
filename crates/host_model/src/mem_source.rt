// A source in memory.
ghost use Rattle.std.specs.Prelude.{◌≡◌, ◌↔◌, ◌<◌, ◌≤◌, [], length, take, drop, min, option_map, IfSome, IfOk, OnOk, OnErr, IsErr, IsTrue};
ghost use Rattle.host_model.specs.Counts.{counted, count_fits, Rose, is_listed};
ghost use Rattle.host_model.specs.Source.{after_read};
ghost use Rattle.host_model.specs.MemSource.{MemSourceState, fresh_source, told_of, source_after_read, source_after_fault};

use crate::counts::{must_fail, next_number, with_fault};
use crate::{Memory, Source, SourceFailed};
use std::alloc::Global;
use std::marker::Model;

/// Bytes in memory, given a few at a time, with reads that fail where they were told to.
#[derive(Drop)]
pub struct MemSource {
    bytes: Vec<u8>,
    // How many of the bytes were given.
    taken: usize,
    ended: bool,
    faults: u64,
    most: usize,
    fail: Vec<u64>,
    // `None` once 2^64 reads were made: no number in `fail` is past them.
    next_read: Option<u64>,
}

impl Model for MemSource {
    ghost Value = { MemSourceState };

    ghost view = { λ s. record {
      left = drop s.taken s.bytes.items;
      ended = s.ended;
      faults = s.faults;
      most = s.most;
      fail = s.fail.items;
      next_read = s.next_read;
    } };

    ghost invariant = { λ s. (s.taken ≤ length s.bytes.items) × (0 < s.most) };
}

impl MemSource {
    /// A source of these bytes, which gives at most `most` of them a read. The reads with the numbers in `fail`,
    /// counted from 0, fail. `Memory`: no room for a copy of the two.
    pub fn new(alloc: Global, bytes: &[u8], most: usize, fail: &[u64]) -> Result<MemSource, Memory>
        requires { 1 ≤ most }
        ensures { IfOk result (λ s. s ≡ fresh_source bytes.now most fail.now) }
    {
        Ok(MemSource {
            bytes: bytes.to_vec(alloc)?,
            taken: 0,
            ended: false,
            faults: 0,
            most,
            fail: fail.to_vec(alloc)?,
            next_read: Some(0),
        })
    }
}

impl Source for MemSource {
    ghost told = { told_of };

    ghost faults = { λ s. counted s.faults };

    ghost faults_fit = { λ s. count_fits s.faults };

    /// Gives as many bytes as the buffer, `most` and what is left allow, and fails exactly at the listed reads.
    fn read(&mut self, buf: &mut [u8]) -> Result<usize, SourceFailed>
        requires { 0 < length buf.old }

        ensures fits { IfOk result (λ n. n ≤ length buf.new) }
        ensures taken { IfOk result (λ n. told_of self.new ≡ option_map (after_read n) (told_of self.old)) }
        ensures there { IfOk result (λ n. IfSome (told_of self.old) (λ s. n ≤ length s.left)) }
        ensures given { IfOk result (λ n. IfSome (told_of self.old) (λ s. take n buf.new ≡ take n s.left)) }
        ensures end { IfOk result (λ n. IfSome (told_of self.old) (λ s. (n ≡ 0) ↔ (s.left ≡ []))) }
        ensures ok_faults { OnOk result (self.new.faults ≡ self.old.faults) }
        ensures untaken { OnErr result (told_of self.new ≡ told_of self.old) }
        ensures cause { OnErr result (Rose self.old.faults self.new.faults) }
        ensures never_falls { self.old.faults ≤ self.new.faults }

        // What this source adds.
        ensures listed { IsErr result ↔ IsTrue (is_listed self.old.next_read self.old.fail) }
        ensures count { IfOk result (λ n. n ≡ min (min (length buf.old) self.old.most) (length self.old.left)) }
        ensures ok { IfOk result (λ n. self.new ≡ source_after_read n self.old) }
        ensures err { OnErr result (self.new ≡ source_after_fault self.old) }
        ensures rest_of_buffer { IfOk result (λ n. drop n buf.new ≡ drop n buf.old) }
        ensures same_buffer { OnErr result (buf.new ≡ buf.old) }
    {
        let listed = must_fail(self.next_read, &self.fail);
        self.next_read = next_number(self.next_read);
        if listed {
            self.faults = with_fault(self.faults);
            return Err(SourceFailed);
        }
        let n = give(&self.bytes[self.taken..], self.most, buf);
        self.taken += n;
        self.ended = self.ended || n == 0;
        Ok(n)
    }
}

// Copies as many bytes as there are, as `most` allows and as the buffer holds.
fn give(bytes: &[u8], most: usize, buf: &mut [u8]) -> usize
    ensures count { result ≡ min (min (length buf.old) most) (length bytes.now) }
    ensures front { take result buf.new ≡ take result bytes.now }
    ensures rest { drop result buf.new ≡ drop result buf.old }
{
    let n = buf.len().min(most).min(bytes.len());
    buf[..n].copy_from_slice(&bytes[..n]);
    n
}
