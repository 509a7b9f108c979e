// What is read and written, and what a stop leaves of it.
ghost use Rattle.std.specs.Prelude.{◌≡◌, ◌≤◌, ◌+◌, ◌++◌, ◌∷◌, [], length, slice_range, option_map, IfOk, OnOk, OnErr};
ghost use Rattle.host_model.specs.Counts.{Rose};
ghost use Rattle.host_model.specs.Disk.{written_at, range, DiffersIn, WhereTold, Changes};
ghost use Rattle.host_model.specs.Host.{Shown, SaysFront, IsCoherent, Settled, Tears, Stays, Says, Rests, Goes, Ticks, CountsRead, MayCountRead};

/// A call on a file that failed. The host's count of faults of its disk rose.
#[derive(Clone, Copy, Debug, PartialEq, Eq)]
pub struct DiskFailed;

/// A piece of output that could not be said whole. The host's count of faults of its output rose.
#[derive(Clone, Copy, Debug, PartialEq, Eq)]
pub struct OutFailed;

/// A file and the output of a program.
///
/// A stop, at any moment, leaves an image of the file and the output up to there. Where a host tells its stops, its
/// clock moves by one with each call of `write_at`, `sync` and `put`. Such a call that fails may leave the clock, and
/// then it has no effect but the count of its fault.
pub trait Host {
    /// All that a host shows of itself.
    ghost shows: { Self → Shown };

    /// The length of the file, in bytes. `DiskFailed` comes only where `disk_faults` rose in this call, or stands at
    /// its last value; so it is with each call on the file.
    fn len(&mut self) -> Result<u64, DiskFailed>
        ensures length { IfOk result (λ n. WhereTold (shows self.old).file (λ f. n ≡ length f)) }
        ensures rests { Rests (shows self.old) (shows self.new) }
        ensures reads { (shows self.new).reads ≡ (shows self.old).reads }
        ensures cause { OnErr result (Rose (shows self.old).disk_faults (shows self.new).disk_faults) }
        ensures ok_faults { OnOk result ((shows self.new).disk_faults ≡ (shows self.old).disk_faults) }
        ensures never_falls { (shows self.old).disk_faults ≤ (shows self.new).disk_faults }
        ensures out_faults { (shows self.new).out_faults ≡ (shows self.old).out_faults };

    /// Fills `buf` with the bytes from `at` on. A read that failed may be left out of `reads`.
    fn read_at(&mut self, at: u64, buf: &mut [u8]) -> Result<(), DiskFailed>
        requires { WhereTold (shows self.old).file (λ f. at + length buf.old ≤ length f) }
        ensures given { OnOk result
            (WhereTold (shows self.old).file (λ f. buf.new ≡ slice_range f at (at + length buf.old))) }
        ensures rests { Rests (shows self.old) (shows self.new) }
        ensures counted { OnOk result (CountsRead (shows self.old) (shows self.new)) }
        ensures reads { OnErr result (MayCountRead (shows self.old) (shows self.new)) }
        ensures cause { OnErr result (Rose (shows self.old).disk_faults (shows self.new).disk_faults) }
        ensures ok_faults { OnOk result ((shows self.new).disk_faults ≡ (shows self.old).disk_faults) }
        ensures never_falls { (shows self.old).disk_faults ≤ (shows self.new).disk_faults }
        ensures out_faults { (shows self.new).out_faults ≡ (shows self.old).out_faults };

    /// Writes the bytes from `at` on, inside the file or behind its end with no gap. A write that failed may have
    /// changed any byte of its range, and no other.
    fn write_at(&mut self, at: u64, bytes: &[u8]) -> Result<(), DiskFailed>
        requires { WhereTold (shows self.old).file (λ f. at ≤ length f) }
        ensures written { OnOk result
            ((shows self.new).file ≡ option_map (written_at at bytes.now) (shows self.old).file) }
        ensures torn { OnErr result
            (Changes (DiffersIn (range at (length bytes.now) ∷ [])) (shows self.old).file (shows self.new).file) }
        ensures goes { Goes (Tears at (length bytes.now)) (shows self.old) (shows self.new) }
        ensures ticks { OnOk result (Ticks (shows self.old) (shows self.new)) }
        ensures said { (shows self.new).said ≡ (shows self.old).said }
        ensures reads { (shows self.new).reads ≡ (shows self.old).reads }
        ensures cause { OnErr result (Rose (shows self.old).disk_faults (shows self.new).disk_faults) }
        ensures ok_faults { OnOk result ((shows self.new).disk_faults ≡ (shows self.old).disk_faults) }
        ensures never_falls { (shows self.old).disk_faults ≤ (shows self.new).disk_faults }
        ensures out_faults { (shows self.new).out_faults ≡ (shows self.old).out_faults };

    /// Makes all that was written lasting: after Ok a stop leaves the file as it reads.
    fn sync(&mut self) -> Result<(), DiskFailed>
        ensures settled { OnOk result (Settled (shows self.new)) }
        ensures file { (shows self.new).file ≡ (shows self.old).file }
        ensures goes { Goes Stays (shows self.old) (shows self.new) }
        ensures ticks { OnOk result (Ticks (shows self.old) (shows self.new)) }
        ensures said { (shows self.new).said ≡ (shows self.old).said }
        ensures reads { (shows self.new).reads ≡ (shows self.old).reads }
        ensures cause { OnErr result (Rose (shows self.old).disk_faults (shows self.new).disk_faults) }
        ensures ok_faults { OnOk result ((shows self.new).disk_faults ≡ (shows self.old).disk_faults) }
        ensures never_falls { (shows self.old).disk_faults ≤ (shows self.new).disk_faults }
        ensures out_faults { (shows self.new).out_faults ≡ (shows self.old).out_faults };

    /// Says a piece of output. After `OutFailed` a front of the piece was said, which may be none of it or all.
    /// `OutFailed` comes only where `out_faults` rose in this call, or stands at its last value.
    fn put(&mut self, bytes: &[u8]) -> Result<(), OutFailed>
        ensures said { OnOk result
            ((shows self.new).said ≡ option_map (λ said. said ++ bytes.now) (shows self.old).said) }
        ensures front { OnErr result (SaysFront bytes.now (shows self.old).said (shows self.new).said) }
        ensures goes { Goes (Says bytes.now) (shows self.old) (shows self.new) }
        ensures ticks { OnOk result (Ticks (shows self.old) (shows self.new)) }
        ensures file { (shows self.new).file ≡ (shows self.old).file }
        ensures reads { (shows self.new).reads ≡ (shows self.old).reads }
        ensures cause { OnErr result (Rose (shows self.old).out_faults (shows self.new).out_faults) }
        ensures ok_faults { OnOk result ((shows self.new).out_faults ≡ (shows self.old).out_faults) }
        ensures never_falls { (shows self.old).out_faults ≤ (shows self.new).out_faults }
        ensures disk_faults { (shows self.new).disk_faults ≡ (shows self.old).disk_faults };

    /// What always holds of what a host shows.
    ghost coherent: { (h : Self) → IsCoherent (shows h) };
}
