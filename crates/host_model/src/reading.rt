// What bytes are read from.
ghost use Rattle.std.specs.Prelude.{◌≡◌, ◌↔◌, ◌<◌, ◌≤◌, ◌^◌, ℕ, [], length, take, Option, option_map, IfSome, IfOk, OnOk, OnErr};
ghost use Rattle.host_model.specs.Counts.{Rose};
ghost use Rattle.host_model.specs.Source.{Stream, after_read};

/// A read that failed. It took nothing, and the source's count of faults rose.
#[derive(Clone, Copy, Debug, PartialEq, Eq)]
pub struct SourceFailed;

/// A stream of bytes that is read from its front.
pub trait Source {
    /// What a source tells of itself. `None`: it tells nothing.
    ghost told: { Self → Option Stream };

    /// How many reads failed. The count stays at 2^64 - 1 once it is there.
    ghost faults: { Self → ℕ };

    /// Reads into the front of `buf`, and returns how many bytes: from 1 to the length of `buf`, or 0 at the end
    /// of the input. `SourceFailed` comes only where `faults` rose in this call, or stands at its last value.
    fn read(&mut self, buf: &mut [u8]) -> Result<usize, SourceFailed>
        requires { 0 < length buf.old }

        ensures fits { IfOk result (λ n. n ≤ length buf.new) }

        // Just the bytes that it gives are taken, and they stand at the front of the buffer.
        ensures taken { IfOk result (λ n. told self.new ≡ option_map (after_read n) (told self.old)) }
        ensures there { IfOk result (λ n. IfSome (told self.old) (λ s. n ≤ length s.left)) }
        ensures given { IfOk result (λ n. IfSome (told self.old) (λ s. take n buf.new ≡ take n s.left)) }
        ensures end { IfOk result (λ n. IfSome (told self.old) (λ s. (n ≡ 0) ↔ (s.left ≡ []))) }

        ensures ok_faults { OnOk result (faults self.new ≡ faults self.old) }

        ensures untaken { OnErr result (told self.new ≡ told self.old) }
        ensures cause { OnErr result (Rose (faults self.old) (faults self.new)) }
        ensures never_falls { faults self.old ≤ faults self.new };

    /// The count is a number of 64 bits.
    ghost faults_fit: { (s : Self) → faults s < 2 ^ 64 };
}
