// A write to a file in memory.
ghost use Rattle.std.specs.Prelude.{◌≡◌, ◌≤◌, ◌+◌, length, vec_len, vec_capacity, OnOk, OnErr, IsOk};
ghost use Rattle.host_model.specs.Disk.{written_at};

use crate::Memory;

// Writes in place, and appends what reaches past the end. It fails only where the room for that is missing.
pub(crate) fn overwrite(file: &mut Vec<u8>, at: usize, bytes: &[u8]) -> Result<(), Memory>
    requires { at ≤ length file.old.items }
    ensures ok { OnOk result (file.new.items ≡ written_at at bytes.now file.old.items) }
    ensures err { OnErr result (file.new.items ≡ file.old.items) }
    ensures room { at + length bytes.now ≤ vec_capacity file.old → vec_len file.old ≤ vec_capacity file.old → IsOk result }
    ensures capacity { vec_capacity file.old ≤ vec_capacity file.new }
{
    let within = bytes.len().min(file.len() - at);
    file.extend_from_slice(&bytes[within..])?;
    file[at..at + within].copy_from_slice(&bytes[..within]);
    Ok(())
}
