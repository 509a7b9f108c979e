ghost use Rattle.std.specs.Prelude.{◌≡◌, ◌≤◌, ◌++◌, take, OnOk};
ghost use Rattle.std.specs.Fmt.{decimal};
ghost use Rattle.dets_term.specs.BitString.{byte_bits, bits_of, MayUse};
ghost use Rattle.text_model.specs.Printed.{printed_bits, printed_segment};

use crate::Memory;
use dets_term::ByteList;
use itoa::Buffer;

/// The bit string of some bytes, of whose last one so many bits are used.
pub(crate) fn print_bits(out: &mut ByteList, bytes: &[u8], used: u8) -> Result<(), Memory>
    requires { MayUse bytes.now used }
    ensures { OnOk result (out.new ≡ out.old ++ printed_bits (bits_of bytes.now used)) }
{
    out.extend_from_slice(b"<<")?;
    if let Some((last, whole)) = bytes.split_last() {
        for byte in whole {
            print_number(out, *byte)?;
            out.push(b',')?;
        }
        print_segment(out, *last, used)?;
    }
    out.extend_from_slice(b">>")
}

/// The first bits of a byte as their number, and how many they are where they are not eight, as `15:4`.
fn print_segment(out: &mut ByteList, byte: u8, used: u8) -> Result<(), Memory>
    requires { (1 ≤ used) × (used ≤ 8) }
    ensures { OnOk result (out.new ≡ out.old ++ printed_segment (take used (byte_bits byte))) }
{
    print_number(out, byte >> (8 - used))?;
    if used < 8 {
        out.push(b':')?;
        print_number(out, used)?;
    }
    Ok(())
}

fn print_number(out: &mut ByteList, value: u8) -> Result<(), Memory>
    ensures { OnOk result (out.new ≡ out.old ++ decimal value) }
{
    let mut buffer = Buffer::new();
    out.extend_from_slice(buffer.format(value).as_bytes())
}
