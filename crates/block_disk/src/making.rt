//! The making of a file.
ghost use Rattle.std.specs.Prelude.{◌≡◌, ◌≤◌, ◌+◌, ◌∷◌, [], true, length, None, Ok, option_map, IfOk, OnOk, OnErr};
ghost use Rattle.host_model.specs.Counts.{Rose};
ghost use Rattle.host_model.specs.Disk.{written_at, WhereTold};
ghost use Rattle.host_model.specs.Host.{Settled};
ghost use Rattle.host_model.specs.Tearing.{Tearing};
ghost use Rattle.file_model.specs.declared.head.FileState.TheVariants.{Closed};
ghost use Rattle.file_model.specs.Layout.{page_size};
ghost use Rattle.file_model.specs.Header.{body_of, is_allowed, located};
ghost use Rattle.block_disk.specs.Places.{the_page};
ghost use Rattle.block_disk.specs.Zeroed.{zeros, made_page};

use crate::header_bytes::body_bytes;
use crate::places::OPEN;
use crate::step::put_lasting;
use file_model::laws::a_header_that_was_written_is_read;
use file_model::{Head, Located};
use host_model::{DiskFailed, Host};

/// Makes the file of a header that is closed and has no segment and no index, where there are no bytes yet. The answer is
/// what `read_header` gives for it. `DiskFailed` comes only where a call on the disk failed; then a file may be in the
/// making, of which no byte lies outside the header's page.
pub fn make<H: Host>(host: &mut H, head: Head) -> Result<Located, DiskFailed>
    requires allowed { is_allowed head ≡ true }
    requires closed { head.state ≡ Closed }
    requires no_segment { head.segments ≡ 0 }
    requires no_index { head.index ≡ None }
    requires empty { WhereTold (H.shows host.old).file (λ f. f ≡ []) }
    ensures made { OnOk result ((H.shows host.new).file ≡ option_map (λ _. made_page head) (H.shows host.old).file) }
    ensures found { IfOk result (λ place. WhereTold (H.shows host.new).file (λ f. located f ≡ Ok place)) }
    ensures head { IfOk result (λ place. place.head ≡ head) }
    ensures settled { OnOk result (Settled (H.shows host.new)) }
    ensures tearing { Tearing the_page (H.shows host.old) (H.shows host.new) }
    ensures clock { (H.shows host.new).clock ≤ (H.shows host.old).clock + 4 }
    ensures cause { OnErr result (Rose (H.shows host.old).disk_faults (H.shows host.new).disk_faults) }
    ensures ok_faults { OnOk result ((H.shows host.new).disk_faults ≡ (H.shows host.old).disk_faults) }
{
    a_header_that_was_written_is_read();
    let page = blank_page(&head);
    put_lasting(host, 0, &page)?;
    put_lasting(host, 0, &[OPEN])?;
    Ok(Located {
        head,
        second: false,
        other_gate: false,
        whole: 0,
    })
}

/// A page whose first copy has this body; all else is zero.
fn blank_page(head: &Head) -> [u8; 4096]
    ensures { result ≡ written_at 16 (body_of head.now) (zeros page_size) }
{
    let mut page = [0; 4096];
    put_body(&mut page, &body_bytes(head));
    page
}

/// Puts a body into a page.
fn put_body(page: &mut [u8], body: &[u8; 32])
    requires { 48 ≤ length page.old }
    ensures { page.new ≡ written_at 16 body.now page.old }
{
    page[16..48].copy_from_slice(body);
}
