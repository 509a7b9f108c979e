//! The lines that tell what a file is found to be.
ghost use Rattle.std.specs.Prelude.{◌≡◌, ◌++◌, codes, OnOk, IfOk};
ghost use Rattle.std.specs.List.{flat_map};
ghost use Rattle.dets_tool.specs.Report.{kind_word, state_word, index_word, bool_word, then_word as after_word, then_number as after_number};
ghost use Rattle.dets_tool.specs.Report.{line_of, head_line, table_line, then_reason, reject_line, index_line, bool_line, report_lines};

use crate::Memory;
use dets_term::ByteList;
use file_model::{FileState, Head, Reason, Reject};
use itoa::Buffer;
use repair_scan::{IndexState, Rejects, Report};
use std::alloc::Global;
use term_model::Kind;

/// All lines of a report, in order.
pub(crate) fn report_lines(alloc: Global, report: &Report) -> Result<ByteList, Memory>
    ensures { IfOk result (λ lines. lines ≡ report_lines report.now) }
{
    let mut lines = ByteList::new(alloc);
    put_head(&mut lines, &report.located.head)?;
    put_table(&mut lines, report.keys, report.objects)?;
    put_rejects(&mut lines, &report.rejects)?;
    put_line(&mut lines, b"index", index_word(report.index))?;
    put_line(&mut lines, b"sound", bool_word(report.sound))?;
    put_line(&mut lines, b"needs_repair", bool_word(report.needs_repair))?;
    Ok(lines)
}

fn put_head(lines: &mut ByteList, head: &Head) -> Result<(), Memory>
    ensures { OnOk result (lines.new ≡ lines.old ++ head_line head.now) }
{
    lines.extend_from_slice(b"{head")?;
    put_word(lines, kind_word(head.kind))?;
    put_number(lines, head.keypos as u64)?;
    put_word(lines, state_word(head.state))?;
    put_number(lines, head.segments as u64)?;
    put_number(lines, head.max_segments as u64)?;
    end_line(lines)
}

fn put_table(lines: &mut ByteList, keys: u32, objects: u64) -> Result<(), Memory>
    ensures { OnOk result (lines.new ≡ lines.old ++ table_line keys objects) }
{
    lines.extend_from_slice(b"{table")?;
    put_number(lines, keys as u64)?;
    put_number(lines, objects)?;
    end_line(lines)
}

fn put_rejects(lines: &mut ByteList, rejects: &Rejects) -> Result<(), Memory>
    ensures { OnOk result (lines.new ≡ lines.old ++ flat_map reject_line rejects.now) }
{
    for reject in rejects.as_slice() {
        put_reject(lines, reject)?;
    }
    Ok(())
}

fn put_reject(lines: &mut ByteList, reject: &Reject) -> Result<(), Memory>
    ensures { OnOk result (lines.new ≡ lines.old ++ reject_line reject.now) }
{
    lines.extend_from_slice(b"{reject")?;
    put_number(lines, reject.unit as u64)?;
    put_reason(lines, reject.reason)?;
    end_line(lines)
}

/// A reason, with the other unit where it has one.
fn put_reason(lines: &mut ByteList, reason: Reason) -> Result<(), Memory>
    ensures { OnOk result (lines.new ≡ lines.old ++ then_reason reason) }
{
    match reason {
        Reason::BadHead => put_word(lines, b"bad_head"),
        Reason::NotAligned => put_word(lines, b"not_aligned"),
        Reason::BadPayload => put_word(lines, b"bad_payload"),
        Reason::Overlaps(other) => {
            put_word(lines, b"overlaps")?;
            put_number(lines, other as u64)
        }
        Reason::KeyTaken(other) => {
            put_word(lines, b"key_taken")?;
            put_number(lines, other as u64)
        }
    }
}

/// A line of a name and one word.
fn put_line(lines: &mut ByteList, name: &[u8], word: &[u8]) -> Result<(), Memory>
    ensures { OnOk result (lines.new ≡ lines.old ++ line_of name.now (after_word word.now)) }
{
    lines.push(b'{')?;
    lines.extend_from_slice(name)?;
    put_word(lines, word)?;
    end_line(lines)
}

/// One more element of a line.
fn put_word(lines: &mut ByteList, word: &[u8]) -> Result<(), Memory>
    ensures { OnOk result (lines.new ≡ lines.old ++ after_word word.now) }
{
    lines.push(b',')?;
    lines.extend_from_slice(word)
}

/// One more element, a number in decimal digits.
fn put_number(lines: &mut ByteList, number: u64) -> Result<(), Memory>
    ensures { OnOk result (lines.new ≡ lines.old ++ after_number number) }
{
    put_word(lines, Buffer::new().format(number).as_bytes())
}

fn end_line(lines: &mut ByteList) -> Result<(), Memory>
    ensures { OnOk result (lines.new ≡ lines.old ++ codes "}.\n") }
{
    lines.extend_from_slice(b"}.\n")
}

fn kind_word(kind: Kind) -> &'static [u8]
    ensures { result.now ≡ kind_word kind }
{
    match kind {
        Kind::Set => b"set",
        Kind::Bag => b"bag",
        Kind::DuplicateBag => b"duplicate_bag",
    }
}

fn state_word(state: FileState) -> &'static [u8]
    ensures { result.now ≡ state_word state }
{
    match state {
        FileState::Closed => b"closed",
        FileState::Dirty => b"dirty",
    }
}

fn index_word(index: IndexState) -> &'static [u8]
    ensures { result.now ≡ index_word index }
{
    match index {
        IndexState::Absent => b"absent",
        IndexState::Agrees => b"agrees",
        IndexState::Differs => b"differs",
    }
}

fn bool_word(value: bool) -> &'static [u8]
    ensures { result.now ≡ bool_word value }
{
    if value { b"true" } else { b"false" }
}
