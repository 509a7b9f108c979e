//! What no clause says: that calls succeed where memory is there, and what the clauses come to at small values.
use crate::{InputWhy, Memory, Status, Words, dets_main};
use etf_codec::EtfFault;
use host_model::{MemHost, MemSource};
use std::alloc::Global;
use std::test::Fail;
use term_text::TextWhy;

/// A run of the program: its words, its input, how many bytes a read gives at most, and the reads and puts that fail.
type Run<'a> = (&'a [&'a str], &'a [u8], usize, &'a [u64], &'a [u64]);

/// The status that a run ends with, and what it said.
fn ended(alloc: Global, run: Run<'_>) -> Result<(Status, Vec<u8>), Memory> {
    let (word_list, input, most, failing_reads, failing_puts) = run;
    let mut words = Words::new(alloc);
    for word in word_list {
        words.push(word)?;
    }
    let mut source = MemSource::new(alloc, input, most.max(1), failing_reads)?;
    let mut host = MemHost::new(alloc, &[], failing_puts)?;
    let status = dets_main(alloc, &words, &mut source, &mut host);
    Ok((status, Vec::from_slice(alloc, host.said())?))
}

/// The line of the status that a run ends with, and what it said.
fn outcome(alloc: Global, run: Run<'_>) -> Result<(Vec<u8>, Vec<u8>), Memory> {
    let (status, said) = ended(alloc, run)?;
    let line = status.line(alloc)?;
    Ok((Vec::from_slice(alloc, line.as_slice())?, said))
}

const RUN: &[&str] = &["run", "t"];

const PLAIN: &[u8] = b"{c,open,[]}. {c,insert,{k,1}}. {c,lookup,k}.\n";

const SYNC_IS_NEXT: &[u8] = b"{c,open,[]}. {c,insert,{k,1}}. {c,lookup,k}. {c,sync}. {c,lookup,k}.";

const FLOAT_IS_NEXT: &[u8] = b"{c,open,[]}.\n{c,insert,{k,1.5}}.\n";

const FIRST_REPLY: &[u8] = b"{ok,table}.\n";

const PLAIN_REPLIES: &[u8] = b"{ok,table}.\nok.\n[{k,1}].\n";

const TEXT: &[&str] = &["text"];

const ENCODE: &[&str] = &["text", "encode"];

const DECODE: &[&str] = &["text", "decode"];

const TERMS: &[u8] = b"'Hello World'. [a|[b]]. \"hi\". <<1,2,3:4>>. #{b=>1,a=>2}. 'end'.";

const PRINTED: &[u8] = b"'Hello World'.\n[a,b].\n[104,105].\n<<1,2,3:4>>.\n#{a=>2,b=>1}.\n'end'.\n";

const SPELLED: &[u8] =
    b"\x83w\x0bHello World\x83l\x00\x00\x00\x02w\x01aw\x01bj\x83k\x00\x02hi\x83M\x00\x00\x00\x03\x04\x01\x020\x83t\x00\x00\x00\x02w\x01aa\x02w\x01ba\x01\x83w\x03end";

const SOURCE_FAULT: &[u8] = b"dets_tool: source fault\n";

const OUTPUT_FAULT: &[u8] = b"dets_tool: output fault\n";

const WORDS_REFUSED: &[u8] = b"dets_tool: words refused\n";

const REFUSED_AT_27: &[u8] = b"dets_tool: input refused at 27\n";

const NOT_YET_AT_3: &[u8] = b"dets_tool: not yet at command 3\n";

#[test]
fn runs_end_as_stated(rt: HostRuntime) -> Result<(), Fail> {
    let rows: [(Run<'_>, &[u8], &[u8]); 13] = [
        // the plain path, in pieces
        ((RUN, PLAIN, 7, &[], &[]), b"", PLAIN_REPLIES),
        ((RUN, b"", 4096, &[], &[]), b"", b""),
        // a command that is not built, and a text that breaks a rule
        (
            (RUN, SYNC_IS_NEXT, 4096, &[], &[]),
            NOT_YET_AT_3,
            PLAIN_REPLIES,
        ),
        (
            (RUN, FLOAT_IS_NEXT, 4096, &[], &[]),
            REFUSED_AT_27,
            FIRST_REPLY,
        ),
        // words that are no job: nothing is read or said
        ((&["run"], PLAIN, 4096, &[0], &[0]), WORDS_REFUSED, b""),
        (
            (&["text", "encode", "t"], TERMS, 4096, &[0], &[0]),
            WORDS_REFUSED,
            b"",
        ),
        // terms from one form to the other, in pieces
        ((TEXT, TERMS, 5, &[], &[]), b"", PRINTED),
        ((ENCODE, TERMS, 5, &[], &[]), b"", SPELLED),
        ((DECODE, SPELLED, 5, &[], &[]), b"", PRINTED),
        // a stream that is too short
        (
            (DECODE, b"\x83w\x01a\x83w\x02b", 2, &[], &[]),
            b"dets_tool: input refused at 8\n",
            b"a.\n",
        ),
        // a read and a put that fail; a first read of 13 bytes gives the first command
        ((RUN, PLAIN, 13, &[1], &[]), SOURCE_FAULT, FIRST_REPLY),
        // a full stop that is the last byte in front of the fault ends no command
        ((RUN, PLAIN, 12, &[1], &[]), SOURCE_FAULT, b""),
        ((RUN, PLAIN, 4096, &[], &[1]), OUTPUT_FAULT, FIRST_REPLY),
    ];
    for (run, line, said) in rows {
        let told = outcome(rt.alloc(), run)?;
        assert_eq!(rt; told.0.as_slice(), line);
        assert_eq!(rt; told.1.as_slice(), said);
    }
    Ok(())
}

#[test]
fn a_fault_of_a_spelling_is_told(rt: HostRuntime) -> Result<(), Fail> {
    let (status, said) = ended(rt.alloc(), (DECODE, b"\x83w\x02b", 2, &[], &[]))?;
    let is_told = matches!(status, Status::Input(4, InputWhy::Etf(EtfFault::Short)));
    assert!(rt; is_told);
    assert!(rt; said.is_empty());
    Ok(())
}

#[test]
fn a_fault_of_the_text_is_told(rt: HostRuntime) -> Result<(), Fail> {
    let (status, said) = ended(rt.alloc(), (RUN, FLOAT_IS_NEXT, 4096, &[], &[]))?;
    let is_told = matches!(status, Status::Input(27, InputWhy::Text(TextWhy::BadToken)));
    assert!(rt; is_told);
    assert_eq!(rt; said.as_slice(), FIRST_REPLY);
    Ok(())
}

/// The line of the status that a check of this file ends with, and what it said. A read of the input would fail.
fn checked(alloc: Global, file: &[u8]) -> Result<(Vec<u8>, Vec<u8>), Memory> {
    let mut words = Words::new(alloc);
    words.push("check")?;
    words.push("t")?;
    let mut source = MemSource::new(alloc, PLAIN, 1, &[0])?;
    let mut host = MemHost::new(alloc, file, &[])?;
    let line = dets_main(alloc, &words, &mut source, &mut host).line(alloc)?;
    Ok((
        Vec::from_slice(alloc, line.as_slice())?,
        Vec::from_slice(alloc, host.said())?,
    ))
}

/// The body of a header of a closed set with keypos 1 and one segment of at most 8,000.
const HEADER: [u8; 32] = [
    68, 84, 66, 76, 1, 0, 0, 0, 0, 0, 0, 1, 0, 0, 0, 1, 0, 0, 31, 64, 255, 255, 255, 255, 0, 0, 0,
    0, 0, 0, 0, 0,
];

const REPORT: &[u8] =
    b"{head,set,1,closed,1,8000}.\n{table,0,0}.\n{index,absent}.\n{sound,false}.\n{needs_repair,true}.\n";

const EMPTY_FILE: &[u8] = b"dets_tool: file refused: empty\n";

const NO_DETS_FILE: &[u8] = b"dets_tool: file refused: not a dets file\n";

const VERSION_9: &[u8] = b"dets_tool: file refused: version 9\n";

#[test]
fn a_file_is_checked(rt: HostRuntime) -> Result<(), Fail> {
    let mut page = vec![in rt.alloc(); 0; 4096]?;
    let none = checked(rt.alloc(), &[])?;
    assert_eq!(rt; none.0.as_slice(), EMPTY_FILE);
    let zeros = checked(rt.alloc(), &page)?;
    assert_eq!(rt; zeros.0.as_slice(), NO_DETS_FILE);
    page[0] = 165;
    page[16..48].copy_from_slice(&HEADER);
    // The segment of the header is not there.
    let cut = checked(rt.alloc(), &page)?;
    assert!(rt; cut.0.is_empty());
    assert_eq!(rt; cut.1.as_slice(), REPORT);
    page[20] = 9;
    let other = checked(rt.alloc(), &page)?;
    assert_eq!(rt; other.0.as_slice(), VERSION_9);
    assert!(rt; other.1.is_empty());
    Ok(())
}
