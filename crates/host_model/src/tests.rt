// What no clause and no stored case says: what the real ends make of a reader or a writer that fails in the middle, and
// that a real file is made, written and read back.
use crate::file_host::write_piece;
use crate::real_file::read_full;
use crate::{DiskFailed, FileHost, Host, OutFailed, Source, SourceFailed, StdSource};
use std::alloc::Allocator;
use std::io::{BufRead, ErrorKind, Lines, Read, Write};
use std::test::Fail;
use std::{fs, io};

// A runtime whose input is interrupted, gives two bytes, fails, gives two bytes more and then ends.
#[derive(Clone, Copy)]
struct Uneven;

#[derive(Drop)]
struct UnevenReader {
    reads: u8,
}

impl Input for Uneven {
    type Reader = UnevenReader;

    fn read_line<A: Allocator + Clone>(&self, _buf: &mut String<A>) -> io::Result<usize> {
        Err(io::Error::from(ErrorKind::Unsupported))
    }

    fn lines<A: Allocator>(&self, alloc: A) -> Lines<UnevenReader, A> {
        self.reader().lines(alloc)
    }

    fn reader(&self) -> UnevenReader {
        UnevenReader { reads: 0 }
    }
}

impl Read for UnevenReader {
    fn read(&mut self, buf: &mut [u8]) -> io::Result<usize> {
        self.reads = self.reads.saturating_add(1);
        match self.reads {
            1 => Err(io::Error::from(ErrorKind::Interrupted)),
            2 => b"ab".as_slice().read(buf),
            3 => Err(io::Error::from(ErrorKind::BrokenPipe)),
            4 => b"cd".as_slice().read(buf),
            _ => Ok(0),
        }
    }
}

impl BufRead for UnevenReader {
    fn fill_buf(&mut self) -> io::Result<&[u8]> {
        Ok(&[])
    }

    fn consume(&mut self, _amount: usize) {}
}

#[test]
fn a_source_and_a_buffer_go_on_after_an_interruption(rt: HostRuntime) -> Result<(), Fail> {
    let mut source = StdSource::new(&Uneven)?;
    let mut buf = [0; 8];
    for answer in [Ok(2), Err(SourceFailed), Ok(2), Ok(0)] {
        assert_eq!(rt; source.read(&mut buf), answer);
    }
    assert_eq!(rt; buf, *b"cd\0\0\0\0\0\0");
    let mut reader = Uneven.reader();
    let mut pair = [0; 2];
    assert_eq!(rt; read_full(&mut reader, &mut pair), Ok(()));
    assert_eq!(rt; pair, *b"ab");
    assert_eq!(rt; read_full(&mut reader, &mut pair), Err(DiskFailed));
    assert_eq!(rt; read_full(&mut reader, &mut [0; 3]), Err(DiskFailed));
    Ok(())
}

// A writer that takes two bytes a write, is interrupted once, and takes nothing from some write on.
#[derive(Drop)]
struct Slow {
    taken: Vec<u8>,
    writes: u8,
    stops_at: u8,
}

impl Write for Slow {
    fn write(&mut self, buf: &[u8]) -> io::Result<usize> {
        self.writes = self.writes.saturating_add(1);
        if self.writes == 2 {
            return Err(io::Error::from(ErrorKind::Interrupted));
        }
        if self.writes >= self.stops_at {
            return Ok(0);
        }
        let n = buf.len().min(2);
        self.taken.extend_from_slice(&buf[..n])?;
        Ok(n)
    }

    fn flush(&mut self) -> io::Result<()> {
        Ok(())
    }
}

#[test]
fn a_piece_is_written_on_and_stops_at_a_write_that_takes_nothing(
    rt: HostRuntime,
) -> Result<(), Fail> {
    let whole: (u8, Result<(), OutFailed>, &[u8]) = (9, Ok(()), b"abcde");
    let cut: (u8, Result<(), OutFailed>, &[u8]) = (4, Err(OutFailed), b"abcd");
    for (stops_at, answer, taken) in [whole, cut] {
        let mut slow = Slow {
            taken: Vec::new(rt.alloc()),
            writes: 0,
            stops_at,
        };
        assert_eq!(rt; write_piece(&mut slow, b"abcde"), answer);
        assert_eq!(rt; slow.taken.as_slice(), taken);
    }
    Ok(())
}

#[test]
fn a_real_file_is_made_written_and_read_back(rt: HostRuntime) -> Result<(), Fail> {
    let name = "host_model_real_file";
    let _ = fs::remove_file(&rt, name);
    let mut host = FileHost::new(&rt, rt.alloc(), Some(name))?;
    assert_eq!(rt; host.len(), Ok(0));
    assert_eq!(rt; host.sync(), Ok(()));
    assert_eq!(rt; host.read_at(0, &mut [0]), Err(DiskFailed));
    assert_eq!(rt; host.write_at(0, b"abcdef"), Ok(()));
    assert_eq!(rt; host.write_at(6, b"ghij"), Ok(()));
    assert_eq!(rt; host.sync(), Ok(()));
    assert_eq!(rt; host.write_at(2, b"XY"), Ok(()));
    assert_eq!(rt; host.len(), Ok(10));
    assert_eq!(rt; host.read_at(4, &mut [0; 7]), Err(DiskFailed));
    let mut again = FileHost::new(&rt, rt.alloc(), Some(name))?;
    let mut buf = [0; 10];
    assert_eq!(rt; again.read_at(0, &mut buf), Ok(()));
    assert_eq!(rt; buf, *b"abXYefghij");
    assert_eq!(rt; again.put(b"a piece of output\n"), Ok(()));
    fs::remove_file(&rt, name)?;
    Ok(())
}
