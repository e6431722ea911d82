//! Records over readers that fail or return a text in pieces.

use csv::ByteRecord;
use msrp_text::records::{RecordReader, Stopped};
use std::alloc::Global;
use std::io;
use std::io::{ErrorKind, Read};
use std::test::Fail;

// Returns its text a byte a call, and fails at one call.
#[derive(Drop)]
pub(crate) struct Halting<'a> {
    text: &'a [u8],
    at: usize,
    call: u32,
    fails_at: u32,
}

pub(crate) fn halt_at(text: &[u8], fails_at: u32) -> Halting<'_> {
    Halting {
        text,
        at: 0,
        call: 0,
        fails_at,
    }
}

impl<'a> Read for Halting<'a> {
    fn read(&mut self, buf: &mut [u8]) -> io::Result<usize> {
        self.call = self.call.saturating_add(1);
        if self.call == self.fails_at {
            return Err(io::Error::from(ErrorKind::Interrupted));
        }
        match (self.text.get(self.at), buf.first_mut()) {
            (Some(byte), Some(place)) => {
                *place = *byte;
                self.at = self.at.saturating_add(1);
                Ok(1)
            }
            _ => Ok(0),
        }
    }
}

#[test]
fn a_reader_that_stopped_stays_stopped(rt: HostRuntime) {
    let mut records = RecordReader::new(rt.alloc(), halt_at(b"a,b\nc\n", 6));
    let mut row = ByteRecord::new(rt.alloc());
    assert!(rt; matches!(records.read(&mut row), Ok(true)));
    assert_eq!(rt; row.len(), 2);
    assert!(rt; matches!(records.read(&mut row), Err(Stopped::Read)));
    assert!(rt; matches!(records.read(&mut row), Err(Stopped::Read)));
}

#[test]
fn records_end_for_good(rt: HostRuntime) {
    let mut records = RecordReader::new(rt.alloc(), b"a,b\n\n\"c\"".as_slice());
    let mut row = ByteRecord::new(rt.alloc());
    assert!(rt; matches!(records.read(&mut row), Ok(true)));
    assert!(rt; matches!(records.read(&mut row), Ok(true)));
    assert_eq!(rt; row.len(), 1);
    assert!(rt; matches!(records.read(&mut row), Ok(false)));
    assert!(rt; matches!(records.read(&mut row), Ok(false)));
}

// Returns this many bytes of its text a call.
#[derive(Drop)]
struct Pieces<'a> {
    text: &'a [u8],
    size: usize,
}

impl<'a> Read for Pieces<'a> {
    fn read(&mut self, buf: &mut [u8]) -> io::Result<usize> {
        let size = self.size.min(buf.len());
        self.text.read(&mut buf[..size])
    }
}

// Adds a record to a text: a bar after each field, and a slash at the end.
fn tell(told: &mut Vec<u8>, row: &ByteRecord) -> Result<(), Fail> {
    for place in 0..row.len() {
        if let Some(field) = row.get(place) {
            told.extend_from_slice(field)?;
            told.push(b'|')?;
        }
    }
    told.push(b'/')?;
    Ok(())
}

// The remaining records, as `tell` writes them, and an exclamation mark if the reader stops early.
fn records_told<R: Read>(alloc: Global, records: &mut RecordReader<R>) -> Result<Vec<u8>, Fail> {
    let mut row = ByteRecord::new(alloc);
    let mut told = Vec::new(alloc);
    for _ in 0..u64::MAX {
        match records.read(&mut row) {
            Ok(true) => tell(&mut told, &row)?,
            Ok(false) => break,
            Err(_) => {
                told.push(b'!')?;
                break;
            }
        }
    }
    Ok(told)
}

// Texts, and their records as `tell` writes them.
const TOLD: [(&[u8], &[u8]); 8] = [
    (
        b"a,b\nc,,d\r\n1\n,\nlast,one",
        b"a|b|/c||d|/1|/||/last|one|/",
    ),
    (b"\xef\xbb\xbfa,b\nc\n", b"a|b|/c|/"),
    (b"\xef\xbba\nc\n", b"\xef\xbba|/c|/"),
    (b"a\n\xef\xbb\xbfb,c\nd,e\n", b"a|/\xef\xbb\xbfb|c|/d|e|/"),
    (
        b"a\n\"x,\ny\",z\n\xef\xbb\xbfq\"r\rs,t,u\nv",
        b"a|/x,\ny|z|/\xef\xbb\xbfq\"r|/s|t|u|/v|/",
    ),
    (b"a,b\r\r\nc\n\n\r\nd,e\n", b"a|b|/c|/d|e|/"),
    (b"a\r\nb\r\nc\rd\n", b"a|/b|/c|/d|/"),
    (b"\n\r\n", b""),
];

// The records of a text that is read in pieces of this size.
fn told_in_pieces(alloc: Global, text: &[u8], size: usize) -> Result<Vec<u8>, Fail> {
    let mut records = RecordReader::new(alloc, Pieces { text, size });
    records_told(alloc, &mut records)
}

// The records of a text with one failing read, and those that are left then.
fn told_twice(alloc: Global, text: &[u8], call: u32) -> Result<(Vec<u8>, Vec<u8>), Fail> {
    let mut records = RecordReader::new(alloc, halt_at(text, call));
    let told = records_told(alloc, &mut records)?;
    Ok((told, records_told(alloc, &mut records)?))
}

#[test]
fn records_in_pieces(rt: HostRuntime) -> Result<(), Fail> {
    for (text, due) in TOLD {
        for size in 1..=9usize {
            let told = told_in_pieces(rt.alloc(), text, size)?;
            assert!(rt; told.as_slice() == due, "{size}");
        }
    }
    Ok(())
}

// Each record that is complete before the failing read is returned; then each read fails.
#[test]
fn records_before_a_read_fails(rt: HostRuntime) -> Result<(), Fail> {
    let text = b"a,b\r\nc\n\"d\"\ne\n";
    let due: [&[u8]; 17] = [
        b"!",
        b"!",
        b"!",
        b"!",
        b"a|b|/!",
        b"a|b|/!",
        b"a|b|/!",
        b"a|b|/c|/!",
        b"a|b|/c|/!",
        b"a|b|/c|/!",
        b"a|b|/c|/!",
        b"a|b|/c|/d|/!",
        b"a|b|/c|/d|/!",
        b"a|b|/c|/d|/e|/!",
        b"a|b|/c|/d|/e|/",
        b"a|b|/c|/d|/e|/",
        b"a|b|/c|/d|/e|/",
    ];
    for (call, told) in (1u32..).zip(due) {
        let (found, again) = told_twice(rt.alloc(), text, call)?;
        assert!(rt; found.as_slice() == told, "{call}");
        assert!(rt;
            !told.ends_with(b"!") || again.as_slice() == b"!".as_slice(),
            "{call}"
        );
    }
    Ok(())
}

// Lines across the end of what is read ahead, and one just too long to be taken as it is.
#[test]
fn records_over_the_border(rt: HostRuntime) -> Result<(), Fail> {
    let mut text = Vec::new(rt.alloc());
    let mut due = Vec::new(rt.alloc());
    for _ in 0..1200u32 {
        text.extend_from_slice(b"12345,1,spin,b,0,g\n")?;
        due.extend_from_slice(b"12345|1|spin|b|0|g|/")?;
    }
    for _ in 0..300u32 {
        text.push(b'x')?;
        due.push(b'x')?;
    }
    text.extend_from_slice(b",y\nz\n")?;
    due.extend_from_slice(b"|y|/z|/")?;
    for size in [1usize, 7, 9, 4096, 16_383, 16_384, 100_000] {
        let told = told_in_pieces(rt.alloc(), text.as_slice(), size)?;
        assert!(rt; told == due, "{size}");
    }
    Ok(())
}

// Takes the next line if it is a text, a digit between commas, and the rest with a line feed.
fn meets<R: Read>(records: &mut RecordReader<R>, front: &[u8], line: &[u8]) -> bool {
    records.digit_after(front).is_some() && records.meets_behind(front, line)
}

// Whether a line is met after a first record, and the later records.
fn met_after_one(
    alloc: Global,
    text: &[u8],
    front: &[u8],
    line: &[u8],
) -> Result<(bool, Vec<u8>), Fail> {
    let mut records = RecordReader::new(alloc, text);
    let mut row = ByteRecord::new(alloc);
    if records.read(&mut row) != Ok(true) {
        return Err(Fail::new("no record"));
    }
    let met = meets(&mut records, front, line);
    Ok((met, records_told(alloc, &mut records)?))
}

// A text, a line in two parts, whether it is met, and the records left.
const FORESEEN: [(&[u8], &[u8], &[u8], bool, &[u8]); 14] = [
    (b"1\nab,2,c\nd", b"ab", b",2,c\n", true, b"d|/"),
    (b"1\nab,2,c\r\nd", b"ab", b",2,c\n", true, b"d|/"),
    (b"1\r\n,2,c\nd", b"", b",2,c\n", true, b"d|/"),
    (b"1\nab,2,c\n", b"ab", b",2,c\n", true, b""),
    (b"1\nab,2,c\nd", b"ab", b",2,\n", false, b"ab|2|c|/d|/"),
    (b"1\nab,2,c\nd", b"ab", b",2,cd\n", false, b"ab|2|c|/d|/"),
    (b"1\nab,2,c\nd", b"a", b"b,2,c\n", false, b"ab|2|c|/d|/"),
    (b"1\nab,2,c\nd", b"ab", b",2,c\nd\n", false, b"ab|2|c|/d|/"),
    (b"1\nab,2,c\rd", b"ab", b",2,c\n", true, b"d|/"),
    (b"1\nab,2,c\r", b"ab", b",2,c\n", true, b""),
    (b"1\nab,2,c", b"ab", b",2,c\n", false, b"ab|2|c|/"),
    (b"1\nab,x,c\nd", b"ab", b",x,c\n", false, b"ab|x|c|/d|/"),
    (b"1\nab,2,c\nd", b"ab", b",2,c", false, b"ab|2|c|/d|/"),
    (b"\"1\"\nab,2,c\nd", b"ab", b",2,c\n", false, b"ab|2|c|/d|/"),
];

#[test]
fn foreseen_lines_are_met_whole(rt: HostRuntime) -> Result<(), Fail> {
    for (text, front, line, met, told) in FORESEEN {
        let found = met_after_one(rt.alloc(), text, front, line)?;
        assert_eq!(rt; found.0, met);
        assert!(rt; found.1.as_slice() == told);
    }
    Ok(())
}

// A text, and its lines in two parts, each with a line feed.
const LINES: (&[u8], [(&[u8], &[u8]); 6]) = (
    b"1,1,a\n2,1,bc\r\n3,1,d\n4,1,e\n5,1,f\r\n6,1,\n",
    [
        (b"1", b",1,a\n"),
        (b"2", b",1,bc\n"),
        (b"3", b",1,d\n"),
        (b"4", b",1,e\n"),
        (b"5", b",1,f\n"),
        (b"6", b",1,\n"),
    ],
);

// The number of lines met, with reads of this size.
fn lines_met(alloc: Global, size: usize) -> Result<usize, Fail> {
    let (text, lines) = LINES;
    let mut records = RecordReader::new(alloc, Pieces { text, size });
    let mut row = ByteRecord::new(alloc);
    let mut met = 0usize;
    for (front, line) in lines {
        if meets(&mut records, front, line) {
            met = met.saturating_add(1);
        }
    }
    match records.read(&mut row) {
        Ok(false) => Ok(met),
        _ => Err(Fail::new("more records")),
    }
}

// With reads of every size all lines are met, even lines read in parts.
#[test]
fn foreseen_lines_in_pieces(rt: HostRuntime) -> Result<(), Fail> {
    for size in 1..=40usize {
        let met = lines_met(rt.alloc(), size)?;
        assert!(rt; met == 6, "{size}");
    }
    Ok(())
}
