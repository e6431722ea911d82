//! Sources and sinks over readers and writers that fail, that end, and that exceed the limits.

use msrp_plan::bytes::{Sink, Source};
use std::alloc::Global;
use std::io;
use std::io::{ErrorKind, Read, Write};

// The limit of a source's bytes, as docs/FORMATS.md has it.
const MOST_BYTES: usize = 16_777_216;

// A reader with a number of bytes, a limit of each call, and one call that fails. It counts its
// calls and stores the greatest room that it was lent.
#[derive(Drop)]
struct Halting {
    left: usize,
    most: usize,
    fails_at: u32,
    calls: u32,
    room: usize,
}

impl Read for Halting {
    fn read(&mut self, buf: &mut [u8]) -> io::Result<usize> {
        self.calls = self.calls.saturating_add(1);
        self.room = self.room.max(buf.len());
        if self.calls == self.fails_at {
            return Err(io::Error::from(ErrorKind::Interrupted));
        }
        let count = buf.len().min(self.most).min(self.left);
        buf[..count].fill(b'x');
        self.left = self.left.saturating_sub(count);
        Ok(count)
    }
}

// A reader of this many bytes, with a limit of each call.
fn reader_of(left: usize, most: usize) -> Halting {
    Halting {
        left,
        most,
        fails_at: 0,
        calls: 0,
        room: 0,
    }
}

// Reads to the end in at most this many calls: the number of bytes, or none after a failed read.
fn read_all<R: Read>(source: &mut Source<R>, buf: &mut [u8], tries: u32) -> Option<usize> {
    let mut total = 0usize;
    for _ in 0..tries {
        match source.read(buf) {
            Ok(0) => return Some(total),
            Ok(count) => total = total.saturating_add(count),
            Err(_) => return None,
        }
    }
    None
}

// A writer with a limit of each call. In one call it takes nothing, and fails or not.
#[derive(Drop)]
struct Faltering {
    got: Vec<u8>,
    most: usize,
    calls: usize,
    stops_at: usize,
    fails: bool,
}

impl Write for Faltering {
    fn write(&mut self, buf: &[u8]) -> io::Result<usize> {
        self.calls = self.calls.saturating_add(1);
        if self.calls == self.stops_at {
            return if self.fails {
                Err(io::Error::from(ErrorKind::Interrupted))
            } else {
                Ok(0)
            };
        }
        let count = buf.len().min(self.most);
        self.got.extend_from_slice(&buf[..count])?;
        Ok(count)
    }

    fn flush(&mut self) -> io::Result<()> {
        Ok(())
    }
}

fn writer_of(alloc: Global, most: usize, stops_at: usize, fails: bool) -> Faltering {
    Faltering {
        got: Vec::new(alloc),
        most,
        calls: 0,
        stops_at,
        fails,
    }
}

#[test]
fn gives_what_the_reader_has(rt: HostRuntime) {
    for most in [1, 3, 64] {
        let mut reader = reader_of(10, most);
        let mut source = Source::new(&mut reader);
        assert_eq!(rt; read_all(&mut source, &mut [0; 8], 20), Some(10));
        assert!(rt; !source.failed());
    }
    let mut source = Source::new(&b"text"[..]);
    let mut buf = [0; 8];
    assert!(rt; matches!(source.read(&mut buf), Ok(4)));
    assert!(rt; &buf[..4] == &b"text"[..]);
}

#[test]
fn each_read_fails_in_turn(rt: HostRuntime) {
    for call in 1..=11 {
        let mut reader = Halting {
            fails_at: call,
            ..reader_of(10, 1)
        };
        let mut source = Source::new(&mut reader);
        assert_eq!(rt; read_all(&mut source, &mut [0; 8], 20), None);
        assert!(rt; source.failed());
        assert!(rt;
            source
                .read(&mut [0; 8])
                .is_err_and(|e| e.kind() == ErrorKind::Other)
        );
        assert_eq!(rt; reader.calls, call);
    }
}

#[test]
fn the_end_is_met_once(rt: HostRuntime) {
    let mut reader = reader_of(2, 8);
    let mut source = Source::new(&mut reader);
    let nothing = source.read(&mut []).ok();
    let all = read_all(&mut source, &mut [0; 8], 3);
    let end = read_all(&mut source, &mut [0; 8], 3);
    assert_eq!(rt; [nothing, all, end], [Some(0), Some(2), Some(0)]);
    assert!(rt; !source.failed() && reader.calls == 3);
}

#[test]
fn bytes_are_limited(rt: HostRuntime) {
    let mut buf = [0; 65_000];
    let fits = read_all(
        &mut Source::new(reader_of(MOST_BYTES - 1, MOST_BYTES)),
        &mut buf,
        1000,
    );
    assert_eq!(rt; fits, Some(MOST_BYTES - 1));
    let mut reader = reader_of(MOST_BYTES, MOST_BYTES);
    let mut source = Source::new(&mut reader);
    assert_eq!(rt; read_all(&mut source, &mut buf, 1000), None);
    assert!(rt; source.failed() && reader.left == 0);
}

// A reader without end is read up to the limit.
#[test]
fn endless_bytes_are_limited(rt: HostRuntime) {
    let mut buf = [0; 65_000];
    let mut endless = reader_of(usize::MAX, usize::MAX);
    assert_eq!(rt;
        read_all(&mut Source::new(&mut endless), &mut buf, 1000),
        None
    );
    assert_eq!(rt; endless.left, usize::MAX - MOST_BYTES);
}

#[test]
fn writes_whole_texts(rt: HostRuntime) {
    for most in [1, 3, 64] {
        let mut writer = writer_of(rt.alloc(), most, 0, true);
        let mut sink = Sink::new(&mut writer);
        assert!(rt; sink.put(b"legal").is_ok());
        sink.add(b"");
        sink.add(b" run");
        assert!(rt; sink.outcome().is_ok() && !sink.failed());
        assert!(rt; writer.got.as_slice() == b"legal run".as_slice());
    }
}

// Whether a text is written up to the call that stops, and no later call is made.
fn stops_for_good(alloc: Global, text: &[u8], taken: usize, fails: bool) -> bool {
    let mut writer = writer_of(alloc, 1, taken.saturating_add(1), fails);
    let mut sink = Sink::new(&mut writer);
    sink.add(text);
    let failed = sink.failed() && sink.outcome().is_err();
    sink.add(b"x");
    let still = sink.put(b"").is_err();
    let written = writer.got.as_slice();
    failed
        && still
        && writer.calls == taken.saturating_add(1)
        && text.starts_with(written)
        && written.len() == taken
}

// A failed write isn't tried again, though the writer would take it.
#[test]
fn each_write_fails_in_turn(rt: HostRuntime) {
    for taken in 0..9usize {
        for fails in [true, false] {
            assert!(rt;
                stops_for_good(rt.alloc(), b"legal run", taken, fails),
                "{taken}"
            );
        }
    }
}
