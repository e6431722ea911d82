//! `Source`, a reader under limits, and `Sink`, a writer that takes whole texts.
//!
//! Both remember a failure: every later call fails too. So a source's lender can ask afterwards
//! whether a read failed, and who writes many texts asks only at the end.

ghost use Rattle.std.specs.Prelude.{◌≡◌, ◌++◌, ◌+◌, ◌≤◌, ◌<◌, ◌||◌, nat_lt, true, false, ◌↔◌, Some, None, IfOk, IfErr, OnOk, OnErr, IsErr, IsOk, Ok, codes, decimal, length, take};
ghost use Rattle.std.specs.Io.{ReadsAtMost};
ghost use Rattle.std.specs.Io.KnownBytes.{Appends, ReadConsumes};
ghost use Rattle.std.specs.IoError.{error_kind};
ghost use Rattle.msrp_plan.specs.Limits.{most_bytes};
ghost use Rattle.msrp_plan.specs.Bytes.{sink_failed, sink_inner, source_failed, source_ended, source_inner, source_given, source_calls, source_remaining, is_open, is_spent, AppendsPrefix, FailsForGood, Wrote, WroteSome};
ghost use Rattle.msrp_plan.specs.Words.{verdict_text};

use crate::faults::{Fault, WriteFault};
use itoa::Buffer;
use std::alloc::AllocError;
use std::fmt::Display;
use std::io;
use std::io::{ErrorKind, Read, Write};

/// A source gives at most this many bytes.
pub const BYTE_LIMIT: u32 = 16_777_216;

/// A source calls its reader at most this many times.
pub const CALL_LIMIT: u32 = 33_554_432;

// Whether reads go on, failed, or met the end.
#[derive(Clone, Copy, Debug, PartialEq, Eq)]
enum SourceState {
    Open,
    Ended,
    Failed,
}

/// A reader that limits another in bytes and in calls, so that an endless reader is answered too.
///
/// A read fails if the reader fails (an interrupted read too) or a limit is reached, even if the
/// end would come next. After a failed read every read fails. Once the reader has met its end it
/// isn't called again. It is never asked for more bytes than the limit leaves.
#[derive(Drop)]
pub struct Source<R> {
    inner: R,
    given: u32,
    calls: u32,
    state: SourceState,
}

impl<R: Read> Source<R> {
    /// A source that has given no byte.
    pub fn new(inner: R) -> Source<R>
        ensures inner { source_inner result ≡ inner }
        ensures remaining { source_remaining R.remaining result ≡ R.remaining inner }
        ensures given { source_given result ≡ 0 }
        ensures calls { source_calls result ≡ 0 }
        ensures failed { source_failed result ≡ false }
        ensures ended { source_ended result ≡ false }
    {
        Source {
            inner,
            given: 0,
            calls: 0,
            state: SourceState::Open,
        }
    }

    /// Whether a read has failed.
    pub fn failed(&self) -> bool
        ensures { result ≡ source_failed self.now }
    {
        matches!(self.state, SourceState::Failed)
    }

    // Fails, now and in every later read.
    fn fail(&mut self) -> io::Error
        ensures kind { error_kind result ≡ ErrorKind.Other }
        ensures failed { self.new ≡ record self.old { state = SourceState.Failed } }
    {
        self.state = SourceState::Failed;
        io::Error::from(ErrorKind::Other)
    }

    // Reads from the reader, within the limits.
    fn ask(&mut self, buf: &mut [u8]) -> io::Result<usize>
        requires open { is_open self.old ≡ true }
        requires within { is_spent self.old ≡ false }
        ensures bound { ReadsAtMost result buf.new }
        ensures bytes { ReadConsumes (source_remaining R.remaining self.old) (source_remaining R.remaining self.new) result buf.new }
        ensures kind { IfErr result (λ e. error_kind e ≡ ErrorKind.Other) }
        ensures fault { OnErr result (source_failed self.new ≡ true) }
        ensures good { OnOk result (source_failed self.new ≡ false) }
        ensures called { source_calls self.new ≡ source_calls self.old + 1 }
        ensures counted { IfOk result (λ n. source_given self.new ≡ source_given self.old + n) }
        ensures limit { source_given self.new ≤ most_bytes }
        ensures end { IfOk result (λ n. (source_ended self.new ≡ true) ↔ ((n ≡ 0) × (0 < length buf.new))) }
    {
        self.calls += 1;
        let most = buf.len().min((BYTE_LIMIT - self.given) as usize);
        match self.inner.read(&mut buf[..most]) {
            Ok(0) if most > 0 => {
                self.state = SourceState::Ended;
                Ok(0)
            }
            Ok(count) => {
                self.given += count as u32;
                Ok(count)
            }
            Err(_) => Err(self.fail()),
        }
    }
}

impl<R: Read> Read for Source<R> {
    ghost remaining = { source_remaining R.remaining };

    fn read(&mut self, buf: &mut [u8]) -> io::Result<usize>
        ensures bound { ReadsAtMost result buf.new }
        ensures bytes { ReadConsumes (source_remaining R.remaining self.old) (source_remaining R.remaining self.new) result buf.new }
        ensures kind { IfErr result (λ e. error_kind e ≡ ErrorKind.Other) }

        // After a failure every read fails, and after the end each gives nothing, without a call.
        ensures fails { FailsForGood self.old self.new result }
        ensures ended { source_ended self.old ≡ true → (result ≡ Ok 0) × (self.new ≡ self.old) }

        // At a limit a read fails, even if the end would come next; the reader isn't called.
        ensures spent { is_open self.old ≡ true → is_spent self.old ≡ true → IsErr result × (source_inner self.new ≡ source_inner self.old) }

        // Otherwise the reader is called once, and what it gives is counted.
        ensures called { is_open self.old ≡ true → is_spent self.old ≡ false → source_calls self.new ≡ source_calls self.old + 1 }
        ensures counted { IfOk result (λ n. source_given self.new ≡ source_given self.old + n) }
        ensures limit { source_given self.old ≤ most_bytes → source_given self.new ≤ most_bytes }
        ensures met { is_open self.old ≡ true → IfOk result (λ n. (source_ended self.new ≡ true) ↔ ((n ≡ 0) × (0 < length buf.new))) }
    {
        match self.state {
            SourceState::Failed => Err(io::Error::from(ErrorKind::Other)),
            SourceState::Ended => Ok(0),
            SourceState::Open => {
                if self.given >= BYTE_LIMIT || self.calls >= CALL_LIMIT {
                    return Err(self.fail());
                }
                self.ask(buf)
            }
        }
    }
}

/// A writer over another, which takes a text whole or fails for good.
///
/// A write fails if the writer fails (an interrupted write too) or takes none of the remaining
/// bytes. What the writer has then is a prefix of the texts.
#[derive(Drop)]
pub struct Sink<W> {
    inner: W,
    failed: bool,
}

impl<W: Write> Sink<W> {
    /// A sink that was given nothing.
    pub fn new(inner: W) -> Sink<W>
        ensures inner { sink_inner result ≡ inner }
        ensures failed { sink_failed result ≡ false }
    {
        Sink {
            inner,
            failed: false,
        }
    }

    /// Whether a write has failed.
    pub fn failed(&self) -> bool
        ensures { result ≡ sink_failed self.now }
    {
        self.failed
    }

    /// Writes a text. `Ok` means that all of it was written.
    pub fn put(&mut self, text: &[u8]) -> Result<(), WriteFault>
        ensures whole { OnOk result (Appends (W.contents (sink_inner self.old)) (W.contents (sink_inner self.new)) text.now) }
        ensures part { OnErr result (AppendsPrefix (W.contents (sink_inner self.old)) (W.contents (sink_inner self.new)) text.now) }
        ensures good { OnOk result (sink_failed self.new ≡ false) }
        ensures fault { OnErr result (sink_failed self.new ≡ true) }
        ensures failed { sink_failed self.old ≡ true → IsErr result × (self.new ≡ self.old) }
    {
        if self.failed {
            return Err(WriteFault);
        }
        let mut at = 0usize;
        while at < text.len() {
            let count = self.put_some(&text[at..]);
            if count == 0 {
                self.failed = true;
                return Err(WriteFault);
            }
            at += count;
        }
        Ok(())
    }

    /// Writes a text, unless a write has failed or fails now; ask [`Sink::outcome`].
    pub fn add(&mut self, text: &[u8])
        ensures { Wrote W.contents self.old self.new text.now }
    {
        let _ = self.put(text);
    }

    /// Adds a field that is not the first of its record.
    pub fn field(&mut self, text: &[u8])
        ensures { Wrote W.contents self.old self.new (codes "," ++ text.now) }
    {
        self.add(b",");
        self.add(text);
    }

    /// Adds a number that is not the first field of its record.
    pub fn number(&mut self, number: u64)
        ensures { Wrote W.contents self.old self.new (codes "," ++ decimal number) }
    {
        let mut digits = Buffer::new();
        self.field(digits.format(number).as_bytes());
    }

    /// Writes a value as `{}` prints it. The text is built in `line` and replaces what was there,
    /// so one buffer serves many calls. If memory runs out, nothing is written.
    pub fn show<T: Display>(&mut self, value: &T, line: &mut String) -> Result<(), AllocError>
        ensures memory { OnErr result (self.new ≡ self.old) }
        ensures some { OnOk result (WroteSome W.contents self.old self.new) }
    {
        line.clear();
        write!(line, "{value}")?;
        self.add(line.as_bytes());
        Ok(())
    }

    /// Adds the line of a verdict.
    pub fn verdict(&mut self, found: Result<(), Fault>)
        ensures { Wrote W.contents self.old self.new (verdict_text found) }
    {
        match found {
            Ok(()) => self.add(b"good\n"),
            Err(fault) => {
                self.add(b"fault");
                self.number(u64::from(fault.row));
                self.field(fault.rule.code());
                self.add(b"\n");
            }
        }
    }

    /// Whether all writes succeeded.
    pub fn outcome(&self) -> Result<(), WriteFault>
        ensures good { OnOk result (sink_failed self.now ≡ false) }
        ensures fault { OnErr result (sink_failed self.now ≡ true) }
    {
        if self.failed { Err(WriteFault) } else { Ok(()) }
    }

    /// The writer, with what it was given.
    pub fn into_inner(self) -> W
        ensures { result ≡ sink_inner self }
    {
        self.inner
    }

    // One call of the writer: how many bytes it took, or 0 if it failed.
    fn put_some(&mut self, rest: &[u8]) -> usize
        ensures bound { result ≤ length rest.now }
        ensures bytes { Appends (W.contents (sink_inner self.old)) (W.contents (sink_inner self.new)) (take result rest.now) }
        ensures same { sink_failed self.new ≡ sink_failed self.old }
    {
        match self.inner.write(rest) {
            Ok(count) => count,
            Err(_) => 0,
        }
    }
}
