//! Tests on trace text: worked traces, rows compared by their text, and readers that have ended.

use crate::text::halt_at;
use msrp_plan::bytes::{Sink, Source};
use msrp_plan::{Plan, Row, TextVersion, Trace};
use msrp_text::read_plan;
use msrp_trace::{RowTexts, TraceError, TraceFault, TraceReader, are_named, is_named, write_trace};
use std::alloc::Global;
use std::io::{Read, Write};
use std::test::Fail;

// ---- the plan

// Two cores and one resource, which task a of core 0 and task b of core 1 request in tick 0.
const PLAN: &[u8] =
    b"msrp,1\ncores,2\nticks,6\nresource,g\ntask,a,0,20,8,0\nop,lock,g\nop,run,1\nop,unlock,g\ntask,b,1,20,8,0\nop,lock,g\nop,run,1\nop,unlock,g\n";

fn handover(alloc: Global) -> Result<Plan, Fail> {
    match read_plan(alloc, &mut Source::new(PLAN)) {
        Ok(plan) => Ok(plan),
        Err(_) => Err(Fail::new("plan")),
    }
}

// ---- worked traces

const VERSION_ONE: &[u8] =
    b"msrp-trace,1,2,6\n0,0,take,a,0,g\n0,1,queue,b,0,g\n1,0,run,a,0,-\n1,1,spin,b,0,g\n2,0,release,a,0,g\n2,1,grant,b,0,g\n3,0,idle,-,-,-\n3,1,run,b,0,-\n4,0,idle,-,-,-\n4,1,release,b,0,g\n5,0,idle,-,-,-\n5,1,idle,-,-,-\n";

const VERSION_TWO: &[u8] =
    b"msrp-trace,2,2,6\n0,0,take,a,0,g,-\n0,1,queue,b,0,g,1\n1,0,run,a,0,-,-\n1,1,spin,b,0,g,-\n2,0,release,a,0,g,-\n2,1,grant,b,0,g,-\n3,0,idle,-,-,-,-\n3,1,run,b,0,-,-\n4,0,idle,-,-,-,-\n4,1,release,b,0,g,-\n5,0,idle,-,-,-,-\n5,1,idle,-,-,-,-\n";

// The remaining rows of a reader, or its refusal.
fn rows_left<R: Read>(alloc: Global, reader: &mut TraceReader<'_, R>) -> Result<Trace, TraceError> {
    let mut rows = Vec::new(alloc);
    for _ in 0..u64::MAX {
        match reader.next_row()? {
            Some(row) => {
                if rows.push(row).is_err() {
                    return Err(TraceError::Memory);
                }
            }
            None => break,
        }
    }
    Ok(Trace { rows })
}

// The rows of a text up to its end, or its refusal.
fn read_all<R: Read>(
    alloc: Global,
    source: &mut Source<R>,
    plan: &Plan,
) -> Result<Trace, TraceError> {
    let mut reader = TraceReader::new(alloc, source, plan)?;
    let answer = rows_left(alloc, &mut reader);
    drop(reader);
    answer
}

fn read_text(alloc: Global, text: &[u8], plan: &Plan) -> Result<Trace, TraceError> {
    let mut source = Source::new(text);
    read_all(alloc, &mut source, plan)
}

// Writes a trace if its text can be written; whether it was.
fn write_all<W: Write>(
    writer: &mut Sink<W>,
    plan: &Plan,
    trace: &Trace,
    version: TextVersion,
) -> bool {
    if !are_named(plan, trace) {
        return false;
    }
    match version {
        TextVersion::V1 => write_trace(writer, plan, trace, version).is_ok(),
        TextVersion::V2 => {
            trace.carries_ahead() && write_trace(writer, plan, trace, version).is_ok()
        }
    }
}

// A text, a version, and the text written in that version.
const AGAIN: [(&[u8], TextVersion, &[u8]); 3] = [
    (VERSION_ONE, TextVersion::V1, VERSION_ONE),
    (VERSION_TWO, TextVersion::V2, VERSION_TWO),
    (VERSION_TWO, TextVersion::V1, VERSION_ONE),
];

#[test]
fn texts_are_read_and_written_again(rt: HostRuntime) -> Result<(), Fail> {
    let alloc = rt.alloc();
    let plan = handover(alloc)?;
    for (text, version, written) in AGAIN {
        let Ok(trace) = read_text(alloc, text, &plan) else {
            return Err(Fail::new("refused"));
        };
        let mut bytes = Vec::new(alloc);
        let mut sink = Sink::new(&mut bytes);
        assert!(rt; write_all(&mut sink, &plan, &trace, version));
        assert!(rt; bytes.as_slice() == written);
    }
    Ok(())
}

// Whether each of these rows in turn is met by its own text, once made, and in its own tick only.
fn meets_each<R: Read>(plan: &Plan, reader: &mut TraceReader<'_, R>, rows: &[Row]) -> bool {
    for row in rows.iter() {
        let mut texts = RowTexts::new(plan, reader.version());
        if reader.core_ahead(row.tick.saturating_add(1)).is_some() {
            return false;
        }
        if reader.core_ahead(row.tick) != Some(row.core) || !is_named(plan, row) {
            return false;
        }
        if reader.comes_behind(row.tick, &texts, row.core) {
            return false;
        }
        texts.show(row);
        if !reader.comes_behind(row.tick, &texts, row.core) {
            return false;
        }
    }
    true
}

// Whether a reader of a text meets all its rows.
fn is_met(alloc: Global, text: &[u8], plan: &Plan) -> Result<bool, TraceError> {
    let trace = read_text(alloc, text, plan)?;
    let mut source = Source::new(text);
    let mut reader = TraceReader::new(alloc, &mut source, plan)?;
    let met = meets_each(plan, &mut reader, trace.rows.as_slice());
    drop(reader);
    Ok(met)
}

#[test]
fn foreseen_rows_are_met(rt: HostRuntime) -> Result<(), Fail> {
    let alloc = rt.alloc();
    let plan = handover(alloc)?;
    for text in [VERSION_ONE, VERSION_TWO] {
        let met = is_met(alloc, text, &plan);
        assert!(rt; met == Ok(true));
    }
    Ok(())
}

#[test]
fn version_one_has_no_aheads_to_write(rt: HostRuntime) -> Result<(), Fail> {
    let alloc = rt.alloc();
    let plan = handover(alloc)?;
    let Ok(trace) = read_text(alloc, VERSION_ONE, &plan) else {
        return Err(Fail::new("refused"));
    };
    assert!(rt; !trace.carries_ahead());
    Ok(())
}

#[test]
fn faults_have_their_codes(rt: HostRuntime) {
    let table = [
        (TraceFault::Head, 1),
        (TraceFault::Name, 5),
        (TraceFault::Memory, 8),
    ];
    for (fault, code) in table {
        assert!(rt; fault.code() == code);
    }
}

// Whether a trace can be opened with one failing read, where each read returns a byte.
fn opens(alloc: Global, plan: &Plan, call: u32) -> Result<(), TraceError> {
    let mut source = Source::new(halt_at(VERSION_ONE, call));
    let reader = TraceReader::new(alloc, &mut source, plan)?;
    drop(reader);
    Ok(())
}

// The first record has 17 bytes.
#[test]
fn a_first_record_that_cannot_be_read(rt: HostRuntime) -> Result<(), Fail> {
    let plan = handover(rt.alloc())?;
    for call in 1..=17u32 {
        assert!(rt;
            opens(rt.alloc(), &plan, call) == Err(TraceError::Read),
            "{call}"
        );
    }
    assert!(rt; opens(rt.alloc(), &plan, 18) == Ok(()));
    Ok(())
}

#[test]
fn a_refused_reader_stays_refused(rt: HostRuntime) -> Result<(), Fail> {
    let alloc = rt.alloc();
    let plan = handover(alloc)?;
    let text: &[u8] = b"msrp-trace,1,2,6\n0,0,take,a,0,g\n0,1\n1,0,run,a,0,-\n";
    let mut source = Source::new(text);
    let Ok(mut reader) = TraceReader::new(alloc, &mut source, &plan) else {
        return Err(Fail::new("refused"));
    };
    let answers = [
        reader.next_row(),
        reader.next_row(),
        reader.next_row(),
        reader.next_row(),
    ];
    drop(reader);
    let fault = TraceFault::FieldCount;
    assert!(rt; matches!(answers[0], Ok(Some(_))));
    assert!(rt; answers[1] == Err(TraceError::At { fault, number: 3 }));
    assert!(rt; answers[2] == Err(TraceError::Failed));
    assert!(rt; answers[3] == Err(TraceError::Failed));
    Ok(())
}

#[test]
fn an_ended_reader_stays_ended(rt: HostRuntime) -> Result<(), Fail> {
    let alloc = rt.alloc();
    let plan = handover(alloc)?;
    let text: &[u8] = b"msrp-trace,1,2,6\n0,0,take,a,0,g";
    let mut source = Source::new(text);
    let Ok(mut reader) = TraceReader::new(alloc, &mut source, &plan) else {
        return Err(Fail::new("refused"));
    };
    let answers = [reader.next_row(), reader.next_row(), reader.next_row()];
    drop(reader);
    assert!(rt; matches!(answers[0], Ok(Some(_))));
    assert!(rt; answers[1] == Ok(None));
    assert!(rt; answers[2] == Ok(None));
    Ok(())
}
