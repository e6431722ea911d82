//! Tests of plans and their builder, of sources and sinks, and of traces.

mod builder;
mod bytes;
mod traces;
