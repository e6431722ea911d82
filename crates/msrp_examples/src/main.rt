//! Programs that use the crates of this repository, one in each module (see `docs/LIBRARY.md`).
#![tactic(auto)]

mod engine;
mod judge;
mod lock;
mod simulate;
mod stage;

use std::io;
use std::process::ExitCode;

fn main(rt: HostRuntime) -> ExitCode {
    let mut out = io::writer(&rt);
    let done = engine::recorded(rt.alloc(), &mut out)
        .and_then(|()| simulate::simulated(rt.alloc(), &mut out))
        .and_then(|()| judge::judged(&rt, rt.alloc()))
        .and_then(|()| lock::handed_over(&rt, rt.alloc()))
        .and_then(|()| stage::counted(&rt, &rt, rt.alloc()));
    match done {
        Ok(()) => ExitCode::SUCCESS,
        Err(what) => {
            let _ = eprintln!(rt; "{what}");
            ExitCode::FAILURE
        }
    }
}
