//! Files that are opened again after a fault, to explain it.

use msrp_cli::STANDARD;
use msrp_plan::bytes::{BYTE_LIMIT, Source};
use std::fs::File;
use std::io::{ErrorKind, Read};
use std::{fs, io};

// The path under which the system has standard input as a file.
const STANDARD_FILE: &str = "/dev/stdin";

/// The bytes of a regular file, from its start. What came through a pipe is lost.
pub(crate) fn read_again(rt: &HostRuntime, path: &str) -> Option<Source<File>> {
    let path = if path == STANDARD {
        STANDARD_FILE
    } else {
        path
    };
    if !fs::metadata(rt, path).ok()?.is_file() {
        return None;
    }
    Some(Source::new(File::open(rt, path).ok()?))
}

// Reads the first byte of a file.
fn unopened(rt: &HostRuntime, path: &str) -> io::Result<()> {
    let found = fs::metadata(rt, path)?;
    // Opening a pipe would wait for its writer.
    if !found.is_file() && !found.is_dir() {
        return Ok(());
    }
    if found.len() >= u64::from(BYTE_LIMIT) {
        return Err(io::Error::new(ErrorKind::Other, "the text has 16,777,216 bytes or more"));
    }
    File::open(rt, path)?.read(&mut [0])?;
    Ok(())
}

/// Why a path can't be read, if it still can't.
pub(crate) fn failure(rt: &HostRuntime, path: &str) -> Option<io::Error> {
    if path == STANDARD {
        rt.stdin().read(&mut []).err()
    } else {
        unopened(rt, path).err()
    }
}
