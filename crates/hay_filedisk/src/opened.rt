//! What is asked of an open file.
ghost use Rattle.std.specs.Prelude.{◌≤◌, length, IfOk};

use std::fs::File;
use std::io;
use std::io::ErrorKind;
use std::os::unix::fs::FileExt;

/// Reads from an offset on until `out` is full or the file ends, and answers how many bytes came.
pub(crate) fn read_whole(file: &File, at: u64, out: &mut [u8]) -> io::Result<usize>
    ensures within { IfOk result (λ n. n ≤ length out.old) }
{
    if i64::try_from(at).is_err() {
        return Ok(0); // no file is so long
    }
    let mut done = 0;
    'fill: for _ in 0..u64::MAX {
        if done == out.len() {
            return Ok(done);
        }
        match file.read_at(&mut out[done..], at.saturating_add(done as u64)) {
            Ok(0) => return Ok(done),
            Ok(count) => done += count,
            Err(error) if error.kind() == ErrorKind::Interrupted => {}
            Err(error) => return Err(error),
        }
    }
    Err(ErrorKind::Interrupted.into())
}

/// Writes all bytes from an offset on. On `Err` some front of them may be written.
pub(crate) fn write_whole(file: &File, at: u64, bytes: &[u8]) -> io::Result<()> {
    let mut done = 0;
    'send: for _ in 0..u64::MAX {
        if done == bytes.len() {
            return Ok(());
        }
        match file.write_at(&bytes[done..], at.saturating_add(done as u64)) {
            Ok(0) => return Err(ErrorKind::WriteZero.into()),
            Ok(count) => done += count,
            Err(error) if error.kind() == ErrorKind::Interrupted => {}
            Err(error) => return Err(error),
        }
    }
    Err(ErrorKind::Interrupted.into())
}

/// How much is written again at once.
const BLOCK_LEN: usize = 4096;

/// Reads a range of a file and writes what was read in its place again, as far as the file goes.
pub(crate) fn rewrite(file: &File, from: u64, to: u64) -> io::Result<()> {
    let mut block = [0; BLOCK_LEN];
    let mut at = from;
    while at < to {
        let len = (to - at).min(BLOCK_LEN as u64) as usize;
        let got = read_whole(file, at, &mut block[..len])?;
        if got == 0 {
            return Ok(());
        }
        write_whole(file, at, &block[..got])?;
        at += got as u64;
    }
    Ok(())
}
