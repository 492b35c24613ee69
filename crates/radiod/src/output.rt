//! Standard output, as the log is written to it.

ghost use Rattle.std.specs.Prelude.{◌≡◌, nat_le};

use radio_startup::limit_named;
use std::fs::{File, OpenOptions};
use std::io::Write;
use std::{fs, io};

/// Standard output by its name (Linux, `proc(5)`).
const STANDARD_OUTPUT: &str = "/proc/self/fd/1";

/// The name of the limit of a file's size (Linux, `proc(5)`).
const SIZE: &str = "Max file size";

/// The system's code for a file that would be too large (Linux, `EFBIG` of `errno(3)`).
const FILE_TOO_LARGE: i32 = 27;

/// A file that is written at its end and stays below a limit. The system ends a process that writes at or beyond its limit
/// (`SIGXFSZ` of `signal(7)`), so such a write fails here before it is made.
#[derive(Drop)]
pub struct LimitedFile {
    file: File,
    limit: u64,
}

impl LimitedFile {
    /// Returns standard output, if it is a file and the system limits the size of files. `None` also if the file cannot be
    /// opened by its name.
    pub fn standard_output(rt: &HostRuntime) -> Option<LimitedFile> {
        let limit = limit_named(rt, SIZE)?;
        if !fs::metadata(rt, STANDARD_OUTPUT).ok()?.is_file() {
            return None;
        }
        let opened = OpenOptions::new().append(true).open(rt, STANDARD_OUTPUT);
        let file = opened.ok()?;
        Some(LimitedFile { file, limit })
    }
}

impl Write for LimitedFile {
    fn write(&mut self, bytes: &[u8]) -> io::Result<usize> {
        if is_full(self.file.metadata()?.len(), self.limit) {
            return Err(io::Error::from_raw_os_error(FILE_TOO_LARGE));
        }
        self.file.write(bytes)
    }

    fn flush(&mut self) -> io::Result<()> {
        self.file.flush()
    }
}

/// Returns whether a write would be at or beyond the limit of a file that has `length` bytes.
fn is_full(length: u64, limit: u64) -> bool
    ensures { result ≡ nat_le limit length }
{
    length >= limit
}
