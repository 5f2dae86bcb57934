//! Calls on a descriptor, and answers of the C library.
ghost use Rattle.std.specs.Prelude.{◌↔◌, pos, ◌≤ℤ◌, IsOk};
ghost use Rattle.std.specs.Io.{WritesAtMost};

use std::io;
use std::io::Write;
use std::os::fd::{AsFd, AsRawFd, BorrowedFd};

/// Has each later call that would wait at the file fail with `WouldBlock`.
///
/// This holds for each descriptor of the same open file, in other programs too. The two ends of a
/// pipe are two open files; standard input and output may be shared with a shell.
pub fn unblock<F: AsFd>(file: &F) -> io::Result<()> {
    check(os::set_nonblocking(file.as_fd().as_raw_fd(), true))
}

/// A file that is written by the system's call alone, at a third of what `ChildStdin` costs.
///
/// Where nobody reads any more a write fails with `BrokenPipe`, and the process lives on, since it
/// was started with SIGPIPE ignored. It keeps no byte back. It tells no content.
#[derive(Debug, Drop)]
pub struct PlainWriter<F> {
    file: F,
}

impl<F: AsFd> PlainWriter<F> {
    /// A writer into this file.
    pub fn new(file: F) -> Self {
        PlainWriter { file }
    }
}

impl<F: AsFd> Write for PlainWriter<F> {
    fn write(&mut self, piece: &[u8]) -> io::Result<usize> {
        let count = libc::write(self.file.as_fd().as_raw_fd(), piece);
        if count < 0 {
            Err(io::Error::from_raw_os_error(os::errno()))
        } else {
            Ok(count as usize)
        }
    }

    fn flush(&mut self) -> io::Result<()> {
        Ok(())
    }
}

impl<F: AsFd> AsFd for PlainWriter<F> {
    fn as_fd(&self) -> BorrowedFd<'_> {
        self.file.as_fd()
    }
}

// The error of the call that has just answered `status`, where that is below 0.
pub(crate) fn check(status: i32) -> io::Result<()>
    ensures { IsOk result ↔ (pos 0 ≤ℤ status) }
{
    if status < 0 {
        Err(io::Error::from_raw_os_error(os::errno()))
    } else {
        Ok(())
    }
}
