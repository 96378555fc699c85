//! A writer that takes a few bytes at a time and then refuses.
use std::alloc::Global;
use std::io::{self, Error, ErrorKind, Write};

/// Takes bytes in so many writes, up to a number in each, and none after them.
#[derive(Drop)]
pub struct Narrow {
    pub bytes: Vec<u8>,
    left: u64,
    most: usize,
}

impl Narrow {
    /// A writer that refuses after so many writes, of up to so many bytes.
    pub fn new(alloc: Global, left: u64, most: usize) -> Narrow {
        Narrow {
            bytes: Vec::new(alloc),
            left,
            most,
        }
    }

    /// A writer that takes all.
    pub fn wide(alloc: Global) -> Narrow {
        Narrow::new(alloc, u64::MAX, usize::MAX)
    }
}

impl Write for Narrow {
    fn write(&mut self, buf: &[u8]) -> io::Result<usize> {
        if self.left == 0 {
            return Err(Error::from(ErrorKind::BrokenPipe));
        }
        self.left -= 1;
        let count = buf.len().min(self.most);
        self.bytes.extend_from_slice(&buf[..count])?;
        Ok(count)
    }

    fn flush(&mut self) -> io::Result<()> {
        Ok(())
    }
}
