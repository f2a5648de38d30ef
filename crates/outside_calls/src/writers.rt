// Writers that take little, and writers that fail.
use std::io::{self, ErrorKind, Write};

/// Takes one byte at a time while there is room, and then none.
#[derive(Drop)]
pub struct Dripping<'a> {
    pub taken: &'a mut Vec<u8>,
    pub room: usize,
}

impl Write for Dripping<'_> {
    fn write(&mut self, piece: &[u8]) -> io::Result<usize> {
        if piece.is_empty() || self.taken.len() >= self.room {
            return Ok(0);
        }
        self.taken.push(piece[0])?;
        Ok(1)
    }

    fn flush(&mut self) -> io::Result<()> {
        Ok(())
    }
}

/// Fails each write, or each flush.
#[derive(Drop)]
pub struct Broken {
    pub fails_at_write: bool,
}

impl Write for Broken {
    fn write(&mut self, piece: &[u8]) -> io::Result<usize> {
        if self.fails_at_write {
            return Err(io::Error::from(ErrorKind::BrokenPipe));
        }
        Ok(piece.len())
    }

    fn flush(&mut self) -> io::Result<()> {
        Err(io::Error::from(ErrorKind::BrokenPipe))
    }
}
