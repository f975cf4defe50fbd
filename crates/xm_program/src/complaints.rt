//! Standard error, as a writer.
use std::io;
use std::io::Write;

/// Standard error, as a writer of texts.
#[derive(Drop)]
pub(crate) struct Complaints<'a, R> {
    pub(crate) rt: &'a R,
}

impl<R: Eprint> Write for Complaints<'_, R> {
    fn write(&mut self, buf: &[u8]) -> io::Result<usize> {
        match str::from_utf8(buf) {
            Ok(text) => {
                self.rt.eprint(text)?;
                Ok(buf.len())
            }
            Err(_) => Err(io::Error::from(io::ErrorKind::InvalidData)),
        }
    }

    fn flush(&mut self) -> io::Result<()> {
        Ok(())
    }
}
