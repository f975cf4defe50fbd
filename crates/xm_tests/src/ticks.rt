//! Texts of prices and money.
use std::io::{self, Write};
use std::test::Fail;
use xm_ticks::{Price, TickSize, write_money, write_price, write_whole};

/// Holds what it is given, at most so many bytes a call, and fails after so many bytes in all.
struct ShortWriter {
    bytes: Vec<u8>,
    at_once: usize,
    room: usize,
}

impl Drop for ShortWriter {
    fn drop(self) {
        let ShortWriter {
            bytes: _,
            at_once: _,
            room: _,
        } = self;
    }
}

impl Write for ShortWriter {
    fn write(&mut self, buf: &[u8]) -> io::Result<usize> {
        if self.room == 0 {
            return Err(io::Error::from(io::ErrorKind::BrokenPipe));
        }
        let count = buf.len().min(self.at_once).min(self.room);
        self.bytes.extend_from_slice(&buf[..count])?;
        self.room -= count;
        Ok(count)
    }

    fn flush(&mut self) -> io::Result<()> {
        Ok(())
    }
}

#[test]
fn written_texts(rt: HostRuntime) -> Result<(), Fail> {
    let price = Price::new(2469).ok_or("no price")?;
    let tick = TickSize::new(50).ok_or("no tick size")?;
    let mut text = Vec::new(rt.alloc());
    write_price(&mut text, price, tick)?;
    write_money(&mut text, -1_234_500)?;
    assert!(rt; text.as_slice() == b"12.3450-123.4500".as_slice());
    Ok(())
}

/// Which fault a writer made, if any.
fn fault_of(written: io::Result<()>) -> Option<io::ErrorKind> {
    match written {
        Ok(()) => None,
        Err(error) => Some(error.kind()),
    }
}

#[test]
fn the_fault_is_the_writers(rt: HostRuntime) -> Result<(), Fail> {
    let text = b"-123.4500";
    for room in 0..text.len() + 1 {
        let mut out = ShortWriter {
            bytes: Vec::new(rt.alloc()),
            at_once: 4,
            room,
        };
        let expected = if room < text.len() {
            Some(io::ErrorKind::BrokenPipe)
        } else {
            None
        };
        assert!(rt; fault_of(write_money(&mut out, -1_234_500)) == expected);
        assert!(rt; out.bytes.as_slice() == &text[..room]);
    }
    let mut full = ShortWriter {
        bytes: Vec::new(rt.alloc()),
        at_once: 0,
        room: 6,
    };
    let fault = fault_of(write_whole(&mut full, b"text"));
    assert!(rt; fault == Some(io::ErrorKind::WriteZero) && full.bytes.is_empty());
    Ok(())
}
