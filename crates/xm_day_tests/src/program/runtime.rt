//! A runtime for tests: its command line and its files are given, and what is printed is kept.

ghost use Rattle.std.specs.Prelude.{IsErr};

use std::alloc::Global;
use std::env::FillError;
use std::fmt::Display;
use std::fs::{Metadata, OpenFile, OpenOptions};
use std::io;
use std::io::{Read, Seek, SeekFrom, Write};
use std::random::RandomSource;
use std::rt::{Env, Files};
use std::sync::{Mutex, Wait};
use std::thread::Threads;

/// What becomes of what is printed on a stream.
#[derive(Clone, Copy, Drop)]
pub enum Stream {
    Kept,
    Refused,
}

/// The paths of the files that can be made, each with what is kept before each piece that is written to it, so that one isn't taken for
/// the other.
pub const MADE: [(&str, &str); 2] = [("answers.csv", ""), ("other.csv", "other.csv: ")];

/// The command line and the files of a call of the program, and what it printed. Threads are those of another runtime.
#[derive(Drop)]
pub struct Call<'a, R> {
    pub rt: &'a R,
    pub alloc: Global,
    pub words: &'a [&'a [u8]],
    pub files: &'a [(&'a str, &'a str)],
    /// What was written to the files that can be made, and what was in one that wasn't emptied as it was opened.
    pub made: &'a Mutex<String>,
    pub output: Stream,
    pub printed: Mutex<String>,
    pub complained: Mutex<String>,
    /// How often random bytes were asked for.
    pub draws: Mutex<u32>,
}

impl<'a, R: AllocGlobal> Call<'a, R> {
    pub fn new(
        rt: &'a R,
        words: &'a [&'a [u8]],
        files: &'a [(&'a str, &'a str)],
        made: &'a Mutex<String>,
        output: Stream,
    ) -> Call<'a, R> {
        Call {
            rt,
            alloc: rt.alloc(),
            words,
            files,
            made,
            output,
            printed: Mutex::new(String::new(rt.alloc())),
            complained: Mutex::new(String::new(rt.alloc())),
            draws: Mutex::new(0),
        }
    }
}

fn keep(kept: &Mutex<String>, text: &str) -> io::Result<()> {
    match kept.try_lock() {
        Some(mut kept) => Ok(kept.push_str(text)?),
        None => Err(io::Error::from(io::ErrorKind::ResourceBusy)),
    }
}

impl<R: Threads> Threads for Call<'_, R> {}

impl<R: Wait> Wait for Call<'_, R> {}

impl<R> Alloc for Call<'_, R> {
    type A = Global;

    fn alloc(&self) -> Global {
        self.alloc
    }
}

impl<R> Env for Call<'_, R> {
    fn arg(&self, i: usize, buf: &mut [u8]) -> Result<usize, FillError> {
        let Some(word) = self.words.get(i) else {
            return Err(FillError::NotPresent);
        };
        match buf.get_mut(..word.len()) {
            Some(start) => {
                start.copy_from_slice(word);
                Ok(word.len())
            }
            None => Err(FillError::TooLong),
        }
    }

    fn var(&self, _name: &str, _buf: &mut [u8]) -> Result<usize, FillError> {
        Err(FillError::NotPresent)
    }

    fn var_at(&self, _i: usize, _buf: &mut [u8]) -> Result<usize, FillError> {
        Err(FillError::NotPresent)
    }
}

impl<R> Print for Call<'_, R> {
    fn print<D: Display + Drop>(&self, value: D) -> io::Result<()> {
        let text = format!(in self.alloc; "{value}")?;
        self.write_all(text.as_bytes())
    }

    fn println<D: Display + Drop>(&self, value: D) -> io::Result<()> {
        let text = format!(in self.alloc; "{value}\n")?;
        self.write_all(text.as_bytes())
    }

    fn write_all(&self, bytes: &[u8]) -> io::Result<()> {
        match (self.output, str::from_utf8(bytes)) {
            (Stream::Kept, Ok(text)) => keep(&self.printed, text),
            _ => Err(io::Error::from(io::ErrorKind::StorageFull)),
        }
    }
}

// Each random byte is 7.
impl<R> RandomSource for Call<'_, R> {
    fn fill_bytes(&self, buf: &mut [u8]) -> io::Result<()> {
        buf.fill(7);
        match self.draws.try_lock() {
            Some(mut draws) => {
                *draws = draws.saturating_add(1);
                Ok(())
            }
            None => Err(io::Error::from(io::ErrorKind::ResourceBusy)),
        }
    }
}

impl<R> Eprint for Call<'_, R> {
    fn eprint<D: Display + Drop>(&self, value: D) -> io::Result<()> {
        let text = format!(in self.alloc; "{value}")?;
        keep(&self.complained, text.as_str())
    }

    fn eprintln<D: Display + Drop>(&self, value: D) -> io::Result<()> {
        let text = format!(in self.alloc; "{value}\n")?;
        keep(&self.complained, text.as_str())
    }
}

/// A file that can be read, or one that was made and can be written to, and nothing else.
#[derive(Drop)]
pub enum Opened<'a> {
    Read(&'a [u8]),
    Made(&'a Mutex<String>, &'static str),
}

fn unsupported<T>() -> io::Result<T>
    ensures { IsErr result }
{
    Err(io::Error::from(io::ErrorKind::Unsupported))
}

impl Read for Opened<'_> {
    fn read(&mut self, buf: &mut [u8]) -> io::Result<usize> {
        match self {
            Opened::Read(left) => left.read(buf),
            Opened::Made(..) => unsupported(),
        }
    }
}

impl Write for Opened<'_> {
    fn write(&mut self, bytes: &[u8]) -> io::Result<usize> {
        match (self, str::from_utf8(bytes)) {
            (Opened::Made(kept, mark), Ok(text)) => {
                keep(kept, mark)?;
                keep(kept, text)?;
                Ok(bytes.len())
            }
            _ => unsupported(),
        }
    }

    fn flush(&mut self) -> io::Result<()> {
        Ok(())
    }
}

impl Seek for Opened<'_> {
    fn seek(&mut self, _to: SeekFrom) -> io::Result<u64> {
        unsupported()
    }
}

impl OpenFile for Opened<'_> {
    fn metadata(&self) -> io::Result<Metadata> {
        unsupported()
    }

    fn set_len(&self, _size: u64) -> io::Result<()> {
        unsupported()
    }

    fn sync_all(&self) -> io::Result<()> {
        unsupported()
    }

    fn sync_data(&self) -> io::Result<()> {
        unsupported()
    }
}

impl<'a, R> Call<'a, R> {
    /// One of the files that are read, which is told where it is opened for writing.
    fn open_read(&self, how: &OpenOptions, text: &'a str) -> io::Result<Opened<'a>> {
        if how.asks_write() {
            keep(&self.complained, "a file that is read is written to")?;
        }
        Ok(Opened::Read(text.as_bytes()))
    }

    /// One of the files that are made, which has what was there before where it isn't emptied.
    fn make(&self, how: &OpenOptions, mark: &'static str) -> io::Result<Opened<'a>> {
        if !how.asks_truncate() {
            keep(self.made, "what was there before")?;
        }
        Ok(Opened::Made(self.made, mark))
    }
}

impl<'a, R> Files for Call<'a, R> {
    type File = Opened<'a>;

    type Dir = Opened<'a>;

    fn open_file(&self, how: &OpenOptions, path: &str) -> io::Result<Opened<'a>> {
        for (name, text) in self.files {
            if *name == path {
                return self.open_read(how, text);
            }
        }
        for (name, mark) in &MADE {
            if *name == path {
                return self.make(how, mark);
            }
        }
        Err(io::Error::from(io::ErrorKind::NotFound))
    }

    fn open_dir(&self, _path: &str) -> io::Result<Opened<'a>> {
        unsupported()
    }

    // All files that can be read are one to who asks for their device and their number there.
    fn metadata(&self, path: &str) -> io::Result<Metadata> {
        for (name, text) in self.files {
            if *name == path {
                return Ok(Metadata::of_file(text.len() as u64));
            }
        }
        Err(io::Error::from(io::ErrorKind::NotFound))
    }

    fn symlink_metadata(&self, _path: &str) -> io::Result<Metadata> {
        unsupported()
    }

    fn copy(&self, _from: &str, _to: &str) -> io::Result<u64> {
        unsupported()
    }

    fn rename(&self, _from: &str, _to: &str) -> io::Result<()> {
        unsupported()
    }

    fn remove_file(&self, _path: &str) -> io::Result<()> {
        unsupported()
    }

    fn create_dir(&self, _path: &str) -> io::Result<()> {
        unsupported()
    }

    fn remove_dir(&self, _path: &str) -> io::Result<()> {
        unsupported()
    }

    fn remove_dir_all<B: std::alloc::Allocator>(&self, _alloc: B, _path: &str) -> io::Result<()> {
        unsupported()
    }
}
