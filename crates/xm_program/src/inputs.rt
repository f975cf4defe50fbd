//! The files that a day is read from.
ghost use Rattle.std.specs.Prelude.{◌≡◌, ◌≤◌, IfOk, IsErr, is_some, length, map};
ghost use Rattle.std.specs.Fn.{FnOnceReturnsAt, FnReturnsAt};
ghost use Rattle.std.specs.Io.{ReadsAtMost};
ghost use Rattle.std.specs.Io.KnownBytes.{ReadConsumes};
ghost use Rattle.std.specs.List.{AllZip};
ghost use Rattle.xm_files.specs.declared.order_files.TheConstants.{MAX_FILES};
ghost use Rattle.xm_program.specs.Inputs.{IsOpened, input_of};

use arrayvec::ArrayVec;
use std::alloc::Global;
use std::io;
use std::io::Read;
use xm_files::MAX_FILES;
use xm_memory::OutOfMemory;

/// A file to be read, or one that could not be opened: each read of it fails.
///
/// So a file that is not there is found to be at fault where it would have been read.
#[derive(Drop)]
pub enum Input<F> {
    Opened(F),
    Unopened,
}

/// The file at a path, as it is opened.
pub fn open_input<F, O: FnOnce(&str) -> io::Result<F>>(opens: O, path: &str) -> Input<F>
    requires { O.IsAlwaysCallable opens }
    ensures { (answer : _) × FnOnceReturnsAt O.FnOnce opens path.now answer × (result ≡ input_of answer) }
{
    input_of(opens(path))
}

/// The same, where a path is given.
pub fn open_where_given<F, O: FnOnce(&str) -> io::Result<F>>(
    opens: O,
    path: Option<&str>,
) -> Option<Input<F>>
    requires { O.IsAlwaysCallable opens }
    ensures { is_some result ≡ is_some path.entry }
{
    match path {
        None => None,
        Some(path) => Some(open_input(opens, path)),
    }
}

/// The files at these paths, in their order, each as it is opened, or `OutOfMemory` where their list can't be held.
pub fn open_inputs<F: Drop, O: Fn(&str) -> io::Result<F>>(
    alloc: Global,
    opens: &O,
    paths: &ArrayVec<&str, MAX_FILES>,
) -> Result<Vec<Input<F>>, OutOfMemory>
    requires { O.IsAlwaysCallable opens.now }
    ensures opened { IfOk result (λ inputs. AllZip (IsOpened (FnReturnsAt O.Fn opens.now)) (map (λ s. s.now) paths.now.items) inputs.items) }
    ensures few { IfOk result (λ inputs. length inputs.items ≤ MAX_FILES) }
{
    let mut inputs = Vec::new(alloc);
    for path in paths.as_slice() {
        inputs.push(input_of(opens(*path)))?;
    }
    Ok(inputs)
}

/// The file that a call opened, or none.
fn input_of<F>(answer: io::Result<F>) -> Input<F>
    ensures { result ≡ input_of answer }
{
    match answer {
        Ok(file) => Input::Opened(file),
        Err(_) => Input::Unopened,
    }
}

impl<F: Read> Read for Input<F> {
    ghost use Rattle.xm_program.specs.declared.inputs.Input.TheVariants.{Unopened};
    ghost use Rattle.xm_program.specs.Inputs.{bytes_left};

    ghost remaining = { bytes_left F.remaining };

    fn read(&mut self, buf: &mut [u8]) -> io::Result<usize>
        ensures bound { ReadsAtMost result buf.new }
        ensures bytes { ReadConsumes (bytes_left F.remaining self.old) (bytes_left F.remaining self.new) result buf.new }
        ensures unopened { self.old ≡ Unopened → IsErr result }
    {
        match self {
            Input::Opened(file) => file.read(buf),
            Input::Unopened => Err(io::Error::from(io::ErrorKind::NotFound)),
        }
    }
}
