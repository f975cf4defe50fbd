//! The files that texts beside the statement are written to.
ghost use Rattle.std.specs.Prelude.{[], IfOk, OnOk, map, option_map};
ghost use Rattle.std.specs.Fn.{FnReturnsAt};
ghost use Rattle.std.specs.Io.{WritesAtMost};
ghost use Rattle.std.specs.Io.KnownBytes.{Keeps, WriteAppends};
ghost use Rattle.xm_program.specs.Outputs.{AreMade, IsMade};
ghost use Rattle.xm_program.specs.Places.{AreFree, AreOtherFiles, AreSeparate, IsFree, IsOtherFile, IsSeparate};
ghost use Rattle.xm_program.specs.Requests.{inputs, named_day, outputs};

use crate::places::{Place, is_one_file, is_statements};
use crate::requests::DayRequest;
use std::io;
use std::io::Write;

/// A file that a text is written to, or none, where the text isn't asked for: each write to it fails.
#[derive(Drop)]
pub enum Output<F> {
    Made(F),
    Unasked,
}

impl<F: Write> Write for Output<F> {
    ghost use Rattle.xm_program.specs.Outputs.{contents_in};

    ghost contents = { contents_in F.contents };

    fn write(&mut self, buf: &[u8]) -> io::Result<usize>
        ensures bound { WritesAtMost result buf.now }
        ensures bytes { WriteAppends (contents_in F.contents self.old) (contents_in F.contents self.new) result buf.now }
    {
        match self {
            Output::Made(file) => file.write(buf),
            Output::Unasked => Err(io::Error::from(io::ErrorKind::NotFound)),
        }
    }

    fn flush(&mut self) -> io::Result<()>
        ensures bytes { Keeps (contents_in F.contents self.old) (contents_in F.contents self.new) }
    {
        match self {
            Output::Made(file) => file.flush(),
            Output::Unasked => Ok(()),
        }
    }
}

/// What the system tells of the descriptors of this process.
const DESCRIPTORS: &str = "/proc/self/fd";

/// The file that standard output goes to, which gets the statement.
const STATEMENT_PATH: &str = "/proc/self/fd/1";

/// The files of the texts beside a statement, in the order in which these go out.
#[derive(Drop)]
pub struct TextFiles<F> {
    pub answers: Output<F>,
    pub trades: Output<F>,
    pub events: Output<F>,
    pub depth: Output<F>,
    pub carry: Output<F>,
}

/// The files that a day is written to, as far as they are asked for, each as it is made at its path. Where one of the files that are to
/// be read lies at such a path, or the one that standard output goes to, nothing is made, and that is an error; it is one too where
/// two would be the same file, or where standard output is closed, whose place a file would take.
pub(crate) fn make_files<
    F: Drop,
    L: Fn(&str) -> io::Result<Option<Place>>,
    M: Fn(&str) -> io::Result<F>,
>(lies: &L, makes: &M, request: &DayRequest<'_>) -> io::Result<TextFiles<F>>
    requires lies { L.IsAlwaysCallable lies.now }
    requires makes { M.IsAlwaysCallable makes.now }
    ensures free { OnOk result (AreFree (FnReturnsAt L.Fn lies.now) (inputs (named_day request.now)) (outputs (named_day request.now))) }
    ensures apart { OnOk result (AreSeparate (FnReturnsAt L.Fn lies.now) [] (outputs (named_day request.now))) }
    ensures made { IfOk result (AreMade (FnReturnsAt M.Fn makes.now) (named_day request.now)) }
{
    let paths = request.outputs();
    check_free(lies, &paths, &request.inputs())?;
    let [answers, trades, events, depth, carry] = paths;
    let answers_file = make_file(lies, makes, answers, &[])?;
    let trades_file = make_file(lies, makes, trades, &[answers])?;
    let events_file = make_file(lies, makes, events, &[trades, answers])?;
    let depth_file = make_file(lies, makes, depth, &[events, trades, answers])?;
    Ok(TextFiles {
        answers: answers_file,
        trades: trades_file,
        events: events_file,
        depth: depth_file,
        carry: make_file(lies, makes, carry, &[depth, events, trades, answers])?,
    })
}

/// The file at a path, as it is made, where there is a path, unless it is one of those that were made.
fn make_file<F, L: Fn(&str) -> io::Result<Option<Place>>, M: Fn(&str) -> io::Result<F>>(
    lies: &L,
    makes: &M,
    path: Option<&str>,
    made: &[Option<&str>],
) -> io::Result<Output<F>>
    requires lies { L.IsAlwaysCallable lies.now }
    requires makes { M.IsAlwaysCallable makes.now }
    ensures apart { OnOk result (IsSeparate (FnReturnsAt L.Fn lies.now) (map (option_map (λ s. s.now)) made.now) (option_map (λ s. s.now) path.entry)) }
    ensures made { IfOk result (IsMade (FnReturnsAt M.Fn makes.now) (option_map (λ s. s.now) path.entry)) }
{
    let Some(path) = path else {
        return Ok(Output::Unasked);
    };
    check_apart(lies, path, &lies(path)?, made)?;
    Ok(Output::Made(makes(path)?))
}

/// Sees that a text may go to each of these paths: what lies there is neither read, nor the statement's.
fn check_free<L: Fn(&str) -> io::Result<Option<Place>>>(
    lies: &L,
    paths: &[Option<&str>],
    inputs: &[Option<&str>],
) -> io::Result<()>
    requires { L.IsAlwaysCallable lies.now }
    ensures { OnOk result (AreFree (FnReturnsAt L.Fn lies.now) (map (option_map (λ s. s.now)) inputs.now) (map (option_map (λ s. s.now)) paths.now)) }
{
    match paths {
        [] => Ok(()),
        [path, paths @ ..] => {
            if let Some(path) = path {
                check_path(lies, path, inputs)?;
            }
            check_free(lies, paths, inputs)
        }
    }
}

/// Sees that a text may go to a path.
fn check_path<L: Fn(&str) -> io::Result<Option<Place>>>(
    lies: &L,
    path: &str,
    inputs: &[Option<&str>],
) -> io::Result<()>
    requires { L.IsAlwaysCallable lies.now }
    ensures { OnOk result (IsFree (FnReturnsAt L.Fn lies.now) (map (option_map (λ s. s.now)) inputs.now) path.now) }
{
    let place = lies(path)?;
    let descriptors = lies(DESCRIPTORS)?;
    let output = lies(STATEMENT_PATH)?;
    if is_statements(&place, &descriptors, &output) {
        return Err(io::Error::from(io::ErrorKind::AlreadyExists));
    }
    check_apart(lies, path, &place, inputs)
}

/// Sees that a path leads to none of the files at others.
fn check_apart<L: Fn(&str) -> io::Result<Option<Place>>>(
    lies: &L,
    path: &str,
    place: &Option<Place>,
    others: &[Option<&str>],
) -> io::Result<()>
    requires { L.IsAlwaysCallable lies.now }
    ensures { OnOk result (AreOtherFiles (FnReturnsAt L.Fn lies.now) path.now place.now (map (option_map (λ s. s.now)) others.now)) }
{
    match others {
        [] => Ok(()),
        [other, others @ ..] => {
            if let Some(other) = other {
                check_other(lies, path, place, other)?;
            }
            check_apart(lies, path, place, others)
        }
    }
}

/// Sees that a path doesn't lead to the file at another one. Where nothing lies there, this isn't looked at: what is wrong with it is
/// found where it is read.
fn check_other<L: Fn(&str) -> io::Result<Option<Place>>>(
    lies: &L,
    path: &str,
    place: &Option<Place>,
    other: &str,
) -> io::Result<()>
    requires { L.IsAlwaysCallable lies.now }
    ensures { OnOk result (IsOtherFile (FnReturnsAt L.Fn lies.now) path.now place.now other.now) }
{
    let found = if place.is_some() { lies(other)? } else { None };
    if is_one_file(path, place, other, &found) {
        Err(io::Error::from(io::ErrorKind::AlreadyExists))
    } else {
        Ok(())
    }
}
