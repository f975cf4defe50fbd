//! What lies at the paths of a day, and whose it is.
ghost use Rattle.std.specs.Prelude.{◌≡◌, IsErrAnd, None, Ok};
ghost use Rattle.std_io.specs.IoError.{error_kind};
ghost use Rattle.xm_program.specs.Places.{is_one_file, is_same, is_statements};

use std::fs::Metadata;
use std::io::{self, ErrorKind};
use std::os::unix::fs::MetadataExt;

/// What lies at a path: a file, a device or another, by the device that it lies on and its number there.
#[derive(Clone, Copy, Debug)]
pub struct Place {
    pub device: u64,
    pub number: u64,
    /// Whether it is a file. A device, a pipe or a terminal may take more than one text.
    pub is_file: bool,
}

/// What lies at a path, if anything does, as the system tells of it.
pub(crate) fn place_in(told: io::Result<Metadata>) -> io::Result<Option<Place>>
    ensures nothing { result ≡ Ok None → IsErrAnd told (λ error. error_kind error ≡ ErrorKind.NotFound) }
{
    match told {
        Ok(found) => Ok(Some(Place {
            device: found.dev(),
            number: found.ino(),
            is_file: found.is_file(),
        })),
        Err(error) => {
            if error.kind() == ErrorKind::NotFound {
                Ok(None)
            } else {
                Err(error)
            }
        }
    }
}

/// Whether two paths lead to one file: they are the same, whatever lies there, or the same lies at both.
pub(crate) fn is_one_file(
    path: &str,
    place: &Option<Place>,
    other: &str,
    lies: &Option<Place>,
) -> bool
    ensures { result ≡ is_one_file path.now place.now other.now lies.now }
{
    path == other || is_same(place, lies)
}

/// Whether what lies at a path is the statement's, by what the system tells of the descriptors of this process and of its standard
/// output: the file that this goes to; and where it is closed, each file, since one would take its place.
pub(crate) fn is_statements(
    place: &Option<Place>,
    descriptors: &Option<Place>,
    output: &Option<Place>,
) -> bool
    ensures { result ≡ is_statements place.now descriptors.now output.now }
{
    match output {
        None => descriptors.is_some(),
        Some(found) => found.is_file && is_same(place, output),
    }
}

/// Whether the same lies at two paths.
fn is_same(first: &Option<Place>, second: &Option<Place>) -> bool
    ensures { result ≡ is_same first.now second.now }
{
    match first {
        None => false,
        Some(first) => match second {
            None => false,
            Some(second) => first.device == second.device && first.number == second.number,
        },
    }
}
