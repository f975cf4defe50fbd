//! A mistake, and the list of them that a call answers.
ghost use Rattle.std.specs.Prelude.{◌≡◌, ◌≤◌, length, IfOk, Some};
ghost use Rattle.xm_mistakes.specs.Mistakes.{first_fault, first_open_fault};

use std::alloc::Global;
use xm_config::OpenFault;
use xm_files::FileFault;
use xm_memory::OutOfMemory;

/// A mistake of a file: as the run tells it, and in words, which say where it stands in the text and what may stand there.
#[derive(Drop)]
pub struct Mistake {
    pub fault: FileFault,
    pub words: String,
}

/// A mistake for which a segment isn't opened: as the run tells it, and in words.
#[derive(Drop)]
pub struct OpenMistake {
    pub fault: OpenFault,
    pub words: String,
}

/// The mistakes of a file whose first fault is this one: at most so many of those that were found, of which the first is that fault.
pub fn led_by(
    alloc: Global,
    fault: FileFault,
    mut found: Vec<Mistake>,
    most: usize,
) -> Result<Vec<Mistake>, OutOfMemory>
    requires { 1 ≤ most }
    ensures first { IfOk result (λ mistakes. first_fault mistakes.items ≡ Some fault) }
    ensures few { IfOk result (λ mistakes. length mistakes.items ≤ most) }
{
    let words = first_words(alloc, &mut found);
    found.truncate(most - 1);
    found.insert(0, Mistake { fault, words })?;
    Ok(found)
}

/// Takes the words of the first mistake, where there is one.
fn first_words(alloc: Global, found: &mut Vec<Mistake>) -> String {
    if found.is_empty() {
        return String::new(alloc);
    }
    let Mistake { fault: _, words } = found.remove(0);
    words
}

/// The mistakes for which a segment isn't opened, of which the first is this fault.
pub fn led_by_opening(
    alloc: Global,
    fault: OpenFault,
    mut found: Vec<OpenMistake>,
    most: usize,
) -> Result<Vec<OpenMistake>, OutOfMemory>
    requires { 1 ≤ most }
    ensures first { IfOk result (λ mistakes. first_open_fault mistakes.items ≡ Some fault) }
    ensures few { IfOk result (λ mistakes. length mistakes.items ≤ most) }
{
    let words = first_open_words(alloc, &mut found);
    found.truncate(most - 1);
    found.insert(0, OpenMistake { fault, words })?;
    Ok(found)
}

/// Takes the words of the first mistake, where there is one.
fn first_open_words(alloc: Global, found: &mut Vec<OpenMistake>) -> String {
    if found.is_empty() {
        return String::new(alloc);
    }
    let OpenMistake { fault: _, words } = found.remove(0);
    words
}
