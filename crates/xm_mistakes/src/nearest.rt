//! The word that a text is nearest to.
use std::alloc::Global;
use strsim::osa_distance;
use xm_memory::OutOfMemory;

/// A longer text is no misspelt word.
const LONGEST: usize = 40;

/// The word to which the fewest edits lead so far, if a third of its letters are as many, or one; and nothing as long as there is none.
#[derive(Clone, Copy)]
pub struct Nearest<'t, 'w> {
    alloc: Global,
    text: &'t str,
    word: &'w str,
    edits: usize,
}

impl<'t, 'w> Nearest<'t, 'w> {
    /// No word yet.
    pub fn to(alloc: Global, text: &'t str) -> Nearest<'t, 'w> {
        Nearest {
            alloc,
            text,
            word: "",
            edits: usize::MAX,
        }
    }

    /// Looks at a word.
    pub fn look(&mut self, word: &'w str) -> Result<(), OutOfMemory> {
        if self.text.len() > LONGEST || word.len() > LONGEST {
            return Ok(());
        }
        let edits = osa_distance(self.alloc, self.text, word)?;
        if edits < self.edits && edits <= (word.len() / 3).max(1) {
            self.word = word;
            self.edits = edits;
        }
        Ok(())
    }

    /// The word that is nearest, and nothing where none is near.
    pub fn word(&self) -> &'w str {
        self.word
    }
}
