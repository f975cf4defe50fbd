//! Lines that are told of rows, where they are asked for.
ghost use Rattle.std.specs.Prelude.{◌≡◌, true, IfOk, OnErr, option_map};
ghost use Rattle.xm_texts.specs.RowAnswers.{where_asked};

use crate::fields::push_text;
use std::alloc::Global;
use std::marker::Model;
use xm_memory::OutOfMemory;

/// The text of the lines so far, where they are asked for. A clause sees the text.
#[derive(Drop)]
pub struct Lines {
    pub(crate) text: Option<Vec<u8>>,
}

impl Model for Lines {
    ghost use Rattle.std.specs.Prelude.{ℕ, List, Option, option_map};

    ghost Value = { Option (List ℕ) };

    ghost view = { λ l. option_map (λ text. text.items) l.text };
}

impl Lines {
    ghost use Rattle.std.specs.Prelude.{◌≡◌, [], is_some, option_map, unwrap_or, None, true, IfOk, OnErr};
    ghost use Rattle.xm_texts.specs.RowAnswers.{where_asked};

    /// None are asked for.
    pub(crate) fn unasked() -> Lines
        ensures { result ≡ None }
    {
        Lines { text: None }
    }

    /// Those of no row: the header, if they are asked for.
    pub(crate) fn of(alloc: Global, asked: bool, header: &str) -> Result<Lines, OutOfMemory>
        ensures begun { IfOk result (λ lines. lines ≡ where_asked asked header.now) }
        ensures asked { OnErr result (asked ≡ true) }
    {
        Ok(Lines {
            text: begun(alloc, asked, header)?,
        })
    }

    /// Those of this text, where there is one.
    pub fn behind(text: Option<Vec<u8>>) -> Lines
        ensures { result ≡ option_map (λ told. told.items) text }
    {
        Lines { text }
    }

    /// Whether they are asked for.
    #[inline(always)]
    pub fn are_asked(&self) -> bool
        ensures { result ≡ is_some self.now }
    {
        self.text.is_some()
    }

    /// Their text, which is empty where none was asked for.
    pub fn into_text(self, alloc: Global) -> Vec<u8>
        ensures { result.items ≡ unwrap_or self [] }
    {
        match self.text {
            None => Vec::new(alloc),
            Some(text) => text,
        }
    }
}

/// A text that is its header so far, if it is asked for.
pub(crate) fn begun(
    alloc: Global,
    asked: bool,
    header: &str,
) -> Result<Option<Vec<u8>>, OutOfMemory>
    ensures begun { IfOk result (λ text. option_map (λ told. told.items) text ≡ where_asked asked header.now) }
    ensures asked { OnErr result (asked ≡ true) }
{
    if !asked {
        return Ok(None);
    }
    let mut text = Vec::new(alloc);
    push_text(&mut text, header)?;
    Ok(Some(text))
}
