//! The files of a case, as texts, and what is printed.

use std::io::ErrorKind;
use std::rt::Files;
use std::{fs, io};

/// A case was not run or not compared: memory, a file or the printing was refused.
#[derive(Clone, Copy, Debug)]
pub struct CaseFault;

/// The path of a file of a case.
pub fn path<R: AllocGlobal>(rt: &R, name: &str, ending: &str) -> Result<String, CaseFault> {
    match format!(in rt.alloc(); "{name}.{ending}") {
        Ok(path) => Ok(path),
        Err(_) => Err(CaseFault),
    }
}

/// The path of the order file of a case with this number, from 2 on.
pub fn orders_path<R: AllocGlobal>(rt: &R, name: &str, number: usize) -> Result<String, CaseFault> {
    match format!(in rt.alloc(); "{name}.orders.{number}.csv") {
        Ok(path) => Ok(path),
        Err(_) => Err(CaseFault),
    }
}

/// What is stored at a path; nothing where there is no file.
pub fn stored<R: AllocGlobal + Files>(rt: &R, path: &str) -> Result<Vec<u8>, CaseFault> {
    match fs::read(rt, path) {
        Ok(text) => Ok(text),
        Err(error) => none_stored(rt, error.kind()),
    }
}

fn none_stored<R: AllocGlobal>(rt: &R, kind: ErrorKind) -> Result<Vec<u8>, CaseFault> {
    if kind == ErrorKind::NotFound {
        Ok(Vec::new(rt.alloc()))
    } else {
        Err(CaseFault)
    }
}

/// What became of printing.
pub fn said(printed: io::Result<()>) -> Result<(), CaseFault> {
    match printed {
        Ok(()) => Ok(()),
        Err(_) => Err(CaseFault),
    }
}
