//! The mistakes of a segment file.
ghost use Rattle.std.specs.Prelude.{◌≡◌, ◌≤◌, length, IfOk};
ghost use Rattle.xm_files.specs.Segment.{segment_of};
ghost use Rattle.xm_mistakes.specs.Mistakes.{fault_in, first_fault};

use crate::faults::segment_fault;
use crate::key_lines::{Owner, key_line, key_place, place_words, quoted_line, security_line};
use crate::keys::{Key, SECURITY_KEYS, TOP_KEYS, meant, named};
use crate::syntax::syntax_words;
use crate::values::{shown_value, takes, tick_of, value_words};
use std::alloc::Global;
use std::collections::BTreeMap;
use std::mem;
use toml::value::Array;
use toml::{Table, Value};
use xm_files::{FileCause, FileFault, MAX_BYTES};
use xm_memory::OutOfMemory;
use xm_mistakes::{Mistake, around, joined, led_by, numbered, ordinal, out_of_memory};
use xm_ticks::TickSize;

/// The mistakes of a segment file, at most so many: none where a run reads the file without a fault, and else the fault of the run
/// first. Where the file is no TOML, no other one is told.
pub fn segment_mistakes(
    alloc: Global,
    bytes: &[u8],
    most: usize,
) -> Result<Vec<Mistake>, OutOfMemory>
    requires { 1 ≤ most }
    ensures first { IfOk result (λ found. first_fault found.items ≡ fault_in (segment_of bytes.now)) }
    ensures few { IfOk result (λ found. length found.items ≤ most) }
{
    match segment_fault(alloc, bytes) {
        Ok(None) => Ok(Vec::new(alloc)),
        Ok(Some(fault)) => {
            let found = found_in(alloc, bytes, &fault, most)?;
            led_by(alloc, fault, found, most)
        }
        Err(wanting) => Err(wanting),
    }
}

/// The mistakes of a segment file that has a first fault.
fn found_in(
    alloc: Global,
    text: &[u8],
    fault: &FileFault,
    most: usize,
) -> Result<Vec<Mistake>, OutOfMemory> {
    let words = match &fault.cause {
        FileCause::TooLong => numbered(
            alloc,
            "the file has more than ",
            MAX_BYTES,
            " bytes, which is the most that a segment file may have",
        )?,
        FileCause::Syntax => syntax_words(alloc, text)?,
        _ => return found_in_toml(alloc, text, most),
    };
    lone(alloc, fault, words)
}

/// One mistake.
fn lone(alloc: Global, fault: &FileFault, words: String) -> Result<Vec<Mistake>, OutOfMemory> {
    let mut found = Vec::new(alloc);
    found.push(Mistake {
        fault: *fault,
        words,
    })?;
    Ok(found)
}

/// The mistakes of a file that is TOML.
fn found_in_toml(alloc: Global, text: &[u8], most: usize) -> Result<Vec<Mistake>, OutOfMemory> {
    let table = match toml::table_from_slice(alloc, text) {
        Ok(table) => table,
        Err(error) => return Err(out_of_memory(&error)),
    };
    let mut telling = Telling {
        alloc,
        text,
        found: Vec::new(alloc),
        astray: Vec::new(alloc),
    };
    telling.tell(&table, most)?;
    Ok(mem::replace(&mut telling.found, Vec::new(alloc)))
}

/// The mistakes of a file that were found so far.
#[derive(Drop)]
struct Telling<'a> {
    alloc: Global,
    text: &'a [u8],
    found: Vec<Mistake>,
    /// The top keys that stand in a security.
    astray: Vec<Key>,
}

impl Telling<'_> {
    /// Tells the mistakes of a file, in the order of a run's checks.
    fn tell(&mut self, table: &Table, most: usize) -> Result<(), OutOfMemory> {
        self.tell_table(table, Owner::Top)?;
        if let Some(Value::Array(members)) = table.get("members") {
            self.tell_members_twice(members)?;
        }
        if let Some(Value::Array(securities)) = table.get("security") {
            self.tell_securities(securities, most)?;
        }
        Ok(())
    }

    /// Adds a mistake.
    fn push(&mut self, owner: Owner, cause: FileCause, words: String) -> Result<(), OutOfMemory> {
        let line = owner.fault_line();
        self.found.push(Mistake {
            fault: FileFault { line, cause },
            words,
        })?;
        Ok(())
    }

    /// Tells the keys of a table that are missing, such as aren't known, and the values of the others that a run refuses.
    fn tell_table(&mut self, table: &Table, owner: Owner) -> Result<(), OutOfMemory> {
        for key in owner.keys() {
            if table.get(key.title()).is_none() {
                self.tell_missing(table, owner, *key)?;
            }
        }
        for word in table.keys() {
            self.tell_unknown(table, owner, word.as_str())?;
        }
        let tick = tick_of(table);
        for key in owner.keys() {
            if let Some(value) = table.get(key.title()) {
                self.tell_value(owner, *key, tick, value)?;
            }
        }
        Ok(())
    }

    /// Tells a key that is missing.
    fn tell_missing(&mut self, table: &Table, owner: Owner, key: Key) -> Result<(), OutOfMemory> {
        if line_in_security(self.text, table, key.title()).is_some() {
            self.astray.push(key)?;
        }
        let words = missing(self.alloc, self.text, table, owner, key)?;
        self.push(owner, FileCause::MissingKey, words)
    }

    /// Tells a key, if it isn't known and wasn't told with a missing one.
    fn tell_unknown(&mut self, table: &Table, owner: Owner, word: &str) -> Result<(), OutOfMemory> {
        if named(word, owner.keys()).is_some()
            || named(word, self.astray.as_slice()).is_some()
            || stands_for(self.alloc, table, word, owner)?
        {
            return Ok(());
        }
        let words = unknown(self.alloc, self.text, owner, word)?;
        self.push(owner, FileCause::UnknownKey, words)
    }

    /// Tells a value of a key, if a run refuses it.
    fn tell_value(
        &mut self,
        owner: Owner,
        key: Key,
        tick: TickSize,
        value: &Value,
    ) -> Result<(), OutOfMemory> {
        match (key, value) {
            (Key::Security, Value::Array(tables)) => return self.tell_tables(tables),
            (Key::Members, Value::Array(names)) => return self.tell_names(names),
            _ => {}
        }
        if takes(self.alloc, key, tick, value)? {
            return Ok(());
        }
        let words = refused(self.alloc, self.text, owner, key, tick, value)?;
        self.push(owner, FileCause::BadValue, words)
    }

    /// Tells members that are no names.
    fn tell_names(&mut self, names: &Array) -> Result<(), OutOfMemory> {
        let mut index = 0usize;
        for name in names {
            if !is_member_name(self.alloc, name)? {
                let words = no_name(self.alloc, self.text, index, name)?;
                self.push(Owner::Top, FileCause::BadValue, words)?;
            }
            index = index.saturating_add(1);
        }
        Ok(())
    }

    /// Tells securities that are no tables.
    fn tell_tables(&mut self, tables: &Array) -> Result<(), OutOfMemory> {
        let mut index = 0usize;
        for table in tables {
            if table.as_table().is_none() {
                let words = no_table(self.alloc, self.text, index, table)?;
                self.push(Owner::Top, FileCause::BadValue, words)?;
            }
            index = index.saturating_add(1);
        }
        Ok(())
    }

    /// Tells members whose names occur again.
    fn tell_members_twice(&mut self, names: &Array) -> Result<(), OutOfMemory> {
        let mut seen = BTreeMap::new(self.alloc);
        let mut index = 0usize;
        for name in names {
            self.tell_member_twice(&mut seen, name, index)?;
            index = index.saturating_add(1);
        }
        Ok(())
    }

    /// Tells a member whose name was seen before.
    fn tell_member_twice(
        &mut self,
        seen: &mut BTreeMap<String, usize>,
        name: &Value,
        index: usize,
    ) -> Result<(), OutOfMemory> {
        let Some(name) = name.as_str() else {
            return Ok(());
        };
        let Some(first) = earlier(self.alloc, seen, name, index)? else {
            return Ok(());
        };
        let words = twice(self.alloc, self.text, name, first, index)?;
        self.push(Owner::Top, FileCause::DuplicateName, words)
    }

    /// Tells the mistakes of the securities, until so many were found.
    fn tell_securities(&mut self, securities: &Array, most: usize) -> Result<(), OutOfMemory> {
        let mut seen = BTreeMap::new(self.alloc);
        let mut index = 0usize;
        for security in securities {
            if self.found.len() >= most {
                break;
            }
            if let Some(table) = security.as_table() {
                self.tell_table(table, Owner::Security(index))?;
                self.tell_security_twice(&mut seen, table, index)?;
            }
            index = index.saturating_add(1);
        }
        Ok(())
    }

    /// Tells a security whose name was seen before.
    fn tell_security_twice(
        &mut self,
        seen: &mut BTreeMap<String, usize>,
        table: &Table,
        index: usize,
    ) -> Result<(), OutOfMemory> {
        let Some(Value::String(name)) = table.get("name") else {
            return Ok(());
        };
        let Some(first) = earlier(self.alloc, seen, name.as_str(), index)? else {
            return Ok(());
        };
        let owner = Owner::Security(index);
        let words = second_security(self.alloc, self.text, name.as_str(), first, owner)?;
        self.push(owner, FileCause::DuplicateName, words)
    }
}

/// Whether a value may be the name of a member.
fn is_member_name(alloc: Global, name: &Value) -> Result<bool, OutOfMemory> {
    let mut names = Vec::new(alloc);
    names.push(name.clone()?)?;
    takes(alloc, Key::Members, TickSize::FINEST, &Value::Array(names))
}

/// The index under which a name was seen before; else it is seen now.
fn earlier(
    alloc: Global,
    seen: &mut BTreeMap<String, usize>,
    name: &str,
    index: usize,
) -> Result<Option<usize>, OutOfMemory> {
    if let Some(first) = seen.get(name) {
        return Ok(Some(*first));
    }
    let name = String::from_str(alloc, name)?;
    seen.insert(name, index)?;
    Ok(None)
}

/// The words for a value that a run refuses.
fn refused(
    alloc: Global,
    text: &[u8],
    owner: Owner,
    key: Key,
    tick: TickSize,
    value: &Value,
) -> Result<String, OutOfMemory> {
    let place = key_place(alloc, text, owner, key.title())?;
    let words = value_words(alloc, key, tick, value)?;
    joined(
        alloc,
        &[place.as_str(), "key ", key.title(), ": ", words.as_str()],
    )
}

/// The words for a member that is no name.
fn no_name(alloc: Global, text: &[u8], index: usize, name: &Value) -> Result<String, OutOfMemory> {
    let line = match name {
        Value::String(name) => quoted_line(text, name.as_str(), 0),
        _ => key_line(text, Owner::Top, "members"),
    };
    let place = place_words(alloc, line, Owner::Top)?;
    let which = ordinal(alloc, index)?;
    let words = value_words(alloc, Key::Name, TickSize::FINEST, name)?;
    let parts = [
        place.as_str(),
        "key members, the ",
        which.as_str(),
        " member: ",
        words.as_str(),
    ];
    joined(alloc, &parts)
}

/// The words for a security that is no table.
fn no_table(
    alloc: Global,
    text: &[u8],
    index: usize,
    table: &Value,
) -> Result<String, OutOfMemory> {
    let place = key_place(alloc, text, Owner::Top, "security")?;
    let which = ordinal(alloc, index)?;
    let found = shown_value(alloc, Key::Security, table)?;
    let parts = [
        place.as_str(),
        "key security: the ",
        which.as_str(),
        " one, ",
        found.as_str(),
        ", is no table; ",
        Key::Security.may(),
    ];
    joined(alloc, &parts)
}

/// The words for the name of a member that occurs again.
fn twice(
    alloc: Global,
    text: &[u8],
    name: &str,
    first: usize,
    second: usize,
) -> Result<String, OutOfMemory> {
    let place = place_words(alloc, quoted_line(text, name, 1), Owner::Top)?;
    let before = joined(alloc, &[place.as_str(), "key members: "])?;
    let (first, second) = (ordinal(alloc, first)?, ordinal(alloc, second)?);
    let parts = [
        " stands twice, as the ",
        first.as_str(),
        " and as the ",
        second.as_str(),
        " member",
    ];
    let after = joined(alloc, &parts)?;
    around(alloc, before.as_str(), name.as_bytes(), after.as_str())
}

/// The words for a security that has the name of another one.
fn second_security(
    alloc: Global,
    text: &[u8],
    name: &str,
    first: usize,
    owner: Owner,
) -> Result<String, OutOfMemory> {
    let place = key_place(alloc, text, owner, "name")?;
    let before = joined(alloc, &[place.as_str(), "key name: "])?;
    let which = ordinal(alloc, first)?;
    let line = match key_line(text, Owner::Security(first), "name") {
        Some(line) => numbered(alloc, " in line ", line, "")?,
        None => String::new(alloc),
    };
    let parts = [
        " is the name of the ",
        which.as_str(),
        " security already",
        line.as_str(),
    ];
    let after = joined(alloc, &parts)?;
    around(alloc, before.as_str(), name.as_bytes(), after.as_str())
}

/// Whether an unknown key of a table stands where a missing one should, with which it is told.
fn stands_for(alloc: Global, table: &Table, word: &str, owner: Owner) -> Result<bool, OutOfMemory> {
    match meant(alloc, word, owner.keys())? {
        Some(key) => Ok(table.get(key.title()).is_none()),
        None => Ok(false),
    }
}

/// The first unknown key of a table by which a key was meant.
fn stand_in<'t>(
    alloc: Global,
    table: &'t Table,
    owner: Owner,
    key: Key,
) -> Result<Option<&'t str>, OutOfMemory> {
    for word in table.keys() {
        let word = word.as_str();
        if named(word, owner.keys()).is_none() && meant(alloc, word, owner.keys())? == Some(key) {
            return Ok(Some(word));
        }
    }
    Ok(None)
}

/// The words for a missing key, and for the unknown one that stands in its place, if one does.
fn missing(
    alloc: Global,
    text: &[u8],
    table: &Table,
    owner: Owner,
    key: Key,
) -> Result<String, OutOfMemory> {
    let title = key.title();
    if let Some(word) = stand_in(alloc, table, owner, key)? {
        let parts = [" is unknown, and ", title, " is missing: write ", title];
        return about_key(alloc, text, owner, word, &parts);
    }
    if owner == Owner::Top
        && let Some(line) = line_in_security(text, table, title)
    {
        let place = numbered(alloc, "line ", line, ", key ")?;
        let end =
            " stands behind a line [[security]], so it is one of that security: move it to the top of the file";
        return joined(alloc, &[place.as_str(), title, end]);
    }
    let line = match owner {
        Owner::Top => None,
        Owner::Security(index) => security_line(text, index),
    };
    let place = place_words(alloc, line, owner)?;
    let said = " is missing: add a line such as ";
    joined(alloc, &[place.as_str(), "key ", title, said, key.example()])
}

/// The words for a key that a table has, of which something is said.
fn about_key(
    alloc: Global,
    text: &[u8],
    owner: Owner,
    word: &str,
    said: &[&str],
) -> Result<String, OutOfMemory> {
    let place = key_place(alloc, text, owner, word)?;
    let before = joined(alloc, &[place.as_str(), "key "])?;
    let after = joined(alloc, said)?;
    around(alloc, before.as_str(), word.as_bytes(), after.as_str())
}

/// The line of a top key that stands in a security.
fn line_in_security(text: &[u8], table: &Table, title: &str) -> Option<usize> {
    let Some(Value::Array(securities)) = table.get("security") else {
        return None;
    };
    let mut index = 0usize;
    for security in securities {
        if let Some(table) = security.as_table()
            && table.get(title).is_some()
        {
            return key_line(text, Owner::Security(index), title);
        }
        index = index.saturating_add(1);
    }
    None
}

/// The words for a key that isn't known.
fn unknown(alloc: Global, text: &[u8], owner: Owner, word: &str) -> Result<String, OutOfMemory> {
    if owner == Owner::Top && named(word, &SECURITY_KEYS).is_some() {
        let said = " is one of a security: move it behind a line [[security]]";
        return about_key(alloc, text, owner, word, &[said]);
    }
    if named(word, &TOP_KEYS).is_some() {
        let said = " stands at the top of the file, before all lines [[security]]: delete it here";
        return about_key(alloc, text, owner, word, &[said]);
    }
    match meant(alloc, word, owner.keys())? {
        Some(key) => {
            let parts = [
                " is unknown, and ",
                key.title(),
                " is there already: delete one",
            ];
            about_key(alloc, text, owner, word, &parts)
        }
        None => {
            let parts = [" is unknown: delete it; the keys here are ", owner.titles()];
            about_key(alloc, text, owner, word, &parts)
        }
    }
}
