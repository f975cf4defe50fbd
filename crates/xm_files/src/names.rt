//! The names of a segment.
ghost use Rattle.std.specs.Prelude.{ℕ, List, ◌≡◌, ◌≢◌, ◌<◌, ◌≤◌, [], ◌∷◌, ◌++◌, length, true, false, slice_get, position, option_map, OnOk, OnErr, IfErr, IfSome, Some};
ghost use Rattle.std.specs.List.{All, position_or_len};
ghost use Rattle.std.specs.Str.{bytes_eq};
ghost use Rattle.xm_files.specs.Hints.{LeadsInto, packed};
ghost use Rattle.xm_files.specs.Names.{is_among};

use crate::bytes::MAX_BYTES;
use crate::file_faults::FileCause;
use std::alloc::Global;
use std::collections::BTreeMap;
use std::marker::Model;
use xm_memory::{OutOfMemory, count_within};

/// The most names of a kind, which is more than a file has room for.
const MOST_NAMES: usize = MAX_BYTES;

/// How many places there are for hints.
const HINTS: usize = 1024;

/// The most bytes of a name that has a hint, which no name of a segment file exceeds.
const SHORT: usize = 12;

/// The index of the name that has so many bytes and packs to this number.
#[derive(Clone, Copy)]
struct Hint {
    number: u128,
    length: u32,
    index: u32,
}

/// Distinct names in index order, at most `MOST_NAMES`, found by their bytes. A clause sees the list
/// of their bytes.
///
/// The place of a short name among the hints has its own, or that of a later name with this place. So
/// most names are found by a look at one hint. The others are found in the order of their bytes, so that
/// no choice of names makes look-ups slow.
#[derive(Drop)]
pub(crate) struct NameList {
    names: Vec<String>,
    places: BTreeMap<String, u32>,
    hints: [Hint; HINTS],
}

impl Model for NameList {
    ghost use Rattle.std.specs.Prelude.{◌≡◌, ℕ, ◌≤◌, List, map, length, string_bytes, true};
    ghost use Rattle.std.specs.List.{All};
    ghost use Rattle.xm_files.specs.FileFaults.{max_bytes};
    ghost use Rattle.xm_files.specs.Hints.{LeadsInto};
    ghost use Rattle.xm_files.specs.Names.{ArePlaces};
    ghost use Rattle.xm_files.specs.Segment.{are_distinct_texts};

    ghost Value = { List (List ℕ) };

    ghost view = { λ n. map string_bytes n.names.items };

    ghost invariant = { λ n. record {
      few : length n.names.items ≤ max_bytes;
      distinct : are_distinct_texts (map string_bytes n.names.items) ≡ true;
      places : ArePlaces (map string_bytes n.names.items) n.places;
      hints : All (LeadsInto (map string_bytes n.names.items)) n.hints;
    } };
}

impl NameList {
    /// No names.
    pub(crate) fn new(alloc: Global) -> NameList
        ensures { result ≡ [] }
    {
        NameList {
            names: Vec::new(alloc),
            places: BTreeMap::new(alloc),
            hints: no_hints(),
        }
    }

    /// The number of names.
    pub(crate) fn len(&self) -> u32
        ensures len { result ≡ length self.now }
        ensures most { result ≤ MOST_NAMES }
    {
        self.names.len() as u32
    }

    /// The name with this index.
    pub(crate) fn get(&self, index: u32) -> Option<&str>
        ensures { option_map (λ name. name.now) result ≡ slice_get self.now index }
    {
        match self.names.get(index as usize) {
            Some(name) => Some(name.as_str()),
            None => None,
        }
    }

    /// The index of the name that has these bytes, or the number of names where none has them.
    #[inline(always)]
    fn index_of(&self, bytes: &[u8]) -> u32
        ensures { result ≡ position_or_len (bytes_eq bytes.now) self.now }
    {
        if let Some(index) = hinted(&self.hints, bytes) {
            return index;
        }
        match self.position(bytes) {
            Some(index) => index,
            None => self.len(),
        }
    }

    /// The index of the name that has these bytes.
    fn position(&self, bytes: &[u8]) -> Option<u32>
        ensures { result ≡ position (bytes_eq bytes.now) self.now }
    {
        match std::str::from_utf8(bytes) {
            Ok(name) => self.places.get(name).copied(),
            Err(_) => None,
        }
    }

    /// Adds a name at the end. `DuplicateName` says that it is there already, and `OutOfMemory`
    /// that a growth was refused or that there are `MOST_NAMES`; either leaves the names as they were.
    pub(crate) fn add(&mut self, alloc: Global, name: &str) -> Result<(), FileCause>
        ensures fresh { OnOk result (is_among name.now self.old ≡ false) }
        ensures added { OnOk result (self.new ≡ self.old ++ name.now ∷ []) }
        ensures causes { IfErr result (λ cause. cause ≢ FileCause.OutOfMemory tt → (cause ≡ FileCause.DuplicateName) × (is_among name.now self.old ≡ true)) }
        ensures kept { OnErr result (self.new ≡ self.old) }
    {
        if self.places.contains_key(name) {
            return Err(FileCause::DuplicateName);
        }
        self.push(alloc, name)?;
        Ok(())
    }

    /// Adds a name that isn't there yet.
    fn push(&mut self, alloc: Global, name: &str) -> Result<(), OutOfMemory>
        requires { is_among name.now self.old ≡ false }
        ensures added { OnOk result (self.new ≡ self.old ++ name.now ∷ []) }
        ensures kept { OnErr result (self.new ≡ self.old) }
    {
        count_within(self.names.len() as u64, MOST_NAMES as u64 - 1)?;
        let (bytes, index) = (name.as_bytes(), self.len());
        let (listed, placed) = (
            String::from_str(alloc, name)?,
            String::from_str(alloc, name)?,
        );
        self.names.reserve(1)?;
        self.places.insert(placed, index)?;
        self.names.push_reserved(listed);
        add_hint(&mut self.hints, bytes, index);
        Ok(())
    }
}

/// Hints of no name.
fn no_hints() -> [Hint; HINTS]
    ensures { All (LeadsInto []) result }
{
    let too_long = Hint {
        number: 0,
        length: SHORT as u32 + 1,
        index: 0,
    };
    [too_long; HINTS]
}

/// The index of a name, where its hint is there.
#[inline(always)]
fn hinted(hints: &[Hint; HINTS], name: &[u8]) -> Option<u32>
    ensures { (names : List (List ℕ)) → All (LeadsInto names) hints.now → IfSome result (λ index. slice_get names index ≡ Some name.now) }
{
    if name.len() > SHORT {
        return None;
    }
    let number = packed(name);
    let hint = hints[place_of(number)];
    if hint.number == number && hint.length as usize == name.len() {
        Some(hint.index)
    } else {
        None
    }
}

/// Notes the index of a name that comes last, where it is short.
fn add_hint(hints: &mut [Hint; HINTS], name: &[u8], index: u32)
    ensures { (names : List (List ℕ)) → length names ≡ index → All (LeadsInto names) hints.old → All (LeadsInto (names ++ name.now ∷ [])) hints.new }
{
    if name.len() <= SHORT {
        let number = packed(name);
        hints[place_of(number)] = Hint {
            number,
            length: name.len() as u32,
            index,
        };
    }
}

/// The number that the bytes of a short name write. No other name of as many bytes writes it.
fn packed(name: &[u8]) -> u128
    requires { length name.now ≤ SHORT }
    ensures { result ≡ packed name.now }
{
    let mut number = 0u128;
    for byte in name {
        number = number * 256 + u128::from(*byte);
    }
    number
}

/// The place among the hints of a name that packs to this number.
fn place_of(number: u128) -> usize
    ensures { result < HINTS }
{
    (number.wrapping_mul(0x9e37_79b9_7f4a_7c15) / (1 << 40) % HINTS as u128) as usize
}

/// The names of the members and the securities of a segment, in index order. A clause sees the
/// lists of their bytes.
pub struct SegmentNames {
    members: NameList,
    securities: NameList,
}

// In a function of its own, so that whoever drops them proves one call.
impl Drop for SegmentNames {
    fn drop(self) {
        let SegmentNames {
            members: _members,
            securities: _securities,
        } = self;
    }
}

impl Model for SegmentNames {
    ghost use Rattle.xm_files.specs.Names.{NameLists};

    ghost Value = { NameLists };

    ghost view = { λ n. record { members = n.members; securities = n.securities } };
}

impl SegmentNames {
    /// The names of these members and these securities.
    pub(crate) fn new(members: NameList, securities: NameList) -> SegmentNames
        ensures { result ≡ record { members = members; securities = securities } }
    {
        SegmentNames {
            members,
            securities,
        }
    }

    /// The number of members.
    pub fn members(&self) -> u32
        ensures { result ≡ length self.now.members }
    {
        self.members.len()
    }

    /// The number of securities.
    pub fn securities(&self) -> u32
        ensures { result ≡ length self.now.securities }
    {
        self.securities.len()
    }

    /// The name of the member with this index.
    pub fn member(&self, index: u32) -> Option<&str>
        ensures { option_map (λ name. name.now) result ≡ slice_get self.now.members index }
    {
        self.members.get(index)
    }

    /// The name of the security with this index.
    pub fn security(&self, index: u32) -> Option<&str>
        ensures { option_map (λ name. name.now) result ≡ slice_get self.now.securities index }
    {
        self.securities.get(index)
    }

    /// The index of the member with this name, or the number of members where none has it.
    #[inline(always)]
    pub(crate) fn member_index(&self, name: &[u8]) -> u32
        ensures { result ≡ position_or_len (bytes_eq name.now) self.now.members }
    {
        self.members.index_of(name)
    }

    /// The index of the security with this name, or the number of securities where none has it.
    #[inline(always)]
    pub fn security_index(&self, name: &[u8]) -> u32
        ensures { result ≡ position_or_len (bytes_eq name.now) self.now.securities }
    {
        self.securities.index_of(name)
    }
}
