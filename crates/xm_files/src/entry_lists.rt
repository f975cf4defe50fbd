//! The orders and stops of one security that a carry file lists.
ghost use Rattle.std.specs.Prelude.{◌≡◌, ◌≢◌, ◌++◌, ◌∷◌, [], Ok, Err, OnOk, OnErr, IfErr, IfOk, false};
ghost use Rattle.std.specs.Bool.{OnTrue};
ghost use Rattle.std.specs.List.{list_any};
ghost use Rattle.xm_rules.specs.Entries.{is_same_name, names, none_left, order_name, stop_name};
ghost use Rattle.xm_files.specs.Carry.{entry_name, one_more, with_one_more};
ghost use Rattle.xm_files.specs.FileFaults.{is_from_outside};

use crate::file_faults::{FileCause, FileFault};
use crate::listed::CarriedEntry;
use crate::orders::fault_at;
use std::alloc::Global;
use std::marker::Model;
use std::mem;
use xm_memory::OutOfMemory;
use xm_name_index::{Names, Storage};
use xm_rules::{Carried, MAX_CARRIED, Order, Stop};

/// The orders and stops of a security that were read so far, in the order of the file. A clause sees both lists.
pub(crate) struct EntryLists {
    orders: Vec<Order>,
    stops: Vec<Stop>,
    // The names of both.
    taken: Names<Global>,
}

impl Drop for EntryLists {
    fn drop(self) {
        let EntryLists {
            orders: _orders,
            stops: _stops,
            taken: _taken,
        } = self;
    }
}

impl Model for EntryLists {
    ghost use Rattle.std.specs.Prelude.{◌≡◌, ℕ, is_some};
    ghost use Rattle.std.specs.List.{list_any};
    ghost use Rattle.xm_name_index.specs.Names.{lookup};
    ghost use Rattle.xm_rules.specs.Entries.{Entries, is_same_name, names};

    ghost Value = { Entries };

    ghost view = { λ l. record { orders = l.orders.items; stops = l.stops.items } };

    ghost invariant = { λ l. (m r : ℕ) → is_some (lookup l.taken m r) ≡ list_any (is_same_name (m, r)) (names (record { orders = l.orders.items; stops = l.stops.items })) };
}

impl EntryLists {
    /// No order and no stop.
    pub(crate) fn new(storage: Storage<Global>) -> EntryLists
        ensures { result ≡ none_left }
    {
        EntryLists {
            orders: Vec::new(storage.alloc),
            stops: Vec::new(storage.alloc),
            taken: Names::new(storage),
        }
    }

    /// Adds an entry at the end, whose record has this number.
    pub(crate) fn add(&mut self, line: u32, entry: &CarriedEntry) -> Result<(), FileFault>
        ensures ok { OnOk result (with_one_more line self.old entry.now ≡ Ok self.new) }
        ensures err { IfErr result (λ fault. fault.cause ≢ FileCause.OutOfMemory tt → with_one_more line self.old entry.now ≡ Err fault) }
        ensures memory { IfErr result (λ fault. OnTrue (is_from_outside fault.cause) (fault.line ≡ 0)) }
    {
        if self.has_name_of(entry) {
            return Err(fault_at(line, FileCause::DuplicateName));
        }
        if self.orders.len() + self.stops.len() >= MAX_CARRIED {
            return Err(fault_at(line, FileCause::TooManyRows));
        }
        self.push(entry)?;
        Ok(())
    }

    /// Whether one of them has the name of this entry.
    pub(crate) fn has_name_of(&self, entry: &CarriedEntry) -> bool
        ensures { result ≡ list_any (is_same_name (entry_name entry.now)) (names self.now) }
    {
        let (member, reference) = entry.name();
        self.taken.get(member, reference).is_some()
    }

    /// Adds an entry at the end that has a name of its own.
    fn push(&mut self, entry: &CarriedEntry) -> Result<(), OutOfMemory>
        requires { list_any (is_same_name (entry_name entry.now)) (names self.old) ≡ false }
        ensures { OnOk result (self.new ≡ one_more self.old entry.now) }
    {
        let (member, reference) = entry.name();
        self.taken.reserve(member)?;
        push_entry(&mut self.orders, &mut self.stops, entry)?;
        self.taken.insert(member, reference, 0);
        Ok(())
    }

    /// Gives the orders and stops up, as what earlier days left.
    pub(crate) fn give(&mut self, storage: Storage<Global>) -> Result<Carried, OutOfMemory>
        ensures given { IfOk result (λ carried. carried ≡ self.old) }
        ensures left { self.new ≡ none_left }
    {
        let given = mem::replace(self, EntryLists::new(storage));
        given.into_carried(storage.alloc)
    }

    /// The orders and stops, as what earlier days left.
    fn into_carried(self, alloc: Global) -> Result<Carried, OutOfMemory>
        ensures { IfOk result (λ carried. carried ≡ self) }
    {
        let EntryLists {
            orders,
            stops,
            taken: _taken,
        } = self;
        Carried::of(alloc, orders, stops)
    }
}

/// Adds an entry at the end of its list.
fn push_entry(
    orders: &mut Vec<Order>,
    stops: &mut Vec<Stop>,
    entry: &CarriedEntry,
) -> Result<(), OutOfMemory>
    ensures ok { OnOk result (record { orders = orders.new.items; stops = stops.new.items } ≡ one_more (record { orders = orders.old.items; stops = stops.old.items }) entry.now) }
    ensures err { OnErr result ((orders.new.items ≡ orders.old.items) × (stops.new.items ≡ stops.old.items)) }
{
    match entry {
        CarriedEntry::Order(order) => push(orders, order),
        CarriedEntry::Stop(stop) => push(stops, stop),
    }
}

/// Adds a value at the end of a list.
fn push<T: Copy + Drop>(list: &mut Vec<T>, value: &T) -> Result<(), OutOfMemory>
    ensures ok { OnOk result (list.new.items ≡ list.old.items ++ value.now ∷ []) }
    ensures err { OnErr result (list.new.items ≡ list.old.items) }
{
    list.push(*value)?;
    Ok(())
}
