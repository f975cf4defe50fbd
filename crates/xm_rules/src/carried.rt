//! The orders and stops that a day begins with.
ghost use Rattle.std.specs.Prelude.{◌≡◌, IfOk};
ghost use Rattle.std.specs.List.{list_all};
ghost use Rattle.xm_rules.specs.Opening.{can_be_left, is_carriable, is_carriable_stop};
ghost use Rattle.xm_rules.specs.Entries.{are_distinct, names, none_left};

use crate::orders::{Order, Stop};
use std::alloc::Global;
use std::marker::Model;
use xm_memory::OutOfMemory;

/// The most orders and stops, together, that a security begins a day with.
pub const MAX_CARRIED: usize = 100_000;

/// The orders and stops that earlier days left, of which there may be none. A clause sees both lists.
#[derive(Debug)]
pub struct Carried {
    lists: Option<Lists>,
}

/// Orders and stops. Whether two of them have one name is found out where memory may be asked for, and kept.
#[derive(Debug)]
struct Lists {
    orders: Vec<Order>,
    stops: Vec<Stop>,
    have_own_names: bool,
}

// In functions of their own, so that whoever drops a desk's settings proves one call.
impl Drop for Carried {
    fn drop(self) {
        let Carried { lists: _lists } = self;
    }
}

impl Drop for Lists {
    fn drop(self) {
        let Lists {
            orders: _orders,
            stops: _stops,
            have_own_names: _,
        } = self;
    }
}

impl Model for Lists {
    ghost use Rattle.std.specs.Prelude.{◌≡◌};
    ghost use Rattle.xm_rules.specs.Entries.{Entries, are_distinct, names};

    ghost Value = { Entries };

    ghost view = { λ l. record { orders = l.orders.items; stops = l.stops.items } };

    ghost invariant = { λ l. l.have_own_names ≡ are_distinct (names (record { orders = l.orders.items; stops = l.stops.items })) };
}

impl Model for Carried {
    ghost use Rattle.xm_rules.specs.Entries.{Entries, left};

    ghost Value = { Entries };

    ghost view = { λ c. left c.lists };
}

impl Carried {
    /// No order and no stop.
    pub fn none() -> Carried
        ensures { result ≡ none_left }
    {
        Carried { lists: None }
    }

    /// These orders, in the order in which they stood in the time list, and these stops, in order of entry.
    pub fn of(alloc: Global, orders: Vec<Order>, stops: Vec<Stop>) -> Result<Carried, OutOfMemory>
        ensures { IfOk result (λ carried. carried ≡ record { orders = orders.items; stops = stops.items }) }
    {
        let mut names = names(alloc, &orders, &stops)?;
        let have_own_names = are_distinct(&mut names);
        let lists = Lists {
            orders,
            stops,
            have_own_names,
        };
        Ok(Carried { lists: Some(lists) })
    }

    /// The same orders and stops.
    pub fn copied(&self) -> Result<Carried, OutOfMemory>
        ensures { IfOk result (λ carried. carried ≡ self.now) }
    {
        let lists = match &self.lists {
            None => None,
            Some(lists) => Some(lists.copied()?),
        };
        Ok(Carried { lists })
    }

    /// The orders, in the order in which they stood in the time list.
    pub fn orders(&self) -> &[Order]
        ensures { result.now ≡ self.now.orders }
    {
        match &self.lists {
            None => &[],
            Some(lists) => lists.orders.as_slice(),
        }
    }

    /// The stops, in order of entry.
    pub fn stops(&self) -> &[Stop]
        ensures { result.now ≡ self.now.stops }
    {
        match &self.lists {
            None => &[],
            Some(lists) => lists.stops.as_slice(),
        }
    }

    /// Whether a security of so many members takes them: they are no more than `MAX_CARRIED`, earlier days may have left each of
    /// them, and no two have one name.
    pub fn can_be_left(&self, members: u32) -> bool
        ensures { result ≡ can_be_left members self.now }
    {
        let orders = self.orders();
        let stops = self.stops();
        orders.len() + stops.len() <= MAX_CARRIED
            && may_have_been_left(orders, members)
            && may_have_been_held(stops, members)
            && self.are_distinct()
    }

    /// Whether no two have one name.
    fn are_distinct(&self) -> bool
        ensures { result ≡ are_distinct (names self.now) }
    {
        match &self.lists {
            None => true,
            Some(lists) => lists.have_own_names,
        }
    }
}

impl Lists {
    /// The same orders and stops.
    fn copied(&self) -> Result<Lists, OutOfMemory>
        ensures { IfOk result (λ lists. lists ≡ self.now) }
    {
        Ok(Lists {
            orders: self.orders.clone()?,
            stops: self.stops.clone()?,
            have_own_names: self.have_own_names,
        })
    }
}

/// Whether earlier days may have left each of these orders.
fn may_have_been_left(orders: &[Order], members: u32) -> bool
    ensures { result ≡ list_all (is_carriable members) orders.now }
{
    orders.iter().all(|order| order.is_carriable(members))
}

/// Whether earlier days may have left each of these stops.
fn may_have_been_held(stops: &[Stop], members: u32) -> bool
    ensures { result ≡ list_all (is_carriable_stop members) stops.now }
{
    stops.iter().all(|stop| stop.is_carriable_stop(members))
}

/// The names of orders and stops.
fn names(alloc: Global, orders: &[Order], stops: &[Stop]) -> Result<Vec<(u32, u32)>, OutOfMemory>
    ensures { IfOk result (λ all. all.items ≡ names (record { orders = orders.now; stops = stops.now })) }
{
    let of_orders = orders.iter().map(|order| (order.member, order.reference));
    let of_stops = stops.iter().map(|stop| (stop.member, stop.reference));
    let names = of_orders.chain(of_stops).collect(alloc)?;
    Ok(names)
}

/// Whether no name stands twice. It puts them in order, where the same names are neighbours.
fn are_distinct(names: &mut [(u32, u32)]) -> bool
    ensures { result ≡ are_distinct names.old }
{
    names.sort_unstable();
    names.is_sorted_by(|name, next| name < next)
}
