//! The end of a day.
ghost use Rattle.xm_book.specs.Listing.{order_owner, order_reference};
ghost use Rattle.xm_slots.specs.Naming.{key_by_name};
ghost use Rattle.std.specs.Prelude.{◌≡◌, ◌+◌, ℕ, Bool, Contains, true, filter};
ghost use Rattle.std.specs.List.{list_all};
ghost use Rattle.xm_book.specs.Expiry.{outlives};
ghost use Rattle.xm_book.specs.Indexed.{AreOrdersIndexed};
ghost use Rattle.xm_slots.specs.Listing.{is_done};
ghost use Rattle.xm_slots.specs.declared.listing.Listed.{Listed};
ghost use Rattle.xm_name_index.specs.Names.{lookup, reserved};
ghost use Rattle.xm_rules.specs.declared.orders.Order.{Order};

use crate::order_queues::OrderQueues;
use std::alloc::Allocator;
use xm_name_index::Names;

/// Takes out the orders that aren't valid beyond a day, with their names. The names go member by member, as they lie
/// together, and then the orders by their keys: by its name, each order would be looked up in another member's table.
pub fn drop_expired<A: Allocator + Copy>(
    queues: &mut OrderQueues<A>,
    names: &mut Names<A>,
    today: u32,
)
    requires { AreOrdersIndexed queues.old names.old }
    ensures indexed { AreOrdersIndexed queues.new names.new }
    ensures left { queues.new ≡ record queues.old { orders = filter (outlives today) queues.old.orders } }
{
    drop_names(queues, names, today);
    drop_orders(queues, today);
}

/// Keeps the names of the orders that are valid beyond a day.
fn drop_names<A: Allocator + Copy>(queues: &OrderQueues<A>, names: &mut Names<A>, today: u32)
    requires { AreOrdersIndexed queues.now names.old }
    ensures names { (m r : ℕ) → lookup names.new m r ≡ key_by_name order_owner order_reference m r (filter (outlives today) queues.now.orders) }
    ensures reserved { (m : ℕ) → reserved names.new m ≡ reserved names.old m }
{
    names.retain(
        &|key: usize| -> bool
            ensures { (x : Listed Order) → Contains queues.entry.now.orders x → x.key ≡ key → result ≡ outlives today x }
        { is_valid_beyond(queues, key, today) },
    );
}

/// Takes out the orders that aren't valid beyond a day, in one pass over the keys.
fn drop_orders<A: Allocator + Copy>(queues: &mut OrderQueues<A>, today: u32)
    ensures { queues.new ≡ record queues.old { orders = filter (outlives today) queues.old.orders } }
{
    for key in 0..queues.key_limit() {
        drop_if_expired(queues, key, today);
    }
}

/// Takes out the order of a key, where it has one that isn't valid beyond a day.
fn drop_if_expired<A: Allocator + Copy>(queues: &mut OrderQueues<A>, key: usize, today: u32)
    ensures rest { queues.new ≡ record queues.old { orders = queues.new.orders } }
    ensures valid { filter (outlives today) queues.new.orders ≡ filter (outlives today) queues.old.orders }
    ensures done { list_all (is_done (outlives today) key) queues.old.orders ≡ true → list_all (is_done (outlives today) (key + 1)) queues.new.orders ≡ true }
    ensures fewer { (p : Listed Order → Bool) → list_all p queues.old.orders ≡ true → list_all p queues.new.orders ≡ true }
{
    let Some(entry) = queues.get(key) else {
        return;
    };
    if entry.item.validity.outlasts(today) {
        return;
    }
    queues.take(key);
}

/// Whether the order of a key is valid beyond a day.
fn is_valid_beyond<A: Allocator + Copy>(queues: &OrderQueues<A>, key: usize, today: u32) -> bool
    ensures { (x : Listed Order) → Contains queues.now.orders x → x.key ≡ key → result ≡ outlives today x }
{
    match queues.get(key) {
        Some(entry) => entry.item.validity.outlasts(today),
        None => false,
    }
}
