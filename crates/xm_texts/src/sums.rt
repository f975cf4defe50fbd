//! The cash of members, in ten-thousandths of a euro.
ghost use Rattle.std.specs.Prelude.{◌≡◌, ◌^◌, ◌<◌, ◌≤◌, length, map, unsigned_abs};
ghost use Rattle.xm_texts.specs.Statement.{cash_in, total_cash};
ghost use Rattle.xm_rules.specs.Step.{replay};

use std::alloc::Allocator;
use xm_desk::Desk;

/// What a member received in a security less what it paid, in ten-thousandths of a euro.
pub fn cash_in<A: Allocator + Copy>(desk: &Desk<A>, member: u32) -> i128
    ensures cash { result ≡ cash_in (replay desk.now) member }
    ensures little { unsigned_abs result ≤ 2 ^ 80 }
{
    match desk.cash(member) {
        None => 0,
        Some(cash) => i128::from(cash) * i128::from(desk.settings().tick.get()),
    }
}

/// The cash of a member over all securities, in ten-thousandths of a euro.
pub fn total_cash<A: Allocator + Copy>(desks: &[Desk<A>], member: u32) -> i128
    requires { length desks.now < 2 ^ 32 }
    ensures { result ≡ total_cash (map replay desks.now) member }
{
    let mut cash = 0;
    for desk in desks {
        cash += cash_in(desk, member);
    }
    cash
}
