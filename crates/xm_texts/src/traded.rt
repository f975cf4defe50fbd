//! The lines of the statement that tell what was traded.
ghost use Rattle.std.specs.Prelude.{◌≡◌, ◌^◌, ◌<◌, ◌++◌, OnOk, length, map};
ghost use Rattle.std.specs.List.{flat_map};
ghost use Rattle.xm_texts.specs.Statement.{cash_line, member_indices, member_line, net_line, net_position_line, total_text, trade_line};
ghost use Rattle.xm_rules.specs.Step.{replay};
ghost use Rattle.xm_rules.specs.Sums.{total_money, total_quantity};

use crate::fields::{
    member_name, push_money, push_number, push_party, push_price, push_space, push_text, written,
};
use crate::sums::{cash_in, total_cash};
use crate::words::trade_word;
use std::alloc::Allocator;
use std::io::Write;
use xm_desk::Desk;
use xm_files::SegmentNames;
use xm_memory::OutOfMemory;
use xm_rules::Trade;
use xm_ticks::TickSize;

/// The lines of some trades.
pub fn push_trades<A: Allocator>(
    text: &mut Vec<u8, A>,
    trades: &[Trade],
    names: &SegmentNames,
    tick: TickSize,
) -> Result<(), OutOfMemory>
    ensures { OnOk result (text.new.items ≡ text.old.items ++ flat_map (trade_line names.now tick) trades.now) }
{
    for trade in trades {
        push_trade(text, trade, names, tick)?;
    }
    Ok(())
}

/// The line of a trade.
fn push_trade<A: Allocator>(
    text: &mut Vec<u8, A>,
    trade: &Trade,
    names: &SegmentNames,
    tick: TickSize,
) -> Result<(), OutOfMemory>
    ensures { OnOk result (text.new.items ≡ text.old.items ++ trade_line names.now tick trade.now) }
{
    push_text(text, "TRADE ")?;
    push_number(text, trade.sweep)?;
    push_space(text)?;
    push_text(text, trade_word(trade.kind))?;
    push_space(text)?;
    push_price(text, trade.price, tick)?;
    push_space(text)?;
    push_number(text, u64::from(trade.quantity))?;
    push_space(text)?;
    push_party(text, names, trade.buyer, trade.buy_ref)?;
    push_space(text)?;
    push_party(text, names, trade.seller, trade.sell_ref)?;
    push_text(text, "\n")
}

/// The net positions of the members in a security.
pub fn push_nets<A: Allocator, B: Allocator + Copy>(
    text: &mut Vec<u8, A>,
    desk: &Desk<B>,
    names: &SegmentNames,
) -> Result<(), OutOfMemory>
    ensures { OnOk result (text.new.items ≡ text.old.items ++ flat_map (net_line names.now (replay desk.now)) (member_indices names.now)) }
{
    for member in 0..names.members() {
        push_net(text, desk, names, member)?;
    }
    Ok(())
}

/// The net position of a member in a security and its cash there, where it bought or sold a unit.
fn push_net<A: Allocator, B: Allocator + Copy>(
    text: &mut Vec<u8, A>,
    desk: &Desk<B>,
    names: &SegmentNames,
    member: u32,
) -> Result<(), OutOfMemory>
    ensures { OnOk result (text.new.items ≡ text.old.items ++ net_line names.now (replay desk.now) member) }
{
    if desk.has_traded(member) {
        let units = desk.net(member).unwrap_or(0);
        let name = member_name(names, member);
        push_net_position(text, name, units, cash_in(desk, member))?;
    }
    Ok(())
}

/// The line of a net position, in units and in ten-thousandths of a euro.
fn push_net_position<A: Allocator>(
    text: &mut Vec<u8, A>,
    name: &str,
    units: i64,
    amount: i128,
) -> Result<(), OutOfMemory>
    ensures { OnOk result (text.new.items ≡ text.old.items ++ net_position_line name.now units amount) }
{
    written(write!(text, "NET {name} {units} "))?;
    push_money(text, amount)?;
    push_text(text, "\n")
}

/// What was traded of a security.
pub fn push_total<A: Allocator, B: Allocator + Copy>(
    text: &mut Vec<u8, A>,
    desk: &Desk<B>,
) -> Result<(), OutOfMemory>
    ensures { OnOk result (text.new.items ≡ text.old.items ++ total_text (replay desk.now).settings.tick (total_quantity (replay desk.now).trades) (total_money (replay desk.now).trades)) }
{
    let totals = desk.totals();
    let value = i128::from(totals.money) * i128::from(desk.settings().tick.get());
    push_text(text, "TOTAL ")?;
    push_number(text, totals.quantity)?;
    push_space(text)?;
    push_money(text, value)?;
    push_text(text, "\n")
}

/// The cash of each member over all securities.
pub fn push_members<A: Allocator, B: Allocator + Copy>(
    text: &mut Vec<u8, A>,
    desks: &[Desk<B>],
    names: &SegmentNames,
) -> Result<(), OutOfMemory>
    requires { length desks.now < 2 ^ 32 }
    ensures { OnOk result (text.new.items ≡ text.old.items ++ flat_map (member_line names.now (map replay desks.now)) (member_indices names.now)) }
{
    for member in 0..names.members() {
        push_member(text, desks, names, member)?;
    }
    Ok(())
}

/// The cash of a member over all securities.
fn push_member<A: Allocator, B: Allocator + Copy>(
    text: &mut Vec<u8, A>,
    desks: &[Desk<B>],
    names: &SegmentNames,
    member: u32,
) -> Result<(), OutOfMemory>
    requires { length desks.now < 2 ^ 32 }
    ensures { OnOk result (text.new.items ≡ text.old.items ++ member_line names.now (map replay desks.now) member) }
{
    push_cash(text, member_name(names, member), total_cash(desks, member))?;
    Ok(())
}

/// The line of a member's cash, in ten-thousandths of a euro.
fn push_cash<A: Allocator>(
    text: &mut Vec<u8, A>,
    name: &str,
    amount: i128,
) -> Result<(), OutOfMemory>
    ensures { OnOk result (text.new.items ≡ text.old.items ++ cash_line name.now amount) }
{
    push_text(text, "MEMBER ")?;
    push_text(text, name)?;
    push_space(text)?;
    push_money(text, amount)?;
    push_text(text, "\n")
}
