//! The texts of prices and money, and the loop that writes a text.
ghost use Rattle.std.specs.Prelude.{◌≡◌, ◌+◌, ◌/◌, ◌%◌, ◌<◌, ◌≤◌, ◌++◌, length, OnOk, OnErr};
ghost use Rattle.std.specs.Fmt.{decimal};
ghost use Rattle.std.specs.Io.KnownBytes.{Appends};
ghost use Rattle.xm_ticks.specs.Writing.{AppendsPrefix, amount_text, price_text, money_text};

use crate::numbers::{Price, TickSize};
use arrayvec::ArrayVec;
use itoa::Buffer;
use std::io;

/// Writes a price in euros with four decimals.
///
/// The error is the writer's; what went out before it is a proper prefix of the text.
pub fn write_price<W: io::Write>(out: &mut W, price: Price, tick: TickSize) -> io::Result<()>
    ensures ok { OnOk result (Appends (W.contents out.old) (W.contents out.new) (price_text price tick)) }
    ensures err { OnErr result (AppendsPrefix (W.contents out.old) (W.contents out.new) (price_text price tick)) }
{
    let amount = u128::from(price.get()) * u128::from(tick.get());
    write_whole(out, amount_text(b"", amount).as_slice())
}

/// Writes ten-thousandths of a euro in euros with four decimals, and a minus sign before a
/// negative amount.
///
/// The error is the writer's; what went out before it is a proper prefix of the text.
pub fn write_money<W: io::Write>(out: &mut W, money: i128) -> io::Result<()>
    ensures ok { OnOk result (Appends (W.contents out.old) (W.contents out.new) (money_text money)) }
    ensures err { OnErr result (AppendsPrefix (W.contents out.old) (W.contents out.new) (money_text money)) }
{
    let sign: &[u8] = if money < 0 { b"-" } else { b"" };
    write_whole(out, amount_text(sign, money.unsigned_abs()).as_slice())
}

/// Writes a text, in as many calls as the writer asks for.
///
/// The error is the writer's, or `WriteZero` where it takes no byte; what went out before it is a
/// proper prefix of the text.
pub fn write_whole<W: io::Write>(out: &mut W, text: &[u8]) -> io::Result<()>
    ensures ok { OnOk result (Appends (W.contents out.old) (W.contents out.new) text.now) }
    ensures err { OnErr result (AppendsPrefix (W.contents out.old) (W.contents out.new) text.now) }
{
    let mut done = 0;
    while done < text.len() {
        match out.write(&text[done..]) {
            Ok(0) => return Err(io::Error::from(io::ErrorKind::WriteZero)),
            Ok(count) => done += count,
            Err(error) => return Err(error),
        }
    }
    Ok(())
}

/// A sign and the text of an amount in ten-thousandths of a euro, which fit 48 bytes.
fn amount_text(sign: &[u8], amount: u128) -> ArrayVec<u8, 48>
    requires { length sign.now ≤ 1 }
    ensures { result.items ≡ sign.now ++ amount_text amount }
{
    let mut text = ArrayVec::new();
    text.try_extend_from_slice(sign).unwrap();
    let decimals = push_euros(&mut text, amount);
    text.push(b'.');
    text.push(digit(decimals / 1000));
    text.push(digit(decimals / 100 % 10));
    text.push(digit(decimals / 10 % 10));
    text.push(digit(decimals % 10));
    text
}

/// Adds the whole euros of an amount to a text, and answers the ten-thousandths that are left over. Nearly every amount fits
/// 64 bits, which are divided and written faster.
fn push_euros(text: &mut ArrayVec<u8, 48>, amount: u128) -> u16
    requires { length text.old.items ≤ 1 }
    ensures euros { text.new.items ≡ text.old.items ++ decimal (amount / 10000) }
    ensures rest { result ≡ amount % 10000 }
    ensures fits { length text.new.items ≤ length text.old.items + 39 }
{
    let mut euros = Buffer::new();
    match u64::try_from(amount) {
        Ok(small) => {
            text.try_extend_from_slice(euros.format(small / 10_000).as_bytes())
                .unwrap();
            (small % 10_000) as u16
        }
        Err(_) => {
            text.try_extend_from_slice(euros.format(amount / 10_000).as_bytes())
                .unwrap();
            (amount % 10_000) as u16
        }
    }
}

/// The character of a digit.
fn digit(n: u16) -> u8
    requires { n < 10 }
    ensures { result ≡ 48 + n }
{
    b'0' + n as u8
}
