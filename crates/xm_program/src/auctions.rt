//! The calls of a security, as a call of the program tells them.
ghost use Rattle.std.specs.Prelude.{◌≡◌, ◌≢◌, ◌≤◌, IfErr, length, map, option_map};
ghost use Rattle.std.specs.List.{position_or_len};
ghost use Rattle.std.specs.Str.{bytes_eq};
ghost use Rattle.xm_files.specs.declared.order_files.TheConstants.{MAX_FILES};
ghost use Rattle.xm_program.specs.Days.{AreCalls, AuctionCallEnds};
ghost use Rattle.xm_program.specs.Ends.{AskedEnds};
ghost use Rattle.xm_program.specs.Requests.{auction, named_auction};

use crate::inputs;
use crate::outcome::Outcome;
use crate::program::{send, storage};
use crate::requests::AuctionRequest;
use std::alloc::Global;
use std::fs;
use std::io::{Read, Write};
use std::random::RandomSource;
use std::rt::Files;
use xm_calls::{CallsAsked, call_tables};
use xm_day::{DayFault, open_day_files};
use xm_name_index::Storage;

/// Writes the calls of a security to standard output.
pub(crate) fn write_auction<R: AllocGlobal + Files + RandomSource, W: Write>(
    rt: &R,
    request: &AuctionRequest<'_>,
    out: &mut W,
) -> Result<Outcome, DayFault>
    ensures ends { AskedEnds (auction (named_auction request.now)) (W.contents out.old) (W.contents out.new) result }
    ensures untouched { IfErr result (λ fault. fault ≢ DayFault.WriteFailed → out.new ≡ out.old) }
{
    let opens = |path: &str| fs::open(rt, path);
    let mut segment = inputs::open_input(|path| fs::open(rt, path), request.segment);
    let mut carried = inputs::open_where_given(|path| fs::open(rt, path), request.carried);
    let mut orders = inputs::open_inputs(rt.alloc(), &opens, &request.orders)?;
    auction(
        storage(rt),
        &mut segment,
        &mut carried,
        orders.as_mut_slice(),
        request,
        out,
    )
}

/// Writes the calls of a security of the day of a segment file and its order files, which opens with a carry file where there is one, as
/// far as they are asked for. Where the segment has no such security, that is the outcome.
///
/// The faults are those of the day, in their order; then `WriteFailed`.
pub fn auction<S: Read, C: Read, O: Read, W: Write>(
    storage: Storage<Global>,
    segment: &mut S,
    carried: &mut Option<C>,
    orders: &mut [O],
    request: &AuctionRequest<'_>,
    out: &mut W,
) -> Result<Outcome, DayFault>
    requires { length orders.old ≤ MAX_FILES }
    ensures ends { AuctionCallEnds (named_auction request.now) (record { segment = S.remaining segment.old; carried = option_map C.remaining carried.old; orders = map O.remaining orders.old }) (record { old = W.contents out.old; new = W.contents out.new }) result }
    ensures untouched { IfErr result (λ fault. fault ≢ DayFault.WriteFailed → out.new ≡ out.old) }
{
    match calls_of_files(storage, segment, carried, orders, request) {
        Ok(Some(text)) => match send(out, &text) {
            Ok(()) => Ok(Outcome::Done),
            Err(fault) => Err(fault),
        },
        Ok(None) => Ok(Outcome::UnknownSecurity),
        Err(fault) => Err(fault),
    }
}

/// The text of the calls of a security of the day of a segment file and its order files, if the segment has such a security.
fn calls_of_files<S: Read, C: Read, O: Read>(
    storage: Storage<Global>,
    segment: &mut S,
    carried: &mut Option<C>,
    orders: &mut [O],
    request: &AuctionRequest<'_>,
) -> Result<Option<Vec<u8>>, DayFault>
    requires { length orders.old ≤ MAX_FILES }
    ensures { AreCalls (named_auction request.now) (record { segment = S.remaining segment.old; carried = option_map C.remaining carried.old; orders = map O.remaining orders.old }) result }
{
    let (settings, names) = open_day_files(storage, segment, carried)?;
    if names.security_index(request.security.as_bytes()) == names.securities() {
        return Ok(None);
    }
    let asked = CallsAsked {
        at: request.at,
        form: request.form,
    };
    match call_tables(storage, &settings, &names, orders, request.security, asked) {
        Ok(Ok(text)) => Ok(Some(text)),
        Ok(Err(fault)) => Err(fault),
        Err(fault) => Err(DayFault::Orders(fault)),
    }
}
