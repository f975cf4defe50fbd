//! Price ranges.
ghost use Rattle.std.specs.Prelude.{◌≡◌, ◌≤◌};
ghost use Rattle.xm_ticks.specs.Ranges.{inside};
ghost use Rattle.xm_ticks.specs.declared.ranges.TheConstants.{MAX_WIDTH};

use crate::numbers::Price;

/// The width of the widest range, in thousandths of its reference price.
pub const MAX_WIDTH: u32 = 999;

/// Whether a price is inside the range of this width, in thousandths, around a reference price.
/// The edges are inside.
pub fn inside(price: Price, reference: Price, width: u32) -> bool
    requires { width ≤ MAX_WIDTH }
    ensures { result ≡ inside price reference width }
{
    let distance = price.get().abs_diff(reference.get());
    1000 * u64::from(distance) <= u64::from(width) * u64::from(reference.get())
}
