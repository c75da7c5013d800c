// The columns and the bytes that a script's line gives.
#![tactic(auto)]

ghost use Rattle.std.specs.Prelude.{◌≡◌, ◌≤◌};
ghost use Rattle.script_values.specs.Values.{narrowed, room_of};

mod column;
mod filled;
mod putting;

pub use column::{Column, Columns};
pub use filled::Filled;
pub use putting::{Bytes, bytes};

// A number in 32 bits: the greatest there is where it has more. No conversion of std's does that.
#[tactic(auto, unfolding(crate::specs::Values::narrowed))]
pub fn narrow(n: u64) -> u32
    ensures { result ≡ narrowed n }
{
    u32::try_from(n).unwrap_or(u32::MAX)
}

// So many bytes of a buffer of 65536, or all. A function, since `min` at each call would be no plainer.
#[tactic(auto, unfolding(crate::specs::Values::room_of))]
pub fn room(n: u64) -> usize
    ensures upper_bound { result ≤ 65536 }
    ensures value { result ≡ room_of n }
{
    n.min(65536) as usize
}
