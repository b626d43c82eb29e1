// Values of given widths packed into bytes, most significant first, and taken out again. The widths are a list lent by the caller, who shows what
// packing asks: no call is refused.
#![tactic(auto)]

pub mod bits;
mod fitting;
mod packing;
mod unpacking;
mod word;

pub use fitting::all_fit;
pub use packing::pack;
pub use unpacking::unpack;
