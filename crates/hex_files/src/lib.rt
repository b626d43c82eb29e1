// Intel HEX for the data memory and for the disk, each whole.
#![tactic(auto)]

mod read;
mod write;

pub use read::{read_hex_data, read_hex_disk};
pub use write::{DATA_HEX, DISK_HEX, write_hex_data, write_hex_disk};
