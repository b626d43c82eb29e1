// The C face of the lab: each call returns 0 or document 01's number, and writes the place and the counts, 0 where document 01 says 0. What each
// promises stands in specs/; include/simp.h is its header.
// Stays (1): the C interface returns the documents' numbers.
#![tactic(auto)]

mod assembly;
mod hex;
mod memory_files;
mod numbers;
mod records;
mod runs;

pub use assembly::{simp_assemble, simp_list};
pub use hex::{simp_read_hex_data, simp_read_hex_disk, simp_write_hex_data, simp_write_hex_disk};
pub use memory_files::{
    simp_read_data, simp_read_disk, simp_read_frame, simp_read_image, simp_read_irq2,
    simp_write_data, simp_write_disk, simp_write_frame, simp_write_image,
};
pub use records::{simp_load, simp_save};
pub use runs::simp_run;

// Question 1's number: a lent length is wrong.
const WRONG_LENGTH: u32 = 1;
