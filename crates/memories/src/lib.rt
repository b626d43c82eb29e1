// The machine's memories, its irq2 list and its record, read from files and written to files. A function whose name ends in `_at`, or that writes,
// takes the number of the program's argument that names the file; the others take its path. What is refused, and why, is said on standard output; the
// answer is none then.
#![tactic(auto)]

mod budget;
mod cycles;
mod front;
mod given_names;
mod load;
mod load_at;
mod named;
mod new_files;
mod records;

pub use budget::read_budget;
pub use cycles::{load_irq2, load_irq2_at};
pub use front::read_front_at;
pub use given_names::{clashes_with_one, is_device_at, names_clash};
pub use load::{load_data, load_disk, load_frame, load_image};
pub use load_at::{load_data_at, load_disk_at, load_frame_at, load_image_at};
pub use named::{
    accept_at, begin_at, commit_at, drop_at, end_at, is_missing_at, more_at, refuse_at, say_at,
};
pub use new_files::{
    write_new_bytes, write_new_data, write_new_disk, write_new_frame, write_new_image,
    write_new_text,
};
pub use records::{load_record_at, write_new_record};
