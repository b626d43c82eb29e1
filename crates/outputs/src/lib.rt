// The texts that the programs write and print of a run: the files of its log's lines, the registers and the cycles, why it stopped, and a saved
// record by its fields.
// Stays (6): the four texts are lent apart, so their lengths stand apart.
#![tactic(auto)]

mod core_lines;
mod cycles;
mod last_word;
mod log;
mod numbers;
mod pc;
mod picture;
mod reason;
mod record;
mod register_lines;
mod registers;
mod status;

pub use cycles::put_cycles;
pub use log::split_log;
pub use picture::put_picture;
pub use reason::put_reason;
pub use record::put_record;
pub use registers::put_registers;

// How many bytes each of the four texts has that a log is split into. (The texts are lent apart, so their lengths stand apart.)
#[derive(Clone, Copy)]
pub struct Split {
    pub trace: usize,
    pub hwregtrace: usize,
    pub leds: usize,
    pub display7seg: usize,
}
