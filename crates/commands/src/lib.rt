// The commands `asm`, `list`, `show` and `picture`, on the files that a program's arguments name. Each says on standard output how it went.
#![tactic(auto)]

mod assembling;
mod drawing;
mod instructions;
mod listing;
mod showing;

pub use assembling::assemble_file;
pub use drawing::draw_frame;
pub use listing::list_file;
pub use showing::show_record;
