// The command `hex`: Intel HEX files read into the files of data and of the disk that `sim` reads, and written from such files. A program's arguments name
// the files. It says on standard output how it went.
#![tactic(auto)]

mod command_words;
mod converting;
mod load;
mod new_files;

pub use command_words::conversion_at;
pub use converting::convert;

// What two words ask for.
#[derive(Clone, Copy)]
pub enum Conversion {
    HexToData,
    HexToDisk,
    DataToHex,
    DiskToHex,
}
