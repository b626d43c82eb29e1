// How long a listed line is.
// Stays (2): a line is measured without a buffer where the room is asked.
ghost use Rattle.std.specs.Prelude.{◌≡◌, ◌+◌, ◌≤◌, ◌<◌, length};
ghost use Rattle.lister.specs.Listing.{listed_line};
ghost use Rattle.lister.specs.Pieces.{register_piece};

use crate::immediates::immediate_length;
use crate::pieces::{operation_place, register_place};
use crate::table::PieceTable;
use isa::word::decode;

// How many bytes a register has with the comma and the blank after it.
fn register_length(n: usize, pieces: &PieceTable) -> usize
    requires { n < 16 }
    ensures length { result ≡ length (register_piece n) }
    ensures most { result ≤ 7 }
{
    pieces.length(register_place(n))
}

// How many bytes the line of a word has with its LF; 46 at most. Three are no name and no immediate: a comma with its blank, and the LF.
pub fn line_length(word: u64, pieces: &PieceTable) -> usize
    ensures length { result ≡ length (listed_line word) + 1 }
    ensures most { result ≤ 46 }
{
    let f = decode(word);
    let registers = register_length(f.rd, pieces)
        + register_length(f.rs, pieces)
        + register_length(f.rt, pieces)
        + register_length(f.rm, pieces);
    let immediates = immediate_length(f.imm1) + immediate_length(f.imm2);
    pieces.length(operation_place(f.op)) + registers + immediates + 3
}
