// One line of the listing, put piece by piece.
// Stays (2, 4): the text goes to a place of a lent buffer (no heap) by stores of eight bytes, and is measured without it where the room is asked.
ghost use Rattle.std.specs.Prelude.{◌≡◌, [], ◌∷◌, ◌++◌, ◌+◌, ◌^◌, ◌≤◌, ◌<◌, length};
ghost use Rattle.text.specs.Bytes.{bytes};
ghost use Rattle.text.specs.Lines.{LF as lf};
ghost use Rattle.text.specs.Place.{put};
ghost use Rattle.lister.specs.Listing.{signed_decimal, listed_line};
ghost use Rattle.lister.specs.Pieces.{register_piece, register_pieces, PutWith};

use crate::immediates::put_immediate;
use crate::pieces::{operation_place, register_place};
use crate::table::PieceTable;
use isa::word::decode;
use text::lines::LF;

// Puts a comma and a blank at a place and returns the place after them.
fn put_comma(out: &mut [u8], at: usize) -> usize
    requires { at + 2 ≤ length out.old }
    ensures { (out.new ≡ put out.old at (bytes ", ")) × (result ≡ at + 2) }
{
    out[at] = b',';
    out[at + 1] = b' ';
    at + 2
}

// Puts four registers, a comma and a blank after each, and returns the place after them; three bytes at least have to be put there next.
fn put_registers(
    out: &mut [u8],
    at: usize,
    rd: usize,
    rs: usize,
    rt: usize,
    rm: usize,
    pieces: &PieceTable,
) -> usize
    requires { (rd < 16) × (rs < 16) × (rt < 16) × (rm < 16) × (at + length (register_pieces rd rs rt rm) + 3 ≤ length out.old) }
    ensures { PutWith 3 out.old at (register_pieces rd rs rt rm) out.new result × (result ≡ at + length (register_pieces rd rs rt rm)) }
{
    let rs_at = put_register(out, at, rd, pieces);
    let rt_at = put_register(out, rs_at, rs, pieces);
    let rm_at = put_register(out, rt_at, rt, pieces);
    put_register(out, rm_at, rm, pieces)
}

// Puts a register, a comma and a blank, and returns the place after them; three bytes at least have to be put there next.
fn put_register(out: &mut [u8], at: usize, n: usize, pieces: &PieceTable) -> usize
    requires { (n < 16) × (at + length (register_piece n) + 3 ≤ length out.old) }
    ensures { PutWith 3 out.old at (register_piece n) out.new result × (result ≡ at + length (register_piece n)) }
{
    pieces.put(out, at, register_place(n))
}

// Puts two immediates, a comma with its blank between them and an LF after them, and returns the place after it.
fn put_immediates(out: &mut [u8], at: usize, imm1: u32, imm2: u32) -> usize
    requires { (imm1 < 2 ^ 12) × ((imm2 < 2 ^ 12) × (at + length (signed_decimal imm1) + length (signed_decimal imm2) + 3 ≤ length out.old)) }
    ensures { (out.new ≡ put out.old at (signed_decimal imm1 ++ bytes ", " ++ signed_decimal imm2 ++ (lf ∷ []))) × (result ≡ at + length (signed_decimal imm1) + length (signed_decimal imm2) + 3) }
{
    let comma_at = put_immediate(out, at, imm1);
    let second_at = put_comma(out, comma_at);
    let end = put_immediate(out, second_at, imm2);
    out[end] = LF;
    end + 1
}

// Puts the line of a word with its LF at a place and returns the place after it.
pub fn put_line(out: &mut [u8], at: usize, word: u64, pieces: &PieceTable) -> usize
    requires { at + length (listed_line word) + 1 ≤ length out.old }
    ensures { (out.new ≡ put out.old at (listed_line word ++ (lf ∷ []))) × (result ≡ at + length (listed_line word) + 1) }
{
    let f = decode(word);
    let registers_at = pieces.put(out, at, operation_place(f.op));
    let immediates_at = put_registers(out, registers_at, f.rd, f.rs, f.rt, f.rm, pieces);
    put_immediates(out, immediates_at, f.imm1, f.imm2)
}
