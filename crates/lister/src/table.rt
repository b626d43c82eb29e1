// The table of a line's pieces that are names.
// Stays (2, 3, 4, 6): pieces of eight bytes become numbers that one store puts; the loop stores at the place that the entry is about.
ghost use Rattle.std.specs.Prelude.{◌≡◌, ◌+◌, ◌-◌, ◌≤◌, ◌<◌, length};
ghost use Rattle.lister.specs.Pieces.{piece_at, held_length, eight_at, Eights, NamePieces, PutWith};

use text::hex_words::put_eight;

// The pieces, eight bytes each: the piece, filled up with blanks, and how many bytes it has. After `halt` stands the blank alone, for an opcode that
// names none.
const PIECES: [u8; 312] =
    *b"add    4sub    4mac    4and    4or     3xor    4sll    4sra    4srl    4beq    4bne    4blt    4bgt    4ble    4bge    4jal    4lw     3sw     3reti   5in     3out    4halt   5       1$zero, 7$imm1, 7$imm2, 7$v0,   5$a0,   5$a1,   5$a2,   5$t0,   5$t1,   5$t2,   5$s0,   5$s1,   5$s2,   5$gp,   5$sp,   5$ra,   5";

// The pieces: each is held by a number, so that it is put in one store.
#[derive(Drop)]
pub struct PieceTable {
    numbers: [u64; 39],
    ghost held: { NamePieces numbers },
}

impl PieceTable {
    // The table.
    pub fn new() -> PieceTable {
        PieceTable {
            numbers: eights(&PIECES),
        }
    }

    // How many bytes the piece at a place has.
    pub fn length(&self, n: usize) -> usize
        requires { n < 39 }
        ensures length { result ≡ length (piece_at n) }
        ensures most { result ≤ 7 }
    {
        held_length(self.numbers[n])
    }

    // Puts the piece at a place of the table and returns the place after it. All eight bytes of its number are put: what is put next has to reach over
    // them.
    pub fn put(&self, out: &mut [u8], at: usize, n: usize) -> usize
        requires room { at + 8 ≤ length out.old }
        requires place { n < 39 }
        ensures piece { PutWith (8 - length (piece_at n)) out.old at (piece_at n) out.new result }
        ensures end { result ≡ at + length (piece_at n) }
    {
        let v = self.numbers[n];
        put_eight(out, at, v);
        at + held_length(v)
    }
}

// How many bytes a number holds.
fn held_length(v: u64) -> usize
    ensures length { result ≡ held_length v }
    ensures few { result < 16 }
{
    (v / 0x100_0000_0000_0000 % 16) as usize
}

// Each eight of these bytes as a number.
fn eights(bytes: &[u8; 312]) -> [u64; 39]
    ensures { Eights bytes.now result }
{
    let mut table = [0u64; 39];
    for n in 0..39 {
        table[n] = eight_bytes(bytes, n * 8);
    }
    table
}

// Eight bytes from a place on as a number, the first the lowest.
fn eight_bytes(bytes: &[u8; 312], at: usize) -> u64
    requires { at + 8 ≤ 312 }
    ensures { result ≡ eight_at bytes.now at }
{
    u64::from_le_bytes([
        bytes[at],
        bytes[at + 1],
        bytes[at + 2],
        bytes[at + 3],
        bytes[at + 4],
        bytes[at + 5],
        bytes[at + 6],
        bytes[at + 7],
    ])
}
