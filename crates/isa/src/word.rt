// The instruction word.
// Stays (4, 5): `encode` has a precondition, which From has not, and `decode` stands beside it.
ghost use Rattle.std.specs.Prelude.{◌≡◌, ◌^◌, ◌<◌};
ghost use Rattle.isa.specs.Word.{fields_of, word_of, Fitting, sign_extended};

use crate::Fields;

// The fields of a word; bits above 47 are not read.
pub fn decode(word: u64) -> Fields
    ensures { result ≡ fields_of word }
{
    Fields {
        op: (word / 0x100_0000_0000 % 256) as u32,
        rd: (word / 0x10_0000_0000 % 16) as usize,
        rs: (word / 0x1_0000_0000 % 16) as usize,
        rt: (word / 0x1000_0000 % 16) as usize,
        rm: (word / 0x100_0000 % 16) as usize,
        imm1: (word / 0x1000 % 4096) as u32,
        imm2: (word % 4096) as u32,
    }
}

// The word of fields that fit.
pub fn encode(f: Fields) -> u64
    requires { Fitting f }
    ensures { result ≡ word_of f }
{
    u64::from(f.op) * 0x100_0000_0000
        + f.rd as u64 * 0x10_0000_0000
        + f.rs as u64 * 0x1_0000_0000
        + f.rt as u64 * 0x1000_0000
        + f.rm as u64 * 0x100_0000
        + u64::from(f.imm1) * 0x1000
        + u64::from(f.imm2)
}

// An immediate of 12 bits, sign-extended to 32.
pub fn sign_extend(immediate: u32) -> u32
    requires { immediate < 2 ^ 12 }
    ensures { result ≡ sign_extended immediate }
{
    ((immediate + 0x800) % 0x1000).wrapping_sub(0x800)
}
