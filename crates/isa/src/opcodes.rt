// What an opcode stands for.
// Stays (1, 4): the opcode is the number that document 01 has decode match; a decoded kind handed on made a cycle 5 to 18% slower (docs/DECISIONS.md).
ghost use Rattle.std.specs.Prelude.{◌≡◌};
ghost use Rattle.isa.specs.Operations.{operation_of};
ghost use Rattle.isa.specs.Accesses.{access_of};

use crate::Access;

// The opcodes of in and out.
pub const IN: u32 = 19;

pub const OUT: u32 = 20;

// Decodes an opcode: what its operation does with the I/O registers. Arithmetic, branches, jal to reti, halt and what is no operation, a fault, do nothing.
pub fn decode_opcode(op: u32) -> Option<Access>
    ensures { result ≡ access_of (operation_of op) }
{
    match op {
        0..=8 => None,
        9..=14 => None,
        15..=18 => None,
        IN => Some(Access::Read),
        OUT => Some(Access::Write),
        21 => None,
        22..=0xFFFF_FFFF => None,
    }
}
