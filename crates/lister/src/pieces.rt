// The pieces of a line that are names: an operation with the blank after it, and a register with the comma and the blank after it.
// Stays (1, 6): a piece is a number that one store puts, found by the opcode's number.
ghost use Rattle.std.specs.Prelude.{◌≡◌, ◌<◌};
ghost use Rattle.lister.specs.Pieces.{operation_piece, register_piece, piece_at};

// The place of the piece of an opcode that names no operation.
const NO_OPERATION: u32 = 22;

// The place of the first register's piece.
const FIRST_REGISTER: usize = 23;

// The place of an operation's piece.
pub fn operation_place(op: u32) -> usize
    ensures few { result < 23 }
    ensures piece { piece_at result ≡ operation_piece op }
{
    if op < NO_OPERATION {
        op as usize
    } else {
        NO_OPERATION as usize
    }
}

// The place of a register's piece.
pub fn register_place(n: usize) -> usize
    requires { n < 16 }
    ensures few { result < 39 }
    ensures piece { piece_at result ≡ register_piece n }
{
    FIRST_REGISTER + n
}
