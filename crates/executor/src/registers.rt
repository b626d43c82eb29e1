// R0 to R15 in the code, and the text that stands beside them.
ghost use Rattle.std.specs.Prelude.{◌≡◌, ◌<◌, drop};
ghost use Rattle.executor.specs.Lent.{HaveText, stored};

use text::hex_words::HexTable;
use trace::registers::{put_register_digits, put_registers};

// R0 to R15, of which R0 is 0, and beside them the text of R3 to R15, with which each T line ends.
#[derive(Drop)]
pub struct Registers {
    pub regs: [u32; 16],
    pub text: [u8; 118],
    pub ghost kept: { HaveText regs text },
}

impl Registers {
    // R0 to R15 of a record's R3 to R15.
    pub fn of_record(from: &[u32; 13], table: &HexTable) -> Registers
        ensures { drop 3 result.regs ≡ from.now }
    {
        let mut regs = [0u32; 16];
        regs[3..].copy_from_slice(from);
        let mut text = [0u8; 118];
        put_registers(&mut text, &regs, table);
        Registers { regs, text }
    }

    // A record's R3 to R15 of R0 to R15.
    pub fn record(&self) -> [u32; 13]
        ensures { result ≡ drop 3 self.now.regs }
    {
        let mut regs = [0u32; 13];
        regs.copy_from_slice(&self.regs[3..]);
        regs
    }

    // R[n] becomes x; R0, R1 and R2 don't change.
    pub fn put(&mut self, n: usize, x: u32, table: &HexTable)
        requires { n < 16 }
        ensures { self.new.regs ≡ stored n x self.old.regs }
    {
        if n < 3 {
            return;
        }
        self.regs[n] = x;
        put_register_digits(&mut self.text, n - 3, x, table);
    }
}
