// The names that instructions are made of.
// Stays (5, 6): the names are one text, in the order of their numbers, for a table in fixed memory (no heap).
ghost use Rattle.std.specs.Prelude.{◌≡◌, ◌+◌, ◌*◌, ◌^◌, ◌≤◌, ◌<◌, length};
ghost use Rattle.isa.specs.Word.{word_of};
ghost use Rattle.isa.specs.Operations.{operation_names};
ghost use Rattle.isa.specs.Registers.{register_names};
ghost use Rattle.symbols.specs.Table.{names_of};
ghost use Rattle.symbols.specs.Sound.{Empty};
ghost use Rattle.lines.specs.Numbered.{all_names, LookedUp};

use crate::forms::has_label;
use crate::{Line, Names};
use isa::Fields;
use isa::word::encode;
use symbols::{Table, add_tokens};

// The operations, then the registers.
pub const NAMES: [u8; 155] =
    *b"add sub mac and or xor sll sra srl beq bne blt bgt ble bge jal lw sw reti in out halt $zero $imm1 $imm2 $v0 $a0 $a1 $a2 $t0 $t1 $t2 $s0 $s1 $s2 $gp $sp $ra";

const OPERATIONS: usize = 22;

// The words of a table that has room for them.
pub const NAME_WORDS: usize = 8192 + 4 * 155;

// A table of all names.
#[derive(Drop)]
pub struct NameTable<'a> {
    pub table: Table<'a>,
    pub ghost all: { names_of table.source.now table.words.now table.count ≡ all_names },
}

impl<'a> NameTable<'a> {
    // The table, in words that are zero.
    pub fn new(words: &'a mut [u32]) -> NameTable<'a>
        requires empty { Empty words.old }
        requires room { 8192 + 4 * 155 ≤ length words.old }
    {
        NameTable {
            table: add_tokens(&NAMES, words),
        }
    }

    // The number of a name among all, if it is one of them.
    pub fn number(&self, t: &[u8]) -> Option<usize>
        ensures { LookedUp all_names t.now result }
    {
        self.table.find(self.table.count, t)
    }

    // The number of an operation.
    pub fn operation(&self, t: &[u8]) -> Option<usize>
        ensures { LookedUp operation_names t.now result }
    {
        let n = self.number(t)?;
        if n < OPERATIONS { Some(n) } else { None }
    }

    // The number of a register.
    #[tactic(auto, using(crate::proofs::NameLaws::no_register, crate::proofs::NameLaws::unknown_register))]
    pub fn register(&self, t: &[u8]) -> Option<usize>
        ensures { LookedUp register_names t.now result }
    {
        match self.number(t) {
            Some(place) if OPERATIONS <= place => Some(place - OPERATIONS),
            _ => None,
        }
    }
}

impl<'a> Line<'a> {
    ghost use Rattle.std.specs.Prelude.{true};
    ghost use Rattle.lines.specs.Line.{op_at, has_code};
    ghost use Rattle.lines.specs.Names.{NamesRead};

    // Which token the op of an instruction is.
    pub fn op_at(&self) -> usize
        ensures at { result ≡ op_at self.now.form }
        ensures few { result ≤ 1 }
    {
        usize::from(has_label(self.form))
    }

    // The names of an instruction, if all are known.
    pub fn names(&self, names: &NameTable) -> Option<Names>
        requires { has_code self.now.form ≡ true }
        ensures { NamesRead self.now.tokens.line.now (op_at self.now.form) result }
    {
        let first = self.op_at();
        let op = names.operation(self.tokens.text(first))?;
        let rd = names.register(self.tokens.text(first + 1))?;
        let rs = names.register(self.tokens.text(first + 3))?;
        let rt = names.register(self.tokens.text(first + 5))?;
        let rm = names.register(self.tokens.text(first + 7))?;
        Some(Names { op, rd, rs, rt, rm })
    }
}

impl Names {
    ghost use Rattle.lines.specs.Names.{fields_with};

    // The word of an instruction with these immediates.
    pub fn word_with(self, imm1: u32, imm2: u32) -> u64
        requires first { imm1 < 2 ^ 12 }
        requires second { imm2 < 2 ^ 12 }
        ensures word { result ≡ word_of (fields_with self imm1 imm2) }
        ensures fits { result < 2 ^ 48 }
    {
        encode(Fields {
            op: self.op as u32,
            rd: self.rd,
            rs: self.rs,
            rt: self.rt,
            rm: self.rm,
            imm1,
            imm2,
        })
    }
}
