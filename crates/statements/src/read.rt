// What a line says: its names, its numbers and the labels that it uses.
// Stays (1, 4, 5, 7): each form reads what it has, as `StatementRead` says it; a line's questions are asked in document 01's order, so what it says is read first and each answer is kept.
ghost use Rattle.std.specs.Prelude.{◌≡◌, true, false, List, ℕ};
ghost use Rattle.text.specs.Lines.{lines};
ghost use Rattle.source.specs.Numbers.{number, is_number};
ghost use Rattle.lines.specs.declared.Form.TheVariants.{Word};
ghost use Rattle.lines.specs.Line.{has_code};
ghost use Rattle.statements.specs.Reading.{ImmediateRead, StatementRead};

use crate::{Immediate, Statement};
use labels::{Labels, MOST_LABELS};
use lines::instructions::NameTable;
use lines::ranges::{is_within, modulo};
use lines::{Form, Line};
use source::numbers::read_number;
use text::digits::DigitTable;

// Immediates run from -2048 to 2047 in decimal and to 4095 in the other forms, and are stored modulo 4096.
const IMMEDIATE_BELOW: u64 = 2048;

const IMMEDIATE_DECIMAL: u64 = 2047;

const IMMEDIATE_OTHER: u64 = 4095;

const IMMEDIATE_MODULUS: u64 = 4096;

// Addresses of `.word` run to 4095, its data from -2^31 to 2^32-1.
const ADDRESS_LAST: u64 = 4095;

const ADDRESS_MODULUS: u64 = 4096;

const DATA_BELOW: u64 = 0x8000_0000;

const DATA_LAST: u64 = 0xFFFF_FFFF;

const DATA_MODULUS: u64 = 0x1_0000_0000;

// What a line says.
#[inline(always)]
pub fn read_statement(
    line: &Line,
    names: &NameTable,
    labels: &Labels,
    digits: &DigitTable,
) -> Statement
    ensures { StatementRead (lines labels.now.names.source.now) line.now.tokens.line.now line.now.form result }
{
    match line.form {
        Form::Code | Form::Labelled => read_code(line, names, labels, digits),
        Form::Word => read_word(line, digits),
        _ => Statement {
            known: true,
            inside: true,
            defined: true,
            word: 0,
            address: 0,
            value: 0,
        },
    }
}

// What a line with an instruction says.
fn read_code(line: &Line, names: &NameTable, labels: &Labels, digits: &DigitTable) -> Statement
    requires { has_code line.now.form ≡ true }
    ensures { StatementRead (lines labels.now.names.source.now) line.now.tokens.line.now line.now.form result }
{
    let first = line.op_at();
    let imm1 = read_immediate(line.tokens.text(first + 9), labels, digits);
    let imm2 = read_immediate(line.tokens.text(first + 11), labels, digits);
    let inside = imm1.inside && imm2.inside;
    let defined = imm1.defined && imm2.defined;
    match line.names(names) {
        Some(n) => Statement {
            known: true,
            inside,
            defined,
            word: n.word_with(imm1.value, imm2.value),
            address: 0,
            value: 0,
        },
        None => Statement {
            known: false,
            inside,
            defined,
            word: 0,
            address: 0,
            value: 0,
        },
    }
}

// An immediate: a number, or a label with its value.
fn read_immediate(t: &[u8], labels: &Labels, digits: &DigitTable) -> Immediate
    ensures { ImmediateRead (lines labels.now.names.source.now) t.now result }
{
    let n = read_number(t, digits);
    if n.is_none() {
        return read_label(t, labels);
    }
    Immediate {
        inside: is_within(n, IMMEDIATE_BELOW, IMMEDIATE_DECIMAL, IMMEDIATE_OTHER),
        defined: true,
        value: modulo(n, IMMEDIATE_MODULUS) as u32,
    }
}

// A token that is no number as an immediate: a label with its value. Labels after the first 1,024 have none: a text with such a label is refused.
fn read_label(t: &[u8], labels: &Labels) -> Immediate
    requires { is_number (number t.now) ≡ false }
    ensures { ImmediateRead (lines labels.now.names.source.now) t.now result }
{
    let Some(k) = labels.names.find(labels.names.count, t) else {
        return Immediate {
            inside: true,
            defined: false,
            value: 0,
        };
    };
    let value = if k < MOST_LABELS {
        labels.values[k] % 4096
    } else {
        0
    };
    Immediate {
        inside: true,
        defined: true,
        value,
    }
}

// What a `.word` line says.
fn read_word(line: &Line, digits: &DigitTable) -> Statement
    requires { line.now.form ≡ Word }
    ensures { (all : List (List ℕ)) → StatementRead all line.now.tokens.line.now line.now.form result }
{
    let address = read_number(line.tokens.text(1), digits);
    let value = read_number(line.tokens.text(2), digits);
    let address_fits = is_within(address, 0, ADDRESS_LAST, ADDRESS_LAST);
    let value_fits = is_within(value, DATA_BELOW, DATA_LAST, DATA_LAST);
    Statement {
        known: true,
        inside: address_fits && value_fits,
        defined: true,
        word: 0,
        address: modulo(address, ADDRESS_MODULUS) as usize,
        value: modulo(value, DATA_MODULUS) as u32,
    }
}
