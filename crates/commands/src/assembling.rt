// The command `asm`: a program into its two memory files.
// Stays (2, 4, 5, 6): no heap, and a name need not be text, so a line is put into a lent array and `PiecesPut` says each byte; `FrontAssembled` speaks of a buffer and how much of it a file fills; FRONT is this file's length.
ghost use Rattle.std.specs.Prelude.{◌+◌, ◌^◌, ◌≤◌, ◌<◌, length};
ghost use Rattle.console.specs.Line.{PiecesPut};
ghost use Rattle.commands.specs.Program.{FrontAssembled};
ghost use Rattle.commands.specs.Said.{count_pieces, NamePut, WrittenPut};

use crate::instructions::count_instructions;
use assembler::assemble;
use console::{LINE, Name, put_if_room, put_number, say};
use memories::{accept_at, commit_at, names_clash, read_front_at, write_new_data, write_new_image};
use text::Outcome;
use text::outcomes::done;

// The bytes that decide how a program is read: those of the longest, and one more.
const FRONT: usize = 262_145;

// Which of the two files are written, of which the second goes after the first.
#[derive(Clone, Copy)]
pub enum WrittenFiles {
    Neither,
    First,
    Both,
}

// Assembles the program that the first of three arguments names and writes its instruction file and its file of data, which the others name. A
// program that is refused writes nothing.
pub fn assemble_file(rt: HostRuntime, first: usize)
    requires { first + 3 < 2 ^ 64 }
{
    if names_clash(rt, first, 1, 3) {
        return;
    }
    let mut text = [0u8; FRONT];
    if let Some(n) = read_front_at(rt, first, &mut text) {
        assemble_text(rt, first, &text, n);
    }
}

// Assembles a text of any length, of which the buffer holds the front in its first n bytes, and writes what it gives, or says why it is refused.
fn assemble_text(rt: HostRuntime, first: usize, buffer: &[u8], n: usize)
    requires { (first + 3 < 2 ^ 64) × (262144 < length buffer.now) × (n ≤ length buffer.now) }
{
    let mut image = [0u64; 4096];
    let mut memory = [0u32; 4096];
    let outcome = assemble_front(buffer, n, &mut image, &mut memory);
    if accept_at(rt, first, outcome).is_some() {
        let count = count_instructions(&buffer[..n]);
        say_done(rt, first, count, write_both(rt, first, &image, &memory));
    }
}

// Assembles such a text into the memories.
fn assemble_front(buffer: &[u8], n: usize, image: &mut [u64], memory: &mut [u32]) -> Outcome
    requires { (262144 < length buffer.now) × (n ≤ length buffer.now) }
    ensures { FrontAssembled buffer.now n result image.old memory.old image.new memory.new }
{
    done(assemble(&buffer[..n], image, memory))
}

// Writes the instruction file and then the file of data, and answers which of them are written.
fn write_both(rt: HostRuntime, first: usize, image: &[u64], memory: &[u32]) -> WrittenFiles
    requires { first + 3 < 2 ^ 64 }
{
    if !commit_at(rt, first + 1, write_new_image(rt, first + 1, image)) {
        return WrittenFiles::Neither;
    }
    if !commit_at(rt, first + 2, write_new_data(rt, first + 2, memory)) {
        return WrittenFiles::First;
    }
    WrittenFiles::Both
}

// Says how many instructions a program has, and which of the two files are written.
fn say_done(rt: HostRuntime, first: usize, count: usize, written: WrittenFiles)
    requires { first + 3 < 2 ^ 64 }
{
    let mut line = [0u8; LINE];
    let mut at = put_argument(rt, &mut line, 0, first);
    at = put_if_room(&mut line, at, b": ");
    at = put_count(&mut line, at, count);
    at = put_written(rt, &mut line, at, first, written);
    say(rt, &line[..at]);
}

// Puts which of the two files are written at a place of a line and returns the place after it.
fn put_written(
    rt: HostRuntime,
    line: &mut [u8],
    at: usize,
    first: usize,
    written: WrittenFiles,
) -> usize
    requires { (first + 3 < 2 ^ 64) × (at ≤ length line.old) }
    ensures { WrittenPut written line.old at line.new result }
{
    match written {
        WrittenFiles::Neither => put_if_room(line, at, b"nothing is written\n"),
        WrittenFiles::First => {
            let words_at = put_argument(rt, line, at, first + 1);
            let second_at = put_if_room(line, words_at, b" is written, ");
            let end = put_argument(rt, line, second_at, first + 2);
            put_if_room(line, end, b" is not\n")
        }
        WrittenFiles::Both => {
            let words_at = put_argument(rt, line, at, first + 1);
            let second_at = put_if_room(line, words_at, b" and ");
            let end = put_argument(rt, line, second_at, first + 2);
            put_if_room(line, end, b" are written\n")
        }
    }
}

// Puts an argument at a place of a line and returns the place after it.
pub fn put_argument(rt: HostRuntime, line: &mut [u8], at: usize, i: usize) -> usize
    requires { at ≤ length line.old }
    ensures { NamePut line.old at line.new result }
{
    put_if_room(line, at, Name::of_argument(rt, i).bytes())
}

// Puts how many instructions there are at a place of a line and returns the place after it.
fn put_count(line: &mut [u8], at: usize, count: usize) -> usize
    requires { at ≤ length line.old }
    ensures { PiecesPut (count_pieces count) line.old at line.new result }
{
    let words_at = put_number(line, at, count);
    if count == 1 {
        return put_if_room(line, words_at, b" instruction; ");
    }
    put_if_room(line, words_at, b" instructions; ")
}
