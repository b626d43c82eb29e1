// What the commands do.
// Stays (2): each command has its own text, printed in a line.
use console::say;

// Prints the words.
pub fn print_overview(rt: HostRuntime) {
    say(rt, OVERVIEW.as_bytes());
}

const OVERVIEW: &str = "lab WORD ..: the commands of the SIMP lab

  lab list IMEM            prints an instruction file as assembly text
  lab show RECORD          prints a saved record by its fields
  lab picture MONITOR PGM  writes a frame as a picture
  lab hex read|write data|disk FROM TO
                           reads Intel HEX into the file of data or of the disk, or writes it
  lab resume IMEM DMEM DISK MONITOR RECORD IRQ2 CYCLES LOG
                           runs a program on where it stopped

lab WORD alone says more of each. Programs are assembled by asm and run by sim.
";

// Prints how `lab list` is used.
pub fn print_list_help(rt: HostRuntime) {
    say(rt, LIST_HELP.as_bytes());
}

const LIST_HELP: &str = "lab list IMEM: prints a SIMP instruction file as assembly text

  IMEM  the instruction file, up to 4096 lines of 12 hexadecimal digits; it is read

Example:

  lab list imemin.txt > program.asm

Each word up to the last one that is not zero gives a line, which asm reads back:

  add $t0, $t0, $imm1, $zero, 1, 0          op rd, rs, rt, rm, imm1, imm2

A file that is refused gives one line: what is wrong, and where. Of one whose words are all zero
nothing is printed; a note on standard error says so.
";

// Prints how `lab show` is used.
pub fn print_show_help(rt: HostRuntime) {
    say(rt, SHOW_HELP.as_bytes());
}

const SHOW_HELP: &str = "lab show RECORD: prints a saved SIMP record by its fields

  RECORD  the saved record, 94 bytes, as lab resume writes it (or 91, of last term); it is read

Example:

  lab show record.bin

A line has a name and its value. PC and the registers are hexadecimal; status, handler,
age (cycles done), left (disk cycles to go), sector and buffer are decimal. handler is 1 inside the
interrupt handler. sector and buffer are those of the disk command that goes on; 0 without one.
";

// Prints how `lab picture` is used.
pub fn print_picture_help(rt: HostRuntime) {
    say(rt, PICTURE_HELP.as_bytes());
}

const PICTURE_HELP: &str =
    "lab picture MONITOR PGM: writes a SIMP frame as a picture that any viewer opens

  MONITOR  the frame, up to 65536 lines of 2 hexadecimal digits, as sim writes it; it is read
  PGM      the picture, a graymap of 256 by 256 pixels; it is written

Example:

  lab picture monitor.txt circle.pgm
";

// Prints how `lab resume` is used.
pub fn print_resume_help(rt: HostRuntime) {
    say(rt, RESUME_HELP.as_bytes());
}

const RESUME_HELP: &str =
    "lab resume IMEM DMEM DISK MONITOR RECORD IRQ2 CYCLES LOG: runs a SIMP program on where it stopped

  IMEM     the instructions; read
  DMEM     the data; read and written back
  DISK     the disk; read and written back
  MONITOR  the frame; read and written back
  RECORD   the saved record; read and written back. One of last term, of edition 1, is read too.
           Where there is none, the run starts fresh, and MONITOR may be missing
  IRQ2     the cycles in which irq2 is raised, counted from the fresh start; read
  CYCLES   the most cycles that this run makes
  LOG      the log: the lines T, H, L and D of this run are written after what it has

Example:

  lab resume imemin.txt dmem.txt disk.txt monitor.txt record.bin irq2in.txt 1000 log.txt

Stopped and resumed with the same files, a run writes the log that one long run writes. All files
are written, or none: each beside the old one as NAME.new, which takes its place at the end.
";

// Prints how `lab hex` is used.
pub fn print_hex_help(rt: HostRuntime) {
    say(rt, HEX_HELP.as_bytes());
}

const HEX_HELP: &str =
    "lab hex read|write data|disk FROM TO: reads and writes SIMP data and disks as Intel HEX

  lab hex read data HEX DMEM   reads a HEX file and writes the file of data, as sim reads it
  lab hex read disk HEX DISK   reads a HEX file and writes the file of the disk
  lab hex write data DMEM HEX  reads a file of data and writes the HEX file
  lab hex write disk DISK HEX  reads a file of the disk and writes the HEX file

  HEX   lines of Intel HEX, a record each: of type 00 (data) or, the last one, of type 01 (end,
        :00000001FF); digits of either case, right checksums
  DMEM  the data, up to 4096 lines of 8 hexadecimal digits
  DISK  the disk, up to 16384 such lines

Examples:

  lab hex read data data.hex dmemin.txt
  lab hex write disk diskout.txt disk.hex

Addresses count bytes: word n is bytes 4n to 4n+3, the most significant first. Data has 16384
bytes, the disk 65536. Each record starts above the last byte of those before it; bytes that none
names are zero. A HEX file that is written has the whole memory, 16 bytes a record.

A file that is refused gives one line: what is wrong, and where. Nothing is written then.
";
