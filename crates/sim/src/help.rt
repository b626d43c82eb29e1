// The help text.
// Stays (2): each program has its own text, printed in a line; a function that takes the text is `say`.
use console::say;

// Prints what the program does and its files.
pub fn print_help(rt: HostRuntime) {
    say(rt, HELP.as_bytes());
}

const HELP: &str = "sim: runs a SIMP program until it halts, on the course paper's fourteen files

  sim imemin.txt dmemin.txt diskin.txt irq2in.txt dmemout.txt regout.txt trace.txt
      hwregtrace.txt cycles.txt leds.txt display7seg.txt diskout.txt monitor.txt
      monitor.yuv [CYCLES]

It reads
  imemin.txt       the instructions, up to 4096 lines of 12 hexadecimal digits
  dmemin.txt       the data, up to 4096 lines of 8 hexadecimal digits
  diskin.txt       the disk, up to 16384 lines of 8 hexadecimal digits
  irq2in.txt       the cycles in which irq2 is raised, in decimal, rising, up to 16384 lines
and writes
  dmemout.txt      the data at the end
  regout.txt       R3 to R15 at the end, 8 hexadecimal digits a line
  trace.txt        PC, instruction and R0 to R15 before each instruction
  hwregtrace.txt   cycle, READ or WRITE, register and value of each in and out
  cycles.txt       the number of cycles
  leds.txt         cycle and value of each change of the leds
  display7seg.txt  cycle and value of each change of the display
  diskout.txt      the disk at the end
  monitor.txt      the frame at the end, a pixel a line
  monitor.yuv      the same in bytes

With CYCLES the run stops after so many cycles if the program has not halted before; a
program that never halts fills the disk without it. A missing line of a memory is zero.
A file that is refused gives one line, what is wrong and where, and nothing is written.
Each file is written beside the old one as NAME.new and takes its place when it is whole.
";
