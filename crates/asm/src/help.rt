// The help text.
// Stays (2): each program has its own text, printed in a line; a function that takes the text is `say`.
use console::say;

// Prints what the program does and the forms of lines that it reads.
pub fn print_help(rt: HostRuntime) {
    say(rt, HELP.as_bytes());
}

const HELP: &str = "asm PROGRAM IMEM DMEM: assembles a SIMP program

  PROGRAM  the program, in assembly; it is read
  IMEM     the instruction file, 4096 lines of 12 digits; it is written
  DMEM     the file of data, 4096 lines of 8 digits; it is written

Example:

  asm program.asm imemin.txt dmemin.txt

A line is one of these, or empty; a # starts a comment:

  add $t0, $t0, $imm1, $zero, 1, 0          op rd, rs, rt, rm, imm1, imm2
  L1: beq $zero, $t0, $t1, $imm1, L1, 0     a label before an instruction
  L2:                                       a label alone
  .word 0x100 -7                            address 0x100 of the data is -7
  # a comment

  op         add sub mac and or xor sll sra srl beq bne blt bgt ble bge jal lw sw
             reti in out halt
  rd to rm   $zero $imm1 $imm2 $v0 $a0 $a1 $a2 $t0 $t1 $t2 $s0 $s1 $s2 $gp $sp $ra
  imm1 imm2  a number from -2048 to 2047 (0x and 0b: to 0xFFF), or a label
  label      a letter, then letters or digits, 50 at most
  number     decimal, as 12 or -3; hexadecimal, as 0x1F; or binary, as 0b1010
             (10, 8 and 32 digits at most; only a decimal may have a -)

A program that is refused writes nothing: one line tells what is wrong, and where.
";
