// The lines E and N, printed.
// Stays (1, 2, 4, 6): the status and the number are documents 01 and 02's; the lines E and N are put by `summary`, whose bytes are proved.
use summary::{put_line_e, put_line_n};

// Prints the line E of a status and an age.
pub fn print_line_e(rt: HostRuntime, status: u32, age: u64) {
    let mut line = [0u8; 65];
    let end = put_line_e(&mut line, 0, status, age);
    let _ = rt.write_all(&line[..end]);
}

// Prints the line N of a refusal's number and line.
pub fn print_line_n(rt: HostRuntime, number: u32, place: usize) {
    let mut line = [0u8; 44];
    let end = put_line_n(&mut line, 0, number, place);
    let _ = rt.write_all(&line[..end]);
}
