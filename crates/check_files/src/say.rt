// What is printed of a call.
use text::Outcome;

// Prints a point, and the number, the place and the count of a call's outcome.
pub fn say(rt: HostRuntime, point: &[u8], outcome: Outcome) {
    let Outcome {
        number,
        place,
        count,
    } = outcome;
    let _ = rt.write_all(point);
    let _ = print!(rt; ": {number} {place} {count}");
}

// Prints words in hexadecimal, and ends the line.
pub fn show(rt: HostRuntime, words: &[u64]) {
    for word in words {
        let _ = print!(rt; " {word:x}");
    }
    end(rt);
}

// Ends the line.
pub fn end(rt: HostRuntime) {
    let _ = print!(rt; "\n");
}
