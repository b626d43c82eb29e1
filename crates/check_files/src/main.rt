// The decided open points on memory files (docs/DECISIONS.md, F1 to F13), tried by running. Each line has the point, then the number, the
// place and the count of the call's outcome, and then words that the lent slice holds after it. Slices hold a pattern before: each word of
// a sector 0xA5, each cycle 7, each byte of a text a dot. The last 128 lines are
// a sector that is read from standard input and written back.
#![tactic(auto)]

mod cycles;
mod lengths;
mod reprint;
mod say;
mod sector;
mod written;

fn main(rt: HostRuntime) {
    sector::refused(rt);
    sector::accepted(rt);
    sector::past_the_end(rt);
    cycles::accepted(rt);
    cycles::refused(rt);
    written::disk(rt);
    lengths::lengths(rt);
    reprint::reprint(rt);
}
