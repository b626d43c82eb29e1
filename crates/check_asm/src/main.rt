// The assembler, tried by running: the decided open points on assembly text (docs/DECISIONS.md, A1 to A22, B1 to B5, C1 to C5), the examples of documents 01 and 003, the four
// course programs and the order of the questions. First the files that its arguments name, then large texts that are built here. The image and the data
// memory hold a pattern before.
//
// Of each text it prints its name and, where it is refused, `N` with the number and the line; `changed` follows where a lent word has another value
// than the pattern. Where it is accepted, `ok`, and lines for
//     150000000000          each word of the image up to the last that is not zero,
//     150000000000 x4096    or so many equal words in a row;
//     .word 100 0000000F    each word of the data memory that is not zero, with its address;
//     listed                the words' listing, assembled again, gives the same image and a data memory of zeros; else `differs`.
//
// At the end the points on the lister, L1 to L3: `ok` with the count of bytes, or `N` with the number and the place, and then the lent text, which
// holds 80 dots before.
#![tactic(auto)]

mod built;
mod lister_points;
mod listing;
mod memories;
mod print;
mod text_files;
mod trial;

use crate::built::try_built;
use crate::lister_points::try_lister;
use crate::text_files::try_argument;
use crate::trial::try_lengths;
use console::argument_count;

fn main(rt: HostRuntime) {
    let count = argument_count(rt);
    for i in 1..count {
        try_argument(rt, i);
    }
    try_built(rt);
    try_lengths(rt);
    try_lister(rt);
}
