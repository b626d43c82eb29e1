// A piece of a log, written to where the log goes.
// Stays (1, 6, 7): the caller joins the answer with another; the four texts are four arrays, so that no part is copied twice.
ghost use Rattle.std.specs.Prelude.{◌≤◌, length};

use crate::Sink;
use console::{Writing, fail, write_more};
use outputs::split_log;
use std::io;

// Writes a piece of a log and answers whether all of it is written; standard error tells why not.
pub fn send(rt: HostRuntime, log: &[u8], to: Sink<'_>) -> bool
    requires { length log.now ≤ 65536 }
{
    match write_piece(rt, log, to) {
        Ok(()) => true,
        Err(error) => {
            fail(rt, b"the log", error);
            false
        }
    }
}

// Writes a piece of a log to where the log goes.
fn write_piece(rt: HostRuntime, log: &[u8], to: Sink<'_>) -> io::Result<()>
    requires { length log.now ≤ 65536 }
{
    match to {
        Sink::Output => rt.write_all(log),
        Sink::Whole(file) => write_more(file, log),
        Sink::Split(trace, hwregtrace, leds, display7seg) => {
            write_split(log, trace, hwregtrace, leds, display7seg)
        }
    }
}

// Writes the lines T, H, L and D, without their letters, to a file each.
fn write_split(
    log: &[u8],
    trace: &Option<Writing>,
    hwregtrace: &Option<Writing>,
    leds: &Option<Writing>,
    display7seg: &Option<Writing>,
) -> io::Result<()>
    requires { length log.now ≤ 65536 }
{
    let mut t = [0u8; 65536];
    let mut h = [0u8; 65536];
    let mut l = [0u8; 65536];
    let mut d = [0u8; 65536];
    let n = split_log(log, &mut t, &mut h, &mut l, &mut d);
    write_more(trace, &t[..n.trace])?;
    write_more(hwregtrace, &h[..n.hwregtrace])?;
    write_more(leds, &l[..n.leds])?;
    write_more(display7seg, &d[..n.display7seg])
}
