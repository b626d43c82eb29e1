// How a run went, on standard output.
// Stays (4, 6): the line is put by `outputs`, whose bytes are proved, into an array (no heap).
use console::say;
use long_run::print_line_e;
use machine::Core;
use outputs::put_reason;

// Says where and why a run stopped, and the line E.
pub fn say_stop(rt: HostRuntime, core: Core) {
    let mut line = [0u8; 80];
    let n = put_reason(core, &mut line, 0);
    say(rt, &line[..n]);
    print_line_e(rt, core.status, core.age);
}

// Says that the log of a run can't be written.
pub fn say_log_unwritten(rt: HostRuntime) {
    say(
        rt,
        b"the log can't be written: the run is not finished, and nothing is written\n",
    );
}
