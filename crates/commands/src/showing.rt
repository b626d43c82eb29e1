// The command `show`: a saved record by its fields.
// Stays (6): the text's length is what `put_record` answers; no heap.
use console::say;
use memories::load_record_at;
use outputs::put_record;

// Room for the text of a record.
const ROOM: usize = 832;

// Prints the saved record that an argument names.
pub fn show_record(rt: HostRuntime, i: usize) {
    let Some(state) = load_record_at(rt, i) else {
        return;
    };
    let mut text = [0u8; ROOM];
    let n = put_record(state, &mut text);
    say(rt, &text[..n]);
}
