// The command `picture`: a frame as a picture.
// Stays (6): the picture's length is what `put_picture` answers; no heap.
ghost use Rattle.std.specs.Prelude.{◌+◌, ◌^◌, ◌<◌};

use memories::{commit_at, load_frame_at, names_clash, say_at, write_new_bytes};
use outputs::put_picture;

// Room for a picture: its head and 65,536 pixels.
const ROOM: usize = 65_551;

// Writes the frame that one argument names as a picture that the next names.
pub fn draw_frame(rt: HostRuntime, monitor: usize)
    requires { monitor + 2 < 2 ^ 64 }
{
    if names_clash(rt, monitor, 1, 2) {
        return;
    }
    let mut frame = [0u8; 65536];
    if load_frame_at(rt, monitor, &mut frame).is_none() {
        return;
    }
    let picture = monitor + 1;
    let mut text = [0u8; ROOM];
    let n = put_picture(&frame, &mut text);
    if commit_at(rt, picture, write_new_bytes(rt, picture, &text[..n])) {
        say_at(rt, picture, b" is written: 256 by 256 pixels\n");
    }
}
