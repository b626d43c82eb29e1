// The picture of a frame.
// Stays (4): no heap: the picture goes to the front of a lent buffer, whose bytes the contract states.
ghost use Rattle.std.specs.Prelude.{◌≡◌, ◌+◌, ◌≤◌, length};
ghost use Rattle.console.specs.Counts.{IsPrefixLen};
ghost use Rattle.text.specs.Place.{put};
ghost use Rattle.outputs.specs.Picture.{picture_of};

use text::place::put_bytes;

// Puts the picture of a frame at the front and returns how many bytes it has.
pub fn put_picture(frame: &[u8], out: &mut [u8]) -> usize
    requires { 15 + length frame.now ≤ length out.old }
    ensures { (out.new ≡ put out.old 0 (picture_of frame.now)) × (result ≡ length (picture_of frame.now)) × IsPrefixLen result out.new }
{
    let at = put_bytes(out, 0, b"P5\n256 256\n255\n");
    put_bytes(out, at, frame)
}
