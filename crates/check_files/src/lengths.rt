// F11, F12, F13: lengths of lent memories, and each memory written and read back.
// Stays (1, 2): each point has its own memory of a wrong length.
use crate::say::{end, say, show};
use files::{read_data, read_disk, read_frame, read_image, write_data, write_frame, write_image};
use text::outcomes::{counted, done};

pub fn lengths(rt: HostRuntime) {
    image(rt);
    short_image(rt);
    words(rt);
    frame(rt);
    part(rt);
}

// An image word's bits above 47 are not written, and are zero when it is read.
fn image(rt: HostRuntime) {
    let image = [0xFFFF_8000_0000_0001u64; 4096];
    let mut text = [b'.'; 53249];
    say(
        rt,
        b"F12 image written",
        counted(write_image(&image, &mut text)),
    );
    end(rt);
    read_back(rt, &text);
}

fn read_back(rt: HostRuntime, text: &[u8]) {
    if text.len() < 53248 {
        return;
    }
    let mut image = [7u64; 4096];
    say(
        rt,
        b"F11 image back",
        done(read_image(&text[0..53248], &mut image)),
    );
    show(rt, &[image[0], image[4095]]);
}

fn short_image(rt: HostRuntime) {
    let mut image = [0u64; 4095];
    say(rt, b"F12 image", done(read_image(b"", &mut image)));
    end(rt);
}

fn words(rt: HostRuntime) {
    let mut memory = [0u32; 4224];
    say(rt, b"F12 data", done(read_data(b"", &mut memory)));
    end(rt);
    say(rt, b"F13 33 sectors", done(read_disk(b"", &mut memory)));
    end(rt);
    let mut text = [b'.'; 8];
    say(
        rt,
        b"F12 data written",
        counted(write_data(&memory, &mut text)),
    );
    end(rt);
}

fn frame(rt: HostRuntime) {
    let mut frame = [0u8; 65535];
    say(rt, b"F12 frame", done(read_frame(b"", &mut frame)));
    end(rt);
    say(
        rt,
        b"F12 frame written",
        counted(write_frame(b"", &mut frame)),
    );
    end(rt);
}

fn part(rt: HostRuntime) {
    let mut part = [0u32; 100];
    say(rt, b"F13 no whole sector", done(read_disk(b"", &mut part)));
    end(rt);
}
