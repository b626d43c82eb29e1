// The standard descriptors.
use crate::open::open_read;
use std::os::fd::{AsRawFd, IntoRawFd};

// Gives each standard descriptor that is closed to /dev/null, so that no file that is opened later has its number and gets what is said.
pub fn open_missing_standard_streams(rt: HostRuntime) {
    for _ in 0..3u8 {
        let Ok(file) = open_read(rt, b"/dev/null") else {
            return;
        };
        if 2 < file.as_raw_fd() {
            return;
        }
        // The descriptor stays open.
        let _ = file.into_raw_fd();
    }
}
