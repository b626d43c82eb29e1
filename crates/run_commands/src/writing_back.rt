// The memories, the record and the log of a resumed run, written back.
// Stays (1, 2, 7): five files are asked here and four in `logs`, by their names; each file's answer is the next one's question: a bool.
ghost use Rattle.std.specs.Prelude.{◌≡◌, true, ◌+◌, ◌^◌, ◌<◌};
ghost use Rattle.run_commands.specs.Back.{are_written, CanBeBack};

use console::{Writing, say};
use machine::Record;
use memories::{
    commit_at, drop_at, write_new_data, write_new_disk, write_new_frame, write_new_record,
};

// The five files that are written after a run, each if it can be written.
#[derive(Drop)]
struct FilesBack {
    log: Option<Writing>,
    data: Option<Writing>,
    disk: Option<Writing>,
    frame: Option<Writing>,
    record: Option<Writing>,
}

// Writes all of them, or none unless putting one into its place fails after others, and answers whether they are there then.
pub fn write_back(
    rt: HostRuntime,
    first: usize,
    log: Option<Writing>,
    state: Record,
    memory: &[u32],
    disk: &[u32],
    frame: &[u8],
) -> bool
    requires { first + 8 < 2 ^ 64 }
    ensures { result ≡ true → CanBeBack log state memory.now disk.now frame.now }
{
    let files = FilesBack {
        log,
        data: write_new_data(rt, first + 1, memory),
        disk: write_new_disk(rt, first + 2, disk),
        frame: write_new_frame(rt, first + 3, frame),
        record: write_new_record(rt, first + 4, state),
    };
    if are_written(&files) {
        return commit_all(rt, first, files);
    }
    drop_all(rt, first, files);
    say(rt, b"nothing is written back\n");
    false
}

// Whether the five files are whole.
fn are_written(files: &FilesBack) -> bool
    ensures { result ≡ are_written files.now.log files.now.data files.now.disk files.now.frame files.now.record }
{
    files.log.is_some()
        && files.data.is_some()
        && files.disk.is_some()
        && files.frame.is_some()
        && files.record.is_some()
}

// Puts the log, the memories and the record into their places, up to the first that can't be; those after it are removed.
fn commit_all(rt: HostRuntime, first: usize, files: FilesBack) -> bool
    requires { first + 8 < 2 ^ 64 }
{
    let mut is_committed = commit_at(rt, first + 7, files.log);
    is_committed = commit_or_drop(rt, first + 1, files.data, is_committed);
    is_committed = commit_or_drop(rt, first + 2, files.disk, is_committed);
    is_committed = commit_or_drop(rt, first + 3, files.frame, is_committed);
    commit_or_drop(rt, first + 4, files.record, is_committed)
}

// Removes them all.
fn drop_all(rt: HostRuntime, first: usize, files: FilesBack)
    requires { first + 8 < 2 ^ 64 }
{
    drop_at(rt, first + 1, files.data);
    drop_at(rt, first + 2, files.disk);
    drop_at(rt, first + 3, files.frame);
    drop_at(rt, first + 4, files.record);
    drop_at(rt, first + 7, files.log);
}

// Puts a file into its place where those before it are in theirs, or removes it; answers whether it is there. (Each answer is the next file's question: a bool.)
fn commit_or_drop(rt: HostRuntime, i: usize, w: Option<Writing>, is_committed: bool) -> bool {
    if is_committed {
        return commit_at(rt, i, w);
    }
    drop_at(rt, i, w);
    false
}
