// The conversions, each of the file that an argument names into one that the next names. A file that is refused writes nothing.
ghost use Rattle.std.specs.Prelude.{◌+◌, ◌*◌, ◌^◌, ◌<◌};

use crate::Conversion;
use crate::load::load_hex_at;
use crate::new_files::{write_new_hex_data, write_new_hex_disk};
use console::Writing;
use files::{DATA_WORDS, DISK_WORDS};
use memories::{
    commit_at, load_data_at, load_disk_at, names_clash, say_at, write_new_data, write_new_disk,
};

// Makes a conversion, if there is one, unless the two names clash.
pub fn convert(rt: HostRuntime, conversion: Option<Conversion>, from: usize)
    requires { from + 2 < 2 ^ 64 }
{
    if names_clash(rt, from, 1, 2) {
        return;
    }
    match conversion {
        Some(Conversion::HexToData) => hand_over::<DATA_WORDS, _, _>(
            rt,
            from,
            |memory| load_hex_at(rt, from, memory),
            |memory| write_new_data(rt, from + 1, memory),
            b" is written: 4096 words\n",
        ),
        Some(Conversion::HexToDisk) => hand_over::<DISK_WORDS, _, _>(
            rt,
            from,
            |disk| load_hex_at(rt, from, disk),
            |disk| write_new_disk(rt, from + 1, disk),
            b" is written: 16384 words\n",
        ),
        Some(Conversion::DataToHex) => hand_over::<DATA_WORDS, _, _>(
            rt,
            from,
            |memory| load_data_at(rt, from, memory),
            |memory| write_new_hex_data(rt, from + 1, memory),
            b" is written: 45068 bytes\n",
        ),
        Some(Conversion::DiskToHex) => hand_over::<DISK_WORDS, _, _>(
            rt,
            from,
            |disk| load_disk_at(rt, from, disk),
            |disk| write_new_hex_disk(rt, from + 1, disk),
            b" is written: 180236 bytes\n",
        ),
        None => {}
    }
}

// Loads a memory of so many words from a file and, where that is accepted, writes it to the next, and says words of that file where it is in its place then.
fn hand_over<const WORDS: usize, L, W>(
    rt: HostRuntime,
    from: usize,
    load: L,
    write: W,
    words: &[u8],
)
where
    L: FnOnce(&mut [u32]) -> Option<()>,
    W: FnOnce(&[u32]) -> Option<Writing>,
    requires bound { from + 2 < 2 ^ 64 }
    requires fits { WORDS * 4 < 2 ^ 63 }
    requires loads { L.IsAlwaysCallable load }
    requires writes { W.IsAlwaysCallable write }
{
    let mut memory = [0u32; WORDS];
    if load(&mut memory).is_none() {
        return;
    }
    if commit_at(rt, from + 1, write(&memory)) {
        say_at(rt, from + 1, words);
    }
}
