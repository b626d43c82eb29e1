// Names that arguments give.
// Stays (2): each question of a name has its own answer; what they share is `Name::of_argument`.
ghost use Rattle.std.specs.Prelude.{◌≡◌, true, List, ℕ, ◌+◌, ◌^◌, ◌<◌};
ghost use Rattle.memories.specs.Names.{is_device, is_new_of, clash};

use crate::named::say_at;
use console::Name;
use text::same::{are_same, begins_with};

// Whether the name of a file that is written clashes with that of one before it: the arguments from `first` on, of which so many are read. Says so
// of the first that does.
pub fn names_clash(rt: HostRuntime, first: usize, read: usize, count: usize) -> bool
    requires { first + count < 2 ^ 64 }
    ensures { result ≡ true → read < count }
{
    for i in read..count {
        if clashes_with_one(rt, first + i, first, i) {
            return true;
        }
    }
    false
}

// Whether the name that an argument gives clashes with that of one of so many arguments from `first` on; says so.
pub fn clashes_with_one(rt: HostRuntime, i: usize, first: usize, count: usize) -> bool
    requires { first + count < 2 ^ 64 }
    ensures { result ≡ true → 0 < count }
{
    for k in first..first + count {
        if arguments_clash(rt, k, i) {
            say_at(rt, i, b" is given for two files; nothing is written\n");
            return true;
        }
    }
    false
}

// Whether two arguments give names that clash.
fn arguments_clash(rt: HostRuntime, i: usize, j: usize) -> bool {
    do_clash(
        Name::of_argument(rt, i).bytes(),
        Name::of_argument(rt, j).bytes(),
    )
}

// Whether two names are the same, or one is the other's `.new`; a device's is never.
#[tactic(auto, unfolding(crate::specs::Names::clash))]
fn do_clash(a: &[u8], b: &[u8]) -> bool
    ensures { result ≡ clash a.now b.now }
{
    !is_device(a) && (is_new_of(a, b) || is_new_of(b, a) || are_same(a, b))
}

// Whether a name is another one and `.new`.
fn is_new_of(new: &[u8], name: &[u8]) -> bool
    ensures { result ≡ is_new_of new.now name.now }
{
    let n = name.len();
    if begins_with(new, name) {
        return are_same(&new[n..], b".new");
    }
    false
}

// Whether an argument names a device: as it is of some name, which can't be named here.
pub fn is_device_at(rt: HostRuntime, i: usize) -> bool
    ensures { (name : List ℕ) × (result ≡ is_device name) }
{
    is_device(Name::of_argument(rt, i).bytes())
}

// Whether a name begins with `/dev/`.
fn is_device(name: &[u8]) -> bool
    ensures { result ≡ is_device name.now }
{
    begins_with(name, b"/dev/")
}
