// Names looked up by a hash table with chains, in one slice of words that the caller lends. How the words stand in it is said in specs/Table.antt.
// Stays (1, 2, 3, 4, 5, 6): chains in a lent slice, since no heap is a rule of the project; a link's number is a place in it.
#![tactic(auto)]

ghost use Rattle.std.specs.Prelude.{◌≡◌, true, ◌&&◌, [], ◌∷◌, ◌++◌, ◌+◌, ◌^◌, ◌≤◌, ◌<◌, leb, ltb, length};
ghost use Rattle.text.specs.Same.{same};
ghost use Rattle.source.specs.Lookup.{is_among};
ghost use Rattle.source.specs.Tokens.{tokens, texts};
ghost use Rattle.symbols.specs.Keys.{key_of};
ghost use Rattle.symbols.specs.Table.{part, entry_at, name_at, names_of};
ghost use Rattle.symbols.specs.Sound.{Entry, Sound, Empty, Found};

use source::tokens::next_token;
use text::same::are_same;

// How many chains there are.
const HEADS: usize = 4096;

// How many names are known as recent ones.
const RECENTS: usize = 4096;

// Where the entries begin.
const ENTRIES: usize = HEADS + RECENTS;

// How many words an entry has.
const ENTRY: usize = 4;

// A table of names, each of which is a part of a text, in words that are lent.
#[derive(Drop)]
pub struct Table<'a> {
    pub source: &'a [u8],
    pub words: &'a mut [u32],
    pub count: usize,
    pub ghost sound: { Sound source.now words.now count },
}

impl<'a> Table<'a> {
    // A table with no entry.
    pub fn empty(source: &'a [u8], words: &'a mut [u32]) -> Table<'a>
        requires { Empty words.old }
        ensures source { result.source.now ≡ source.now }
        ensures words { result.words.now ≡ words.old }
        ensures count { result.count ≡ 0 }
    {
        Table {
            source,
            words,
            count: 0,
        }
    }

    // Whether there is room for one more entry.
    pub fn has_room(&self) -> bool
        requires { self.now.count < 2 ^ 32 }
        ensures { result ≡ leb (entry_at (self.now.count + 1)) (length self.now.words.now) }
    {
        has_room(self.words, self.count)
    }

    // Looks a name up among the first `below` entries: the number of one that has it, if one has.
    pub fn find(&self, below: usize, t: &[u8]) -> Option<usize>
        requires { below ≤ self.now.count }
        ensures { Found self.now.source.now self.now.words.now below t.now result }
    {
        find(self.source, self.words, self.count, below, t)
    }

    // True only where the name t, of which this is the key, is among the names: it looks at the last entry of its slot alone, to answer sooner.
    fn is_recent(&self, key: u32, t: &[u8]) -> bool
        requires { key ≡ key_of t.now }
        ensures { result ≡ true → is_among (names_of self.now.source.now self.now.words.now self.now.count) t.now ≡ true }
    {
        let link = self.words[HEADS + key as usize / HEADS % RECENTS] as usize;
        0 < link && is_entry(self.source, self.words, self.count, link - 1, key, t)
    }

    // Adds one more entry, for the name from start to end.
    pub fn add(&mut self, start: usize, end: usize)
        requires order { start ≤ end }
        requires within { end ≤ length self.old.source.now }
        requires length { length self.old.source.now < 2 ^ 32 }
        requires few { self.old.count + 1 < 2 ^ 32 }
        requires room { entry_at (self.old.count + 1) ≤ length self.old.words.now }
        ensures source { self.new.source.now ≡ self.old.source.now }
        ensures count { self.new.count ≡ self.old.count + 1 }
        ensures names { names_of self.new.source.now self.new.words.now self.new.count ≡ names_of self.old.source.now self.old.words.now self.old.count ++ (part self.old.source.now start end ∷ []) }
        ensures room { length self.new.words.now ≡ length self.old.words.now }
    {
        let name = &self.source[start..end];
        let key = key_of(name);
        let recent = self.is_recent(key, name);
        let count = self.count;
        put_entry(self.source, self.words, count, start, end, key, recent);
        self.count = count + 1;
    }
}

// Whether words that hold so many entries have room for one more.
pub fn has_room(table: &[u32], count: usize) -> bool
    requires { count < 2 ^ 32 }
    ensures { result ≡ leb (entry_at (count + 1)) (length table.now) }
{
    ENTRIES + ENTRY * (count + 1) <= table.len()
}

// Looks a name up among the first `below` entries of words that are only read: the number of one that has it, if one has. A chain is links in the lent
// words (no heap), so it is walked by a `while`.
pub fn find(source: &[u8], table: &[u32], count: usize, below: usize, t: &[u8]) -> Option<usize>
    requires sound { Sound source.now table.now count }
    requires below { below ≤ count }
    ensures { Found source.now table.now below t.now result }
{
    let key = key_of(t);
    let mut link = table[key as usize % HEADS] as usize;
    while link != 0 {
        let k = link - 1;
        if is_entry(source, table, below, k, key, t) {
            return Some(k);
        }
        link = table[ENTRIES + ENTRY * k] as usize;
    }
    None
}

// Whether entry k is one of the first `below` and has the name t, of which this is the key. Where the keys differ, the bytes are not compared.
fn is_entry(source: &[u8], table: &[u32], below: usize, k: usize, key: u32, t: &[u8]) -> bool
    requires entry { Entry source.now table.now k }
    requires room { entry_at (k + 1) ≤ length table.now }
    requires key { key ≡ key_of t.now }
    ensures { result ≡ (ltb k below && same t.now (name_at source.now table.now k)) }
{
    let at = ENTRIES + ENTRY * k;
    if table[at + 1] != key {
        return false;
    }
    if k < below {
        let start = table[at + 2] as usize;
        let end = table[at + 3] as usize;
        return are_same(t, &source[start..end]);
    }
    false
}

// Puts the entry with this number. It is the first of its chain, unless its name is a recent one: a name that is repeated does not make a chain long.
fn put_entry(
    source: &[u8],
    words: &mut [u32],
    count: usize,
    start: usize,
    end: usize,
    key: u32,
    recent: bool,
)
    requires sound { Sound source.now words.old count }
    requires order { start ≤ end }
    requires within { end ≤ length source.now }
    requires length { length source.now < 2 ^ 32 }
    requires few { count + 1 < 2 ^ 32 }
    requires room { entry_at (count + 1) ≤ length words.old }
    requires key { key ≡ key_of (part source.now start end) }
    requires recent { recent ≡ true → is_among (names_of source.now words.old count) (part source.now start end) ≡ true }
    ensures sound { Sound source.now words.new (count + 1) }
    ensures names { names_of source.now words.new (count + 1) ≡ names_of source.now words.old count ++ (part source.now start end ∷ []) }
    ensures room { length words.new ≡ length words.old }
{
    let bucket = key as usize % HEADS;
    let head = words[bucket];
    let at = ENTRIES + ENTRY * count;
    words[at] = head;
    words[at + 1] = key;
    words[at + 2] = start as u32;
    words[at + 3] = end as u32;
    if recent {
        return;
    }
    let link = (count + 1) as u32;
    let slot = key as usize / HEADS % RECENTS;
    words[bucket] = link;
    words[HEADS + slot] = link;
}

// A table of the tokens of a text of names.
pub fn add_tokens<'a>(names: &'a [u8], words: &'a mut [u32]) -> Table<'a>
    requires empty { Empty words.old }
    requires room { entry_at (length names.now) ≤ length words.old }
    requires length { length names.now < 2 ^ 32 }
    ensures source { result.source.now ≡ names.now }
    ensures names { names_of names.now result.words.now result.count ≡ texts (tokens names.now) }
    ensures room { length result.words.now ≡ length words.old }
{
    let mut table = Table::empty(names, words);
    let mut p = 0;
    while let Some(s) = next_token(names, p) {
        table.add(s.start, s.end);
        p = s.end;
    }
    table
}

// The key of a name.
fn key_of(t: &[u8]) -> u32
    ensures { result ≡ key_of t.now }
{
    let mut key: u64 = 0;
    for b in t {
        key = (key * 75 + u64::from(*b)) % 0x1_0000_0000;
    }
    key as u32
}
