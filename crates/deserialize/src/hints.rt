// Hints in the pool table for the search of native names: where, in a long names list, the name that a string is ends. A native's row is looked for there first, so that
// the list is not passed for each row. A hint stands above HINT_BASE in an entry's first word. Above it in the second word stand links, by which the strings are found that
// a name is: chains of the strings of one hash. An entry has the first string of the chain of its own number, and the string after itself in its own chain, each by its
// number + 1, or 0. Nothing is proved of hints and links but that they leave what stands below the base: a hint is tested where it is used.
ghost use Rattle.std.specs.Prelude.{true, ◌≡◌, ◌+◌, ◌*◌, ◌/◌, ◌≤◌, ◌<◌, length};
ghost use Rattle.read_items.specs.Context.{PoolFits, plain_words};

use cursor::Cursor;
use read_items::HINT_BASE;

// The second of the two links is below this base.
const LINK_BASE: u64 = 0x8_0000;

// A shorter list gets no hints.
const LONG_LIST: usize = 1024;

// The chain of a string: its hash, by the count of strings.
fn chain_of(string: &[u8], strings: usize) -> usize
    requires { 0 < strings }
    ensures { result < strings }
{
    (trie::hash(string) % strings as u64) as usize
}

// The strings of a payload, by its pool table, in which hints and links are put.
#[derive(Drop)]
pub struct Strings<'a> {
    pub bytes: &'a [u8],
    pub pool: &'a mut [u64],
    pub ghost fits: { PoolFits bytes.now pool.now },
}

impl<'a> Strings<'a> {
    ghost use Rattle.deserialize.specs.Hints.{Keeps};

    // How many there are.
    fn count(&self) -> usize
        ensures { result ≡ length self.now.pool.now / 2 }
    {
        self.pool.len() / 2
    }

    // String k.
    fn string(&self, k: usize) -> &'a [u8]
        requires { 2 * k + 1 < length self.now.pool.now }
    {
        let from = (self.pool[2 * k] % HINT_BASE) as usize;
        let n = (self.pool[2 * k + 1] % HINT_BASE) as usize;
        &self.bytes[from..from + n]
    }

    // What stands above the base in a word.
    fn above(&self, i: usize) -> u64
        requires { i < length self.now.pool.now }
        ensures { result < 0x80_0000_0000 }
    {
        self.pool[i] / HINT_BASE
    }

    // Puts a hint above the base in a word, or links.
    fn set_above(&mut self, i: usize, hint: u64)
        requires { i < length self.old.pool.now }
        ensures { Keeps self.old self.new }
    {
        self.pool[i] = self.pool[i] % HINT_BASE + hint % 0x80_0000_0000 * HINT_BASE;
    }

    // The first string of a chain.
    fn first_in(&self, chain: usize) -> u64
        requires { 2 * chain + 1 < length self.now.pool.now }
        ensures { result < 0x10_0000 }
    {
        self.above(2 * chain + 1) / LINK_BASE
    }

    // The string that comes after string k in its chain.
    fn next_of(&self, k: usize) -> u64
        requires { 2 * k + 1 < length self.now.pool.now }
        ensures { result < 0x8_0000 }
    {
        self.above(2 * k + 1) % LINK_BASE
    }

    // Puts string k before the others of its chain, unless it is more than twice as long as the longest name.
    fn link(&mut self, k: usize, longest: u64)
        requires { 2 * k + 1 < length self.old.pool.now }
        ensures { Keeps self.old self.new }
    {
        let string = self.string(k);
        if longest < string.len() as u64 / 2 {
            return;
        }
        let chain = chain_of(string, self.count());
        let first = self.first_in(chain) % LINK_BASE;
        self.set_above(2 * k + 1, self.first_in(k) * LINK_BASE + first);
        let own = (k as u64 + 1) % LINK_BASE;
        self.set_above(2 * chain + 1, own * LINK_BASE + self.next_of(chain));
    }

    fn link_all(&mut self, longest: u64)
        ensures { Keeps self.old self.new }
    {
        for k in 0..self.count() {
            self.link(k, longest);
        }
    }

    // Gives the hint `end` to each string that is the name. A link leads to an earlier string, or is not followed; how many follow is not known, so the loop is a `while`.
    fn hint_name(&mut self, name: &[u8], end: usize)
        requires { 1 < length self.old.pool.now }
        ensures { Keeps self.old self.new }
    {
        let strings = self.count();
        let mut link = self.first_in(chain_of(name, strings)) as usize;
        while 0 < link {
            let k = link - 1;
            if strings <= k {
                return;
            }
            if self.string(k) == name {
                self.set_above(2 * k, end as u64);
            }
            let next = self.next_of(k) as usize;
            if link <= next {
                return;
            }
            link = next;
        }
    }

    fn hint_names(&mut self, names: &[u8])
        requires { 1 < length self.old.pool.now }
        ensures { Keeps self.old self.new }
    {
        let mut from: usize = 0;
        // The end of each name is wanted, which `split` does not tell; what follows the last 0A is no name.
        while let Some(n) = names[from..].iter().position(|byte| *byte == b'\n') {
            let end = from + n;
            self.hint_name(&names[from..end], end);
            from = end + 1;
        }
    }

    // Adds the hints.
    pub(crate) fn add_hints(&mut self, names: &[u8])
        requires { (1024 ≤ length names.now) × (1 < length self.old.pool.now) }
        ensures { Keeps self.old self.new }
    {
        self.link_all(longest_name(names));
        self.hint_names(names);
    }
}

// The longest of the names at the list's begin: a guess at that of all.
fn longest_name(names: &[u8]) -> u64
    requires { 1024 ≤ length names.now }
{
    let mut longest: u64 = 0;
    let mut n: u64 = 0;
    for byte in &names[..LONG_LIST] {
        n = if *byte == b'\n' { 0 } else { n + 1 };
        longest = longest.max(n);
    }
    longest
}

// How many strings are to be linked. A `for`, since the count of a filter takes a tenth longer.
fn short_strings(pool: &[u64], longest: u64) -> usize
    ensures { result ≤ length pool.now / 2 }
{
    let mut count: usize = 0;
    for entry in pool.chunks_exact(2) {
        if entry[1] / 2 <= longest {
            count += 1;
        }
    }
    count
}

// The bytes 08 in a block. A `for` that counts in a byte and has no exit, so that it compiles to vectors, as the count of a filter does not.
fn eights_in_block(block: &[u8]) -> u8
    requires { length block.now ≤ 128 }
    ensures { result ≤ length block.now }
{
    let mut count: u8 = 0;
    for byte in block {
        if *byte == 8 {
            count += 1;
        }
    }
    count
}

// The bytes 08 from `at` on, of which each row of a native has one; the last few bytes are not looked at.
fn eights(bytes: &[u8], at: usize) -> usize
    requires { at ≤ length bytes.now }
    ensures { result ≤ length bytes.now }
{
    let mut count: usize = 0;
    for block in bytes[at..].chunks_exact(128) {
        count += usize::from(eights_in_block(block));
    }
    count
}

// Whether hints are likely to save more than they cost. To add them takes about 2 ns for each byte of the list and 28 ns for each string that is linked; a search takes
// about 1/12 ns for each byte of the list. So they pay from 24 searches on where strings are few, and twice as many are asked for. Bytes 08 that are no native's are about one in a
// hundred: either there must be more of them, or the cost must be little beside that of reading, which is about 2 ns for each byte.
pub(crate) fn pay(names: &[u8], cursor: Cursor<'_>, pool: &[u64]) -> bool
    ensures { result ≡ true → (1024 ≤ length names.now) × (1 < length pool.now) }
{
    if names.len() < LONG_LIST {
        return false;
    }
    if 0x100_0000 < names.len() {
        return false;
    }
    let strings = pool.len() / 2;
    if strings < 1 {
        return false;
    }
    if LINK_BASE <= strings as u64 {
        return false;
    }
    let Cursor { payload, at, .. } = cursor;
    let natives = eights(payload, at);
    let cost = names.len() + 14 * short_strings(pool, longest_name(names));
    if natives < 48 * cost / names.len() {
        return false;
    }
    (cost <= payload.len() / 32) | ((payload.len() - at) / 32 <= natives)
}

// Takes away all that stands above the base.
pub(crate) fn take_away(pool: &mut [u64])
    ensures { pool.new ≡ plain_words pool.old }
{
    for word in pool {
        *word %= HINT_BASE;
    }
}
