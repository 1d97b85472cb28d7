// Native names: whether a string is a name of the list. A name of n bytes ends at a 0A that stands n + 1 bytes after another, or after the list's begin.
// So whole blocks of the list are passed by a test that compiles to vectors, and only where it holds is a string compared.
#![tactic(auto)]

ghost use Rattle.std.specs.Prelude.{true, false, ◌≡◌, ℕ, ◌+◌, ◌-◌, ◌≤◌, ◌<◌, get_or, length, take, drop};
ghost use Rattle.payload.specs.Names.{is_listed};
ghost use Rattle.native_names.specs.NameEnds.{Decides, Clear, NameEnds, MayEnd, LastByte};

// Whether no 0A stands from `from` to `end`.
fn is_clear(names: &[u8], from: usize, end: usize) -> bool
    requires { (from ≤ end) × (end ≤ length names.now) }
    ensures { Decides (Clear names.now from end) result }
{
    !names[from..end].contains(&0x0A)
}

// Whether a name may begin at `from`.
fn begins_at(names: &[u8], from: usize) -> bool
    requires { from ≤ length names.now }
    ensures { Decides (0 < from → get_or names.now (from - 1) 0 ≡ 0x0A) result }
{
    from == 0 || names[from - 1] == 0x0A
}

// Whether the string is a name that ends at i. Inlined: as a call for each place that may end a name, a list without hints takes half as long again.
#[inline(always)]
#[tactic(auto, using(crate::proofs::Listed::name_ends, crate::proofs::Listed::name_starts, crate::proofs::Listed::name_same))]
fn ends_at(names: &[u8], i: usize, name: &[u8]) -> bool
    requires { (i < length names.now) × (length name.now ≤ i) }
    ensures { Decides (NameEnds names.now name.now (length name.now) i) result }
{
    let from = i - name.len();
    if names[i] != 0x0A || !begins_at(names, from) {
        return false;
    }
    slices::equal(name, &names[from..i]) && is_clear(names, from, i)
}

// Whether the string is a name that ends between `from` and `to`.
fn ends_between(names: &[u8], from: usize, to: usize, name: &[u8]) -> bool
    requires { (length name.now ≤ from) × (from ≤ to) × (to ≤ length names.now) }
    ensures { Decides ((k : ℕ) × (from ≤ k) × (k < to) × NameEnds names.now name.now (length name.now) k) result }
{
    for i in from..to {
        if ends_at(names, i, name) {
            return true;
        }
    }
    false
}

// A false says that no name of n bytes with this last byte ends in the 32 bytes from i on. It has no exit in between, so that it compiles to vectors.
fn may_end(names: &[u8], i: usize, n: usize, last: u8) -> bool
    requires { (n < i) × (i + 32 ≤ length names.now) }
    ensures { result ≡ false → (k : ℕ) → i ≤ k → k < i + 32 → MayEnd names.now n last k → ⊥ }
{
    let gap = n + 1;
    let mut any = false;
    for k in i..i + 32 {
        any = any | ((names[k] == 0x0A) & (names[k - gap] == 0x0A) & (names[k - 1] == last));
    }
    any
}

// The last byte of the string; of an empty one the 0A before it in the list.
fn last_byte(name: &[u8]) -> u8
    ensures { LastByte name.now 0 (length name.now) result }
{
    match name.last() {
        Some(last) => *last,
        None => 0x0A,
    }
}

// Whether the string, which ends in `last`, is a name that ends in the 32 bytes from i on.
fn ends_in_block(names: &[u8], i: usize, last: u8, name: &[u8]) -> bool
    requires { (length name.now < i) × (i + 32 ≤ length names.now) × LastByte name.now 0 (length name.now) last }
    ensures { Decides ((k : ℕ) × (i ≤ k) × (k < i + 32) × NameEnds names.now name.now (length name.now) k) result }
{
    may_end(names, i, name.len(), last) && ends_between(names, i, i + 32, name)
}

// A true says that the string is a name that ends at the hint, which is any number.
fn ends_at_hint(names: &[u8], hint: u64, name: &[u8]) -> bool
    ensures { result ≡ true → (hint < length names.now) × NameEnds names.now name.now (length name.now) hint }
{
    let i = hint as usize;
    name.len() <= i && i < names.len() && ends_at(names, i, name)
}

// Whether the n bytes at `o` are a name of the list.
pub fn is_listed(names: &[u8], bytes: &[u8], o: u64, n: u64, hint: u64) -> bool
    requires { o + n ≤ length bytes.now }
    ensures { result ≡ is_listed names.now (take n (drop o bytes.now)) }
{
    let start = o as usize;
    let name = &bytes[start..start + n as usize];
    is_name(names, name, hint)
}

// Whether the string is a name of the list. The hint is where its name may end: it is looked at first, and nothing is known of it.
fn is_name(names: &[u8], name: &[u8], hint: u64) -> bool
    ensures { result ≡ is_listed names.now name.now }
{
    if names.len() <= name.len() {
        return false;
    }
    if ends_at_hint(names, hint, name) || ends_at(names, name.len(), name) {
        return true;
    }
    let last = last_byte(name);
    let first = name.len() + 1;
    let blocks = (names.len() - first) / 32;
    for block in 0..blocks {
        if ends_in_block(names, first + 32 * block, last, name) {
            return true;
        }
    }
    ends_between(names, first + 32 * blocks, names.len(), name)
}
