// Bytes of a payload, emitted one part after another. One walk serves three ends: into an output the bytes are stored, into an empty one they are only measured,
// and where a payload is expected they are compared with it and nothing is stored.
#![tactic(auto)]

ghost use Rattle.std.specs.Prelude.{◌≡◌, ◌+◌, ◌≤◌, true, false, length, drop, is_some};
ghost use Rattle.slices.specs.LittleEndian.{to_le_bytes};
ghost use Rattle.slices.specs.Put.{put};
ghost use Rattle.emit.specs.Emit.{further, place_after, stopped, output_limit};
ghost use Rattle.emit.specs.Expected.{bytes_of};

use payload::Program;

pub mod parts;

use parts::Part;

const LIMIT: usize = Program::SIZE;

// A number and no `Option`, since the definition's `further` is one: the place past the limit, from which nothing leads back.
const STOPPED: usize = LIMIT + 1;

// The place n bytes further on.
fn further_on(at: usize, n: usize) -> usize
    ensures { result ≡ further at n }
{
    if at <= LIMIT && n <= LIMIT - at {
        return at + n;
    }
    STOPPED
}

// No bytes agree everywhere, also past the payload's end.
fn compare_body(payload: &[u8], at: usize, s: &[u8]) -> usize
    ensures { result ≡ place_after true payload.now at s.now }
{
    let end = further_on(at, s.len());
    if end == STOPPED {
        return STOPPED;
    }
    if payload.len() < end {
        if s.len() == 0 {
            return end;
        }
        return STOPPED;
    }
    if slices::equal_parts(s, 0, payload, at, s.len()) {
        return end;
    }
    STOPPED
}

// What lies past the output's end is not stored.
fn store_body(out: &mut [u8], at: usize, s: &[u8])
    requires { at ≤ length out.old }
    ensures { out.new ≡ put out.old at s.now }
{
    let k = s.len().min(out.len() - at);
    slices::copy_part(out, at, &s[..k]);
}

// The n lowest bytes of w from `at` on, the lowest first.
fn store_number(out: &mut [u8], at: usize, w: u64, n: usize)
    requires { at + n ≤ length out.old }
    ensures { out.new ≡ put out.old at (to_le_bytes n w) }
{
    let mut rest = w;
    for i in 0..n {
        out[at + i] = (rest % 256) as u8;
        rest /= 256;
    }
}

// What is expected from a place on.
fn expected_from(expected: Option<&[u8]>, at: usize) -> Option<&[u8]>
    ensures compares { is_some result ≡ is_some expected.entry }
    ensures bytes { bytes_of result ≡ drop at (bytes_of expected.entry) }
{
    match expected {
        Some(payload) => Some(&payload[at.min(payload.len())..]),
        None => None,
    }
}

// An output with the place of the next byte, and the payload that the bytes are compared with, if one is expected. The place is STOPPED where the bytes passed
// the size limit or differed, and from there on.
#[derive(Drop)]
pub struct Emitter<'a, 'p> {
    pub out: &'a mut [u8],
    pub at: usize,
    pub expected: Option<&'p [u8]>,
    pub ghost room: { length out.now ≤ output_limit (is_some expected) },
    pub ghost place: { at ≤ stopped },
}

impl Emitter<'_, '_> {
    ghost use Rattle.std.specs.Prelude.{◌∷◌, [], ◌++◌, List, ℕ};
    ghost use Rattle.slices.specs.LittleEndian.{to_le_bytes};
    ghost use Rattle.varint.specs.Uleb128.{uleb128};
    ghost use Rattle.emit.specs.Emits.{Emits, Advances, only_measures};

    // So many bytes further on, and nothing is stored.
    pub fn advance(&mut self, n: usize)
        ensures { Advances self.old self.new n }
    {
        self.at = further_on(self.at, n);
    }

    // Whether bytes from here on are only measured: none is expected, and the output has ended.
    pub fn only_measures(&self) -> bool
        ensures { result ≡ only_measures self.now }
    {
        self.expected.is_none() && self.out.len() <= self.at
    }

    // Whether n bytes from here on are stored.
    fn has_room(&self, n: usize) -> bool
        ensures { result ≡ true → (is_some self.now.expected ≡ false) × (self.now.at + n ≤ length self.now.out.now) }
    {
        self.expected.is_none() && self.at <= self.out.len() && n <= self.out.len() - self.at
    }

    pub fn byte(&mut self, x: u8)
        ensures { Emits self.old self.new (x ∷ []) }
    {
        if LIMIT <= self.at {
            self.at = STOPPED;
            return;
        }
        if let Some(payload) = self.expected {
            if self.at < payload.len() && payload[self.at] == x {
                self.at += 1;
                return;
            }
            self.at = STOPPED;
            return;
        }
        if self.at < self.out.len() {
            self.out[self.at] = x;
            self.at += 1;
            return;
        }
        self.at += 1;
    }

    // The groups of the shortest ULEB128 of n, one after another.
    fn groups(&mut self, n: u64)
        ensures { Emits self.old self.new (uleb128 n) }
    {
        let mut rest = n;
        // As in `write_uvarint`: a `for` would work out the width first.
        while 128 <= rest {
            self.byte((rest % 128 + 128) as u8);
            rest /= 128;
        }
        self.byte(rest as u8);
    }

    // The shortest ULEB128 of n. Past the output only its length counts. It has at most ten bytes: where they fit they are stored with no test at each.
    pub fn varint(&mut self, n: u64)
        ensures { Emits self.old self.new (uleb128 n) }
    {
        if n < 128 {
            return self.byte(n as u8);
        }
        if self.only_measures() {
            return self.advance(varint::uvarint_width(n));
        }
        if self.has_room(10) {
            self.at = varint::write_uvarint(self.out, self.at, n);
            return;
        }
        self.groups(n);
    }

    // Three bytes. Where they fit they are stored with no test at each.
    fn three_bytes(&mut self, first: u8, second: u8, third: u8)
        ensures { Emits self.old self.new (first ∷ second ∷ third ∷ []) }
    {
        if self.has_room(3) {
            let at = self.at;
            self.out[at] = first;
            self.out[at + 1] = second;
            self.out[at + 2] = third;
            self.at = at + 3;
            return;
        }
        self.byte(first);
        self.byte(second);
        self.byte(third);
    }

    // The shortest ULEB128 of three numbers, one after another. Three numbers of one byte each are stored without a test for each.
    pub fn three_varints(&mut self, first: u64, second: u64, third: u64)
        ensures { Emits self.old self.new ((uleb128 first ++ uleb128 second) ++ uleb128 third) }
    {
        if first < 128 && second < 128 && third < 128 {
            return self.three_bytes(first as u8, second as u8, third as u8);
        }
        self.varint(first);
        self.varint(second);
        self.varint(third);
    }

    // The n lowest bytes of w, the lowest first.
    pub fn little_endian(&mut self, w: u64, n: usize)
        ensures { Emits self.old self.new (to_le_bytes n w) }
    {
        if self.only_measures() {
            return self.advance(n);
        }
        // Where all have room they are stored one behind another, without the place in between: a float takes a quarter less.
        if self.has_room(n) {
            let at = self.at;
            store_number(self.out, at, w, n);
            self.at = at + n;
            return;
        }
        let mut rest = w;
        for _i in 0..n {
            self.byte((rest % 256) as u8);
            rest /= 256;
        }
    }

    // The bytes of s.
    pub fn body(&mut self, s: &[u8])
        ensures { Emits self.old self.new s.now }
    {
        if let Some(payload) = self.expected {
            self.at = compare_body(payload, self.at, s);
            return;
        }
        if self.out.len() <= self.at {
            return self.advance(s.len());
        }
        store_body(self.out, self.at, s);
        self.advance(s.len());
    }

    // A part, into what is left of the output.
    pub fn part<P: Part>(&mut self, part: &P)
        ensures { Emits self.old self.new (P.bytes part.now) }
    {
        let o = self.at.min(self.out.len());
        let expected = expected_from(self.expected, self.at);
        let written = parts::emit_part(&mut self.out[o..], expected, part);
        self.advance(written);
    }
}
