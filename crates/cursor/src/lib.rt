// The cursor: a payload and a position in it, which each read moves on.
#![tactic(auto)]

ghost use Rattle.std.specs.Prelude.{◌≡◌, ◌≤◌, length, IfErr, IfOk};
ghost use Rattle.varint.specs.Varint.{varint_of, varint_answer};
ghost use Rattle.cursor.specs.Body.{body_of};

use refusal::{Reason, Refusal};

#[derive(Clone, Copy)]
pub struct Cursor<'a> {
    pub payload: &'a [u8],
    pub at: usize,
    ghost inside: { at ≤ length payload.now },
}

impl<'a> Cursor<'a> {
    ghost use Rattle.payload.specs.Numbers.{varint};
    ghost use Rattle.payload.specs.Reader.{body, byte};
    ghost use Rattle.cursor.specs.Advances.{Advances, Taken, answer_by, answer_of, part_at};

    // At a place of a payload.
    pub fn new(payload: &'a [u8], at: usize) -> Cursor<'a>
        requires { at ≤ length payload.now }
        ensures { (result.payload ≡ payload.entry) × (result.at ≡ at) }
    {
        Cursor { payload, at }
    }

    // The varint that stands here.
    pub fn uvarint(&mut self) -> Result<u64, Refusal>
        ensures advances { Advances self.old self.new varint (answer_of result self.new.at) }
        ensures refused { IfErr result (λ e. self.new.at ≡ self.old.at) }
    {
        let (number, next) = varint::uvarint(self.payload, self.at)?;
        self.at = next;
        Ok(number)
    }

    // The byte that stands here.
    pub fn byte(&mut self) -> Result<u8, Refusal>
        ensures advances { Advances self.old self.new byte (answer_of result self.new.at) }
        ensures refused { IfErr result (λ e. self.new.at ≡ self.old.at) }
    {
        if self.at == self.payload.len() {
            return Err(Reason::EndInItem.at(self.at));
        }
        let b = self.payload[self.at];
        self.at += 1;
        Ok(b)
    }

    // The next n bytes.
    pub fn take(&mut self, n: usize) -> Result<&'a [u8], Refusal>
        ensures advances { Advances self.old self.new (body n) (answer_by (part_at self.old.at) result self.new.at) }
        ensures taken { IfOk result (λ bytes. Taken self.old n bytes.now self.new.at) }
        ensures refused { IfErr result (λ e. self.new.at ≡ self.old.at) }
    {
        if self.payload.len() - self.at < n {
            return Err(Reason::EndInItem.at(self.at));
        }
        let from = self.at;
        self.at += n;
        Ok(&self.payload[from..self.at])
    }
}

// The same by plain parameters, for every caller that holds a slice and a number. The place may be any: past the payload's end both are refused there.

pub fn read_uvarint(payload: &[u8], at: usize) -> Result<(u64, usize), Refusal>
    ensures { varint_answer result ≡ varint_of payload.now at }
{
    varint::uvarint(payload, at)
}

// A body's first byte and the place after it.
pub fn read_body(payload: &[u8], at: usize, size: usize) -> Result<(usize, usize), Refusal>
    ensures { result ≡ body_of payload.now at size }
{
    if payload.len() < at {
        return Err(Reason::EndInItem.at(at));
    }
    if payload.len() - at < size {
        return Err(Reason::EndInItem.at(at));
    }
    Ok((at, at + size))
}
