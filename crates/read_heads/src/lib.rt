// The head of a row, by its class: its items, and the count of what follows them.
#![tactic(auto)]

ghost use Rattle.std.specs.Prelude.{◌≡◌, List, ℕ, ◌≤◌};
ghost use Rattle.payload.specs.Shapes.{shape};
ghost use Rattle.read_items.specs.Over.{ReadsOver};
ghost use Rattle.read_heads.specs.Class.{shape_of};
ghost use Rattle.scalar.specs.Scalar.{const_of, row, row_of};
ghost use Rattle.read_heads.specs.Scalars.{scalar_tag};
ghost use Rattle.read_heads.specs.Heads.{ReadsHead, ReadsNamed, count_head, named_head, part_head, two_words};

use cursor::Cursor;
use payload::Extent;
use read_items::items::{self, Items};
use read_items::{Cut, HINT_BASE, numbers};
use refusal::{Reason, Refusal};

// Rows that are read alike.
#[derive(Clone, Copy)]
pub enum Class {
    Empty,
    Varint(Cut),
    Byte,
    Bool,
    Char,
    Float,
    SFloat,
    Str,
    Native,
    Function,
    OneValue,
    Values,
    Keys,
    Pairs,
    Record,
    Tag,
    Closure,
    Handle,
}

// The class of a value's tag.
#[tactic(auto, using(crate::proofs::Classes::shape_class))]
pub fn class_of(tag: u64) -> Class
    requires { tag ≤ 26 }
    ensures { shape_of result ≡ shape tag }
{
    match tag {
        1 => Class::Varint(Cut::I64),
        2 => Class::Float,
        3 => Class::Bool,
        4 => Class::Byte,
        5 => Class::Char,
        6 => Class::Str,
        7 => Class::Function,
        8 => Class::Native,
        9..=11 => Class::OneValue,
        12 | 13 => Class::Values,
        14 => Class::Keys,
        15 => Class::Pairs,
        16 => Class::Record,
        17 => Class::Tag,
        18 => Class::Closure,
        19 => Class::Varint(Cut::U64),
        20 => Class::Varint(Cut::I32),
        21 => Class::Varint(Cut::U32),
        22 => Class::Varint(Cut::U16),
        23 => Class::Varint(Cut::I16),
        24 => Class::Varint(Cut::I8),
        25 => Class::SFloat,
        26 => Class::Handle,
        _ => Class::Empty,
    }
}

// A row's four words after the tag, and the count of what follows.
#[derive(Clone, Copy, Default)]
pub struct Head {
    pub a: u64,
    pub b: u64,
    pub c: u64,
    pub d: u64,
    pub count: u64,
}

impl Head {
    // Two words, and nothing that follows.
    fn of_words(a: u64, b: u64) -> Head
        ensures { result ≡ two_words a b }
    {
        Head {
            a,
            b,
            ..Head::default()
        }
    }

    // A count alone.
    fn of_count(count: u64) -> Head
        ensures { result ≡ count_head count }
    {
        Head {
            a: count,
            count,
            ..Head::default()
        }
    }

    // A string, and a count of what follows it.
    fn of_part(part: Extent, count: u64) -> Head
        ensures { result ≡ part_head part count }
    {
        Head {
            count,
            ..Head::of_words(part.offset as u64, part.length as u64)
        }
    }

    // A name, the number after it, and a count of what follows them.
    fn of_named(name: Extent, number: u64, count: u64) -> Head
        ensures { result ≡ named_head name number count }
    {
        Head {
            c: number,
            ..Head::of_part(name, count)
        }
    }
}

// A scalar: its words become one of the fourteen cases, and the case gives the row's words, bit by bit.
// Each caller names the tag, so that little is left of the way through the case.
fn scalar_head(tag: u64, a: u64, b: u64) -> Head
    requires { row_of (const_of tag a b) ≡ row tag a b }
    ensures { result ≡ two_words a b }
{
    let words = scalar::through_row(tag, a, b);
    Head::of_words(words.a, words.b)
}

// A scalar that is a varint, cut.
fn cut_head(cut: Cut, word: u64) -> Head
    requires { row_of (const_of (scalar_tag cut) word 0) ≡ row (scalar_tag cut) word 0 }
    ensures { result ≡ two_words word 0 }
{
    match cut {
        Cut::I64 => scalar_head(1, word, 0),
        Cut::U64 => scalar_head(19, word, 0),
        Cut::I32 => scalar_head(20, word, 0),
        Cut::U32 => scalar_head(21, word, 0),
        Cut::U16 => scalar_head(22, word, 0),
        Cut::I16 => scalar_head(23, word, 0),
        Cut::I8 => scalar_head(24, word, 0),
    }
}

// A native's name, which must be in the list. Its entry's first word may have a hint where it ends there.
fn read_native_head(items: &mut Items<'_>, names: &[u8]) -> Result<Head, Refusal>
    ensures { ReadsOver items.old items.new (λ c c' pool. ReadsHead c c' names.now pool (shape_of Class.Native) result) }
{
    let at = items.cursor.at;
    let pool = items.pool;
    let k = 2 * items::read_index(&mut items.cursor, pool)?;
    let o = pool[k] % HINT_BASE;
    let n = pool[k + 1] % HINT_BASE;
    if native_names::is_listed(names, items.cursor.payload, o, n, pool[k] / HINT_BASE) {
        return Ok(Head::of_words(o, n));
    }
    Err(Reason::UnlistedNative.at(at))
}

// A name, and the number after it: a function's arity, or the count of a record's fields. Inlined, as `read_under` of read_values is: with calls a function without
// constants takes a third longer.
#[inline(always)]
fn read_named(items: &mut Items<'_>) -> Result<(Extent, u64), Refusal>
    ensures { ReadsOver items.old items.new (λ c c' pool. ReadsNamed c c' pool result) }
{
    let name = items.string()?;
    let number = items.cursor.uvarint()?;
    Ok((name, number))
}

// A tag's name and variant.
fn read_tag_head(items: &mut Items<'_>) -> Result<Head, Refusal>
    ensures { (names : List ℕ) → ReadsOver items.old items.new (λ c c' pool. ReadsHead c c' names pool (shape_of Class.Tag) result) }
{
    let name = items.string()?;
    let variant = items.string()?;
    Ok(Head {
        c: variant.offset as u64,
        d: variant.length as u64,
        ..Head::of_part(name, 0)
    })
}

// What stands after a closure's template: the capture start, and the count of captured values.
pub fn read_closure_head(cursor: &mut Cursor<'_>) -> Result<Head, Refusal>
    ensures { (names pool : List ℕ) → ReadsHead cursor.old cursor.new names pool (shape_of Class.Closure) result }
{
    let start = numbers::read_cut(Cut::U16, cursor)?;
    let count = cursor.uvarint()?;
    Ok(Head {
        count,
        ..Head::of_words(start, count)
    })
}

// A handle's kind and id.
fn read_handle_head(cursor: &mut Cursor<'_>) -> Result<Head, Refusal>
    ensures { (names pool : List ℕ) → ReadsHead cursor.old cursor.new names pool (shape_of Class.Handle) result }
{
    let kind = numbers::read_handle_kind(cursor)?;
    let id = cursor.uvarint()?;
    Ok(scalar_head(26, kind, id))
}

// A field's name. One value follows.
pub fn read_field_head(items: &mut Items<'_>) -> Result<Head, Refusal>
    ensures { (names : List ℕ) → ReadsOver items.old items.new (λ c c' pool. ReadsHead c c' names pool (shape 33) result) }
{
    Ok(Head::of_part(items.string()?, 1))
}

// The head of a value's row.
pub fn read_head(class: Class, items: &mut Items<'_>, names: &[u8]) -> Result<Head, Refusal>
    ensures { ReadsOver items.old items.new (λ c c' pool. ReadsHead c c' names.now pool (shape_of class) result) }
{
    match class {
        Class::Empty => Ok(scalar_head(0, 0, 0)),
        Class::Varint(cut) => Ok(cut_head(cut, numbers::read_cut(cut, &mut items.cursor)?)),
        Class::Byte => Ok(scalar_head(4, u64::from(items.cursor.byte()?), 0)),
        Class::Bool => Ok(scalar_head(3, numbers::read_bool(&mut items.cursor)?, 0)),
        Class::Char => Ok(scalar_head(5, numbers::read_char(&mut items.cursor)?, 0)),
        Class::Float => Ok(scalar_head(2, numbers::read_float::<8>(&mut items.cursor)?, 0)),
        Class::SFloat => Ok(scalar_head(25, numbers::read_float::<4>(&mut items.cursor)?, 0)),
        Class::Str => Ok(Head::of_part(items.string()?, 0)),
        Class::Native => read_native_head(items, names),
        Class::Function => {
            let (name, arity) = read_named(items)?;
            Ok(Head::of_named(name, arity, 1))
        }
        Class::OneValue => Ok(Head {
            count: 1,
            ..Head::default()
        }),
        Class::Values | Class::Keys | Class::Pairs => Ok(Head::of_count(items.cursor.uvarint()?)),
        Class::Record => {
            let (name, count) = read_named(items)?;
            Ok(Head::of_named(name, count, count))
        }
        Class::Tag => read_tag_head(items),
        Class::Closure => read_closure_head(&mut items.cursor),
        Class::Handle => read_handle_head(&mut items.cursor),
    }
}
