// What the words of a row mean, by its tag, in tables of hexadecimal digits, one digit for a tag.
// A table is three words: the tags 0 to 15, 16 to 31, and 32 to 34. In each word the last digit is that of the lowest tag.
// The digit of tag 34 stands for every tag that no row has.
#![tactic(auto)]

ghost use Rattle.std.specs.Prelude.{◌≡◌, ◌≤◌, min, get_or};
ghost use Rattle.payload.specs.Shapes.{is_key_tag};
ghost use Rattle.row_layout.specs.Digits.{entries};
ghost use Rattle.row_layout.specs.Layout.{first_form, second_form, second_word, under_form, count_word, first_test, second_test, under_rules, used_words};
ghost use Rattle.row_layout.specs.Number.{form_number, under_number, test_number, rules_number};

pub mod row;
pub mod tags;

// How an item is written.
#[derive(Clone, Copy, Debug, PartialEq, Eq)]
pub enum Form {
    NoItem,
    Varint,
    Zigzag,
    Byte,
    EightBytes,
    FourBytes,
    Text,
    Code,
}

// How many rows are under a row: none, one, as many as its count says, twice as many, or a function and as many.
#[derive(Clone, Copy, Debug, PartialEq, Eq)]
pub enum Under {
    Nothing,
    OneRow,
    Counted,
    CountedPairs,
    Template,
}

// The test that the words of an item must pass.
#[derive(Clone, Copy, Debug, PartialEq, Eq)]
pub enum Test {
    NoItem,
    AnyWord,
    Bits32,
    Bits16,
    Byte,
    Bool,
    HandleKind,
    Scalar,
    Signed32,
    Signed16,
    Signed8,
    Text,
    Code,
}

// The rules of the rows under a row.
#[derive(Clone, Copy, Debug, PartialEq, Eq)]
pub enum Rules {
    Nothing,
    OneValue,
    Values,
    Keys,
    Pairs,
    Chunk,
    Fields,
    Template,
}

impl Form {
    // The form that a digit stands for.
    fn of(digit: u64) -> Self
        requires { digit ≤ 7 }
        ensures { form_number result ≡ digit }
    {
        match digit {
            0 => Form::NoItem,
            1 => Form::Varint,
            2 => Form::Zigzag,
            3 => Form::Byte,
            4 => Form::EightBytes,
            5 => Form::FourBytes,
            6 => Form::Text,
            _ => Form::Code,
        }
    }
}

impl Under {
    // What a digit stands for.
    fn of(digit: u64) -> Self
        requires { digit ≤ 4 }
        ensures { under_number result ≡ digit }
    {
        match digit {
            0 => Under::Nothing,
            1 => Under::OneRow,
            2 => Under::Counted,
            3 => Under::CountedPairs,
            _ => Under::Template,
        }
    }
}

impl Test {
    // The test that a digit stands for.
    fn of(digit: u64) -> Self
        requires { digit ≤ 12 }
        ensures { test_number result ≡ digit }
    {
        match digit {
            0 => Test::NoItem,
            1 => Test::AnyWord,
            2 => Test::Bits32,
            3 => Test::Bits16,
            4 => Test::Byte,
            5 => Test::Bool,
            6 => Test::HandleKind,
            7 => Test::Scalar,
            8 => Test::Signed32,
            9 => Test::Signed16,
            10 => Test::Signed8,
            11 => Test::Text,
            _ => Test::Code,
        }
    }
}

impl Rules {
    // The rules that a digit stands for.
    fn of(digit: u64) -> Self
        requires { digit ≤ 7 }
        ensures { rules_number result ≡ digit }
    {
        match digit {
            0 => Rules::Nothing,
            1 => Rules::OneValue,
            2 => Rules::Values,
            3 => Rules::Keys,
            4 => Rules::Pairs,
            5 => Rules::Chunk,
            6 => Rules::Fields,
            _ => Rules::Template,
        }
    }
}

// The digit of a tag in a table.
fn digit(tag: u64, low: u64, middle: u64, high: u64) -> u64
    ensures { result ≡ get_or (entries low middle high) (min tag 34) 0 }
{
    if tag < 16 {
        return (low >> (4 * tag)) % 16;
    }
    if tag < 32 {
        return (middle >> (4 * (tag - 16))) % 16;
    }
    if tag < 34 {
        return (high >> (4 * (tag - 32))) % 16;
    }
    (high >> 8) % 16
}

// The form of the first item.
pub fn first_form(tag: u64) -> Form
    ensures { form_number result ≡ first_form tag }
{
    let digit = digit(tag, 0x0000_0006_6613_3420, 0x0000_0152_2112_1166, 0x067);
    Form::of(digit)
}

// The form of the second item.
pub fn second_form(tag: u64) -> Form
    ensures { form_number result ≡ second_form tag }
{
    let digit = digit(tag, 0x0000_0000_1000_0000, 0x0000_0100_0000_0060, 0x000);
    Form::of(digit)
}

// The word where the second item begins.
pub fn second_word(tag: u64) -> u64
    ensures { result ≡ second_word tag }
{
    digit(tag, 0x1111_1113_3322_2221, 0x1111_1222_2222_2233, 0x133)
}

// What is under the row.
pub fn under_form(tag: u64) -> Under
    ensures { under_number result ≡ under_form tag }
{
    let digit = digit(tag, 0x3222_1110_1000_0000, 0x0000_0000_0000_0402, 0x012);
    Under::of(digit)
}

// The word of the count.
pub fn count_word(tag: u64) -> u64
    ensures { result ≡ count_word tag }
{
    digit(tag, 0x1111_1113_4322_2221, 0x1111_1322_2222_2253, 0x133)
}

// The test of the first item.
pub fn first_test(tag: u64) -> Test
    ensures { test_number result ≡ first_test tag }
{
    let digit = digit(tag, 0x0000_000b_bb74_5110, 0x0000_062a_9328_13bb, 0x0bc);
    Test::of(digit)
}

// The test of the second item.
pub fn second_test(tag: u64) -> Test
    ensures { test_number result ≡ second_test tag }
{
    let digit = digit(tag, 0x0000_0000_1000_0000, 0x0000_0100_0000_00b0, 0x000);
    Test::of(digit)
}

// The rules of the rows under the row.
pub fn under_rules(tag: u64) -> Rules
    ensures { rules_number result ≡ under_rules tag }
{
    let digit = digit(tag, 0x4322_1110_5000_0000, 0x0000_0000_0000_0706, 0x012);
    Rules::of(digit)
}

// How many of the row's words are used.
pub fn used_words(tag: u64) -> u64
    ensures { result ≡ used_words tag }
{
    digit(tag, 0x2222_1113_4322_2221, 0x1111_1322_2222_2354, 0x134)
}

// Whether a row of this tag can be a key of a set or map.
pub fn is_key_tag(tag: u64) -> bool
    ensures { result ≡ is_key_tag tag }
{
    matches!(tag, 1 | 3..=6 | 19..=24)
}
