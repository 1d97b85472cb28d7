// The records that reader, writer and house check share. The definition of the payload stands in specs/.
#![tactic(auto, unfolding(crate::specs::Tables::capacities_of))]

ghost use Rattle.std.specs.Prelude.{◌≡◌};
ghost use Rattle.refusal.specs.Answer.{answer_of};
ghost use Rattle.payload.specs.Answers.{program_of, read_fields};
ghost use Rattle.payload.specs.Rows.{row_width};
ghost use Rattle.payload.specs.Shapes.{depth_limit};
ghost use Rattle.payload.specs.Tables.{capacities_of, limits, size_limit};

use refusal::Refusal;

// Where a part of a store stands: its offset and its length.
#[derive(Clone, Copy)]
pub struct Extent {
    pub offset: usize,
    pub length: usize,
}

// How many rows, spans, strings and starts there is room for.
#[derive(Clone, Copy)]
pub struct Capacities {
    pub rows: usize,
    pub spans: usize,
    pub strings: usize,
    pub starts: usize,
}

// What a read or a check that is accepted answers: bytes consumed, used rows, spans, starts and strings, and where the line index's name stands, if there is one.
#[derive(Clone, Copy)]
pub struct Counts {
    pub consumed: usize,
    pub rows: usize,
    pub spans: usize,
    pub starts: usize,
    pub strings: usize,
    pub name: Option<Extent>,
}

// A program held in lent tables: how many rows, spans and starts are used, the line flag, and the line index's name in the store. Flag and name are three words and no
// `Option`, since they are document 01's, which a host lends: any word may stand there, and soundness tests it.
#[derive(Clone, Copy)]
pub struct Program {
    pub rows: usize,
    pub spans: usize,
    pub starts: usize,
    pub flag: u64,
    pub name_o: usize,
    pub name_n: usize,
}

// A program in tables that are lent to their last used words: the store in which its parts stand, its rows, spans and starts, the line flag, and the line index's
// name in the store, as in `Program`.
#[derive(Clone, Copy)]
pub struct Tables<'a> {
    pub store: &'a [u8],
    pub rows: &'a [u64],
    pub spans: &'a [u64],
    pub starts: &'a [u32],
    pub flag: u64,
    pub name_o: usize,
    pub name_n: usize,
}

impl Program {
    // The most entries of each table.
    pub const ROWS: usize = 1_048_576;

    pub const SPANS: usize = 16_777_216;

    pub const STARTS: usize = 1_048_576;

    pub const STRINGS: usize = 1_048_576;

    // How deep values stand in values.
    pub const DEPTH: usize = 32;

    // The words of a row.
    pub const ROW_WIDTH: usize = 5;

    // The most bytes of a payload, text, store or writing.
    pub const SIZE: usize = 16_777_216;

    // The program of no rows, which a caller fills in with the counts of its tables. The contract also says that the constants above are the definitions' limits.
    pub fn empty() -> Self
        ensures value { result ≡ record { rows = 0; spans = 0; starts = 0; flag = 0; name_o = 0; name_n = 0 } }
        ensures limits_value { limits
            ≡ record { rows = Program.ROWS; spans = Program.SPANS; strings = Program.STRINGS; starts = Program.STARTS } }
        ensures other_limits { (size_limit ≡ Program.SIZE) × (row_width ≡ Program.ROW_WIDTH) × (depth_limit ≡ Program.DEPTH) }
    {
        Program {
            rows: 0,
            spans: 0,
            starts: 0,
            flag: 0,
            name_o: 0,
            name_n: 0,
        }
    }
}

impl Program {
    ghost use Rattle.payload.specs.Write.{program_of_words};

    // The program whose record has these words, a missing word being 0.
    pub fn of_words(words: &[u64]) -> Self
        ensures { result ≡ program_of_words words.now }
    {
        let word = |k: usize| words.get(k).copied().unwrap_or(0);
        Program {
            rows: word(0) as usize,
            spans: word(1) as usize,
            starts: word(2) as usize,
            flag: word(3),
            name_o: word(4) as usize,
            name_n: word(5) as usize,
        }
    }
}

impl Program {
    ghost use Rattle.std.specs.Prelude.{◌*◌, ◌≤◌, length};
    ghost use Rattle.payload.specs.Held.{tables_in};
    ghost use Rattle.payload.specs.Write.{held_tables};

    // The program in the tables that hold it, each lent to its last used word.
    #[tactic(auto, unfolding(crate::specs::Write::held_tables))]
    pub fn in_tables<'a>(
        self,
        store: &'a [u8],
        rows: &'a [u64],
        spans: &'a [u64],
        starts: &'a [u32],
    ) -> Tables<'a>
        requires { (row_width * self.rows ≤ length rows.now) × (2 * self.spans ≤ length spans.now) × (self.starts ≤ length starts.now) }
        ensures { tables_in result ≡ held_tables store.now self rows.now spans.now starts.now }
    {
        let row_words = Program::ROW_WIDTH * self.rows;
        let span_words = 2 * self.spans;
        Tables {
            store,
            rows: &rows[..row_words],
            spans: &spans[..span_words],
            starts: &starts[..self.starts],
            flag: self.flag,
            name_o: self.name_o,
            name_n: self.name_n,
        }
    }
}

// The capacity of a lent table of so many words: the whole entries, or the limit if fewer.
pub fn row_capacity(words: usize) -> usize
    ensures { result ≡ (capacities_of words 0 0 0).rows }
{
    (words / Program::ROW_WIDTH).min(Program::ROWS)
}

pub fn span_capacity(words: usize) -> usize
    ensures { result ≡ (capacities_of 0 words 0 0).spans }
{
    (words / 2).min(Program::SPANS)
}

pub fn start_capacity(words: usize) -> usize
    ensures { result ≡ (capacities_of 0 0 words 0).starts }
{
    words.min(Program::STARTS)
}

pub fn string_capacity(words: usize) -> usize
    ensures { result ≡ (capacities_of 0 0 0 words).strings }
{
    (words / 2).min(Program::STRINGS)
}

// The program that a read left in the tables.
impl From<Counts> for Program {
    ghost from_gives = { λ counts program. program ≡ program_of counts };

    fn from(counts: Counts) -> Program {
        let name = counts.name.unwrap_or(Extent {
            offset: 0,
            length: 0,
        });
        Program {
            rows: counts.rows,
            spans: counts.spans,
            starts: counts.starts,
            flag: counts.name.is_some() as u64,
            name_o: name.offset,
            name_n: name.length,
        }
    }
}

// The fields of the answer of a read or a check: 0, bytes consumed, rows, spans, starts, strings, line flag, the name's offset and length; or number and place.
pub fn read_fields(answer: Result<Counts, Refusal>) -> [u64; 9]
    ensures { result ≡ read_fields (answer_of answer) }
{
    match answer {
        Ok(counts) => {
            let program = Program::from(counts);
            [
                0,
                counts.consumed as u64,
                counts.rows as u64,
                counts.spans as u64,
                counts.starts as u64,
                counts.strings as u64,
                program.flag,
                program.name_o as u64,
                program.name_n as u64,
            ]
        }
        Err(refusal) => {
            let number = u64::from(refusal.reason);
            [number, refusal.place as u64, 0, 0, 0, 0, 0, 0, 0]
        }
    }
}

impl Capacities {
    // The capacities of lent tables of so many words each.
    pub fn of(rows: usize, spans: usize, starts: usize, pool: usize) -> Self
        ensures { result ≡ capacities_of rows spans starts pool }
    {
        Capacities {
            rows: row_capacity(rows),
            spans: span_capacity(spans),
            strings: string_capacity(pool),
            starts: start_capacity(starts),
        }
    }
}
