// The lines of a batch: where a line ends, and its fields, an id and a name with one tab between them, by a line reader that holds
// the lent line and the place reached. Each call takes any slices and says all of its result. Its meaning is defined in specs/:
// Lines, Fields.
#![tactic(auto)]

ghost use Rattle.std.specs.Prelude.{◌≡◌, ℕ, ◌+◌, eqb, drop};
ghost use Rattle.lists.specs.Tests.{index_of};
ghost use Rattle.lines.specs.Lines.{lf};
ghost use Rattle.lines.specs.Fields.{id_byte, good_id, field_at, reader_at, taken_by, fields_of, parts_of};

pub const TAB: u8 = b'\t';

#[derive(Clone, Copy)]
pub struct LineReader<'a> {
    pub line: &'a [u8],
    pub at: usize,
}

// A field: from start up to end. Reading goes on at next: past the tab that ended it, or at the end where the line did.
#[derive(Clone, Copy)]
pub struct Stretch {
    pub start: usize,
    pub end: usize,
    pub next: usize,
}

// What reading a field answers: the field, and the reader moved past it.
#[derive(Clone, Copy)]
pub struct Taken<'a> {
    pub field: Stretch,
    pub rest: LineReader<'a>,
}

// The first field of a line, and the one after it.
#[derive(Clone, Copy)]
pub struct TwoFields {
    pub id: Stretch,
    pub name: Stretch,
}

// The index of the first byte b from `from` on, or the length; `from` itself where it is past the end.
fn find(s: &[u8], from: usize, b: u8) -> usize
    ensures { result ≡ from + index_of (λ (x : ℕ). eqb x b) (drop from s.now) }
{
    match s.get(from..) {
        Some(rest) => from + rest.iter().position(|x| *x == b).unwrap_or(rest.len()),
        None => from,
    }
}

// Where the line that goes on at `from` ends: the index of the first LF from there on, or the length; `from` itself where it is past the end.
#[tactic(auto, unfolding(crate::specs::Lines::lf))]
pub fn line_end(s: &[u8], from: usize) -> usize
    ensures { result ≡ from + index_of lf (drop from s.now) }
{
    find(s, from, b'\n')
}

// The stretch from `at` up to a tab or the end.
#[tactic(auto, using(crate::proofs::LineFields::next_past, crate::proofs::LineFields::next_at), unfolding(crate::specs::Fields::tab))]
fn stretch_at(s: &[u8], at: usize) -> Stretch
    ensures { result ≡ field_at s.now at }
{
    let end = find(s, at, TAB);
    let next = if end < s.len() { end + 1 } else { end };
    Stretch {
        start: at,
        end,
        next,
    }
}

pub fn new<'a>(line: &'a [u8]) -> LineReader<'a>
    ensures { result ≡ reader_at line.entry 0 }
{
    LineReader { line, at: 0 }
}

pub fn field<'a>(r: LineReader<'a>) -> Taken<'a>
    ensures { result ≡ taken_by r.entry }
{
    let field = stretch_at(r.line, r.at);
    Taken {
        field,
        rest: LineReader {
            line: r.line,
            at: field.next,
        },
    }
}

// The field of a line from a place on, by a reader that is made there.
pub fn field_at(line: &[u8], at: usize) -> Stretch
    ensures { result ≡ field_at line.now at }
{
    field(LineReader { line, at }).field
}

// The first two fields of a line, by one reader.
pub fn fields(line: &[u8]) -> TwoFields
    ensures { result ≡ fields_of line.now }
{
    let id = field(new(line));
    let name = field(id.rest);
    TwoFields {
        id: id.field,
        name: name.field,
    }
}

// Of a line with exactly one tab, where it is: the id stands before it, the name past it.
pub fn split(line: &[u8]) -> Option<usize>
    ensures { result ≡ parts_of line.now }
{
    let both = fields(line);
    let tab = both.id.end;
    let alone = tab < line.len() && line.len() <= both.name.end;
    alone.then_some(tab)
}

// An ASCII letter, digit or hyphen.
fn is_id_byte(b: u8) -> bool
    ensures { result ≡ id_byte b }
{
    b.is_ascii_alphanumeric() || b == b'-'
}

// Is it 1 to 32 ASCII letters, digits or hyphens?
pub fn is_id(id: &[u8]) -> bool
    ensures { result ≡ good_id id.now }
{
    (1..=32).contains(&id.len()) && id.iter().all(|b| is_id_byte(*b))
}
