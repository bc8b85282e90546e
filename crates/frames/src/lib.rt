// Input lines of district frames, one at a time (docs/RULES.md, "District frames"). A line of upper-case hexadecimal digits is
// decoded to the frame that it spells. This crate knows digits, fields and single lines; what may follow what is not its matter.
// A line is taken here without its line feed.
#![tactic(auto)]

ghost use Rattle.std.specs.Prelude.{◌≡◌, ◌<◌, ◌≤◌, ◌+◌, ◌^◌, length, map};
ghost use Rattle.frames.specs.Digits.{value_of, value_table, are_digits, Readable, number_at};
ghost use Rattle.frames.specs.Frame.{size_of, arc_of, potentials_of, sought_of, frame_of, pattern_of};
ghost use Rattle.frames.specs.Room.{laid, Placed};

// The value of each of the 256 bytes as an upper-case digit, 255 where it is none; 64 bytes a line.
const VALUES: [u8; 256] =
    *b"\xff\xff\xff\xff\xff\xff\xff\xff\xff\xff\xff\xff\xff\xff\xff\xff\xff\xff\xff\xff\xff\xff\xff\xff\xff\xff\xff\xff\xff\xff\xff\xff\xff\xff\xff\xff\xff\xff\xff\xff\xff\xff\xff\xff\xff\xff\xff\xff\x00\x01\x02\x03\x04\x05\x06\x07\x08\x09\xff\xff\xff\xff\xff\xff\
\xff\x0a\x0b\x0c\x0d\x0e\x0f\xff\xff\xff\xff\xff\xff\xff\xff\xff\xff\xff\xff\xff\xff\xff\xff\xff\xff\xff\xff\xff\xff\xff\xff\xff\xff\xff\xff\xff\xff\xff\xff\xff\xff\xff\xff\xff\xff\xff\xff\xff\xff\xff\xff\xff\xff\xff\xff\xff\xff\xff\xff\xff\xff\xff\xff\xff\
\xff\xff\xff\xff\xff\xff\xff\xff\xff\xff\xff\xff\xff\xff\xff\xff\xff\xff\xff\xff\xff\xff\xff\xff\xff\xff\xff\xff\xff\xff\xff\xff\xff\xff\xff\xff\xff\xff\xff\xff\xff\xff\xff\xff\xff\xff\xff\xff\xff\xff\xff\xff\xff\xff\xff\xff\xff\xff\xff\xff\xff\xff\xff\xff\
\xff\xff\xff\xff\xff\xff\xff\xff\xff\xff\xff\xff\xff\xff\xff\xff\xff\xff\xff\xff\xff\xff\xff\xff\xff\xff\xff\xff\xff\xff\xff\xff\xff\xff\xff\xff\xff\xff\xff\xff\xff\xff\xff\xff\xff\xff\xff\xff\xff\xff\xff\xff\xff\xff\xff\xff\xff\xff\xff\xff\xff\xff\xff\xff";

// The digits of a size frame, 01: its kind's and its fields'.
const SIZE_DIGITS: usize = 2 + 4 + 4;

// The digits of an arc frame, 02, and of a two-way link, 05.
const ARC_DIGITS: usize = 2 + 4 + 4 + 8;

// The digits of a potentials frame, 03.
const POTENTIALS_DIGITS: usize = 2 + 4 + 8 + 8;

// The digits of a query frame, 04, before its entries.
const QUERY_DIGITS: usize = 2 + 4 + 4 + 2;

// The digits of a capped query frame, 07, before its entries.
const CAPPED_DIGITS: usize = 2 + 4 + 4 + 4 + 2;

// The most entries that a query's line can carry: as many as two digits can say.
pub const MOST_PATTERN: usize = 255;

// The most digits that an input frame can have: a capped query with that many entries.
pub const MOST_DIGITS: usize = CAPPED_DIGITS + MOST_PATTERN;

// What a sound input line says: one case for each kind, 01, 02, 05 and 03, and one for the queries 04 and 07. A query holds its
// cap, which a 04 has not, and the length of its pattern; `pattern_of` hands out the entries.
#[derive(Clone, Copy)]
pub enum Frame {
    Size {
        nodes: u16,
        arcs: u16,
    },
    Arc {
        tail: u16,
        head: u16,
        weight: u32,
    },
    TwoWay {
        tail: u16,
        head: u16,
        weight: u32,
    },
    Potentials {
        node: u16,
        h: i32,
        k: i32,
    },
    Query {
        start: u16,
        end: u16,
        cap: Option<u16>,
        entries: u8,
    },
}

// The value of a byte. The table is laid out once for a line, and once more for the entries of a query, and lent, since each use of
// a constant lays it out anew.
fn value(table: &[u8; 256], byte: u8) -> u8
    requires { table.now ≡ value_table }
    ensures { result ≡ value_of byte }
{
    table[usize::from(byte)]
}

// Whether a line has upper-case digits and nothing else.
fn are_digits(table: &[u8; 256], line: &[u8]) -> bool
    requires { table.now ≡ value_table }
    ensures { result ≡ are_digits line.now }
{
    line.iter().all(|&byte| value(table, byte) < 16)
}

// A line of upper-case digits and nothing else, and the table that they are read by.
#[derive(Clone, Copy)]
struct DigitLine<'a> {
    table: &'a [u8; 256],
    line: &'a [u8],
    ghost readable: { Readable table.now line.now },
}

// A number of four digits fits 16 bits and one of two fits 8: the check proves it at each `as`, where `try_from` would add a
// refusal that cannot come.
impl DigitLine<'_> {
    // The number that the digits at a place of the line spell, highest first.
    fn number(self, at: usize, digits: usize) -> u32
        requires { (digits ≤ 8) × (at + digits ≤ length self.line.now) }
        ensures is { result ≡ number_at self.entry.line.now at digits }
        ensures below { result < 16 ^ digits }
    {
        let field = &self.line[at..at + digits];
        let mut n: u32 = 0;
        for &byte in field {
            n = n * 16 + u32::from(value(self.table, byte));
        }
        n
    }

    // The frame of a line of kind 01.
    #[tactic(auto, unfolding(crate::specs::Frame::size_of))]
    fn size(self) -> Option<Frame>
        ensures { result ≡ size_of self.entry.line.now }
    {
        if self.line.len() != SIZE_DIGITS {
            return None;
        }
        Some(Frame::Size {
            nodes: self.number(2, 4) as u16,
            arcs: self.number(6, 4) as u16,
        })
    }

    // The frame of a line of kind 02, or, for a yes, of kind 05, which has the same fields: a case for each would read them twice.
    #[tactic(auto, unfolding(crate::specs::Frame::arc_of))]
    fn arc(self, both: bool) -> Option<Frame>
        ensures { result ≡ arc_of both self.entry.line.now }
    {
        if self.line.len() != ARC_DIGITS {
            return None;
        }
        let tail = self.number(2, 4) as u16;
        let head = self.number(6, 4) as u16;
        let weight = self.number(10, 8);
        Some(if both {
            Frame::TwoWay { tail, head, weight }
        } else {
            Frame::Arc { tail, head, weight }
        })
    }

    // The frame of a line of kind 03.
    #[tactic(auto, using(crate::specs::SignedLaws::signed_of_cast), unfolding(crate::specs::Frame::potentials_of))]
    fn potentials(self) -> Option<Frame>
        ensures { result ≡ potentials_of self.entry.line.now }
    {
        if self.line.len() != POTENTIALS_DIGITS {
            return None;
        }
        Some(Frame::Potentials {
            node: self.number(2, 4) as u16,
            h: self.number(6, 8).cast_signed(),
            k: self.number(14, 8).cast_signed(),
        })
    }

    // The frame of a line of kind 04, or, for a yes, of kind 07, which has a cap before the pattern's length (docs/RULES.md,
    // "Capped queries"): as many digits follow the pattern's length as it says. A case for each would read the other fields twice.
    #[tactic(auto, unfolding(crate::specs::Frame::query_of, crate::specs::Frame::capped_of))]
    fn query(self, capped: bool) -> Option<Frame>
        ensures { result ≡ sought_of capped self.entry.line.now }
    {
        let fields = if capped { CAPPED_DIGITS } else { QUERY_DIGITS };
        if self.line.len() < fields {
            return None;
        }
        let entries = self.number(fields - 2, 2);
        if self.line.len() - fields != entries as usize {
            return None;
        }
        let cap = if capped {
            Some(self.number(10, 4) as u16)
        } else {
            None
        };
        Some(Frame::Query {
            start: self.number(2, 4) as u16,
            end: self.number(6, 4) as u16,
            cap,
            entries: entries as u8,
        })
    }
}

// The frame that a line of two digits or more spells, if it is sound: its kind says which fields it has.
#[tactic(auto, unfolding(crate::specs::Frame::frame_of, crate::specs::Frame::of_kind))]
fn frame_in(table: &[u8; 256], line: &[u8]) -> Option<Frame>
    requires { (table.now ≡ value_table) × (2 ≤ length line.now) }
    ensures { result ≡ frame_of line.now }
{
    if !are_digits(table, line) {
        return None;
    }
    let digits = DigitLine { table, line };
    // The kinds are the numbers by which docs/RULES.md names them, and stand here alone: an enum of them would name each once more.
    match digits.number(0, 2) {
        1 => digits.size(),
        2 => digits.arc(false),
        3 => digits.potentials(),
        4 => digits.query(false),
        5 => digits.arc(true),
        7 => digits.query(true),
        _ => None,
    }
}

// The frame that a line spells, the line taken without its line feed, or none where it is no sound frame. No frame is shorter
// than a size, and none longer than a capped query with the most entries, so such a line is not looked into.
#[tactic(auto, using(crate::specs::FrameCases::too_short, crate::specs::FrameCases::too_long), unfolding(crate::specs::Digits::value_table, crate::specs::Digits::value_of))]
pub fn decode(line: &[u8]) -> Option<Frame>
    ensures { result ≡ frame_of line.now }
{
    if line.len() < SIZE_DIGITS {
        return None;
    }
    if line.len() > MOST_DIGITS {
        return None;
    }
    let table = VALUES;
    frame_in(&table, line)
}

// The values of these bytes to the front of a list that has room for them.
fn write_entries(table: &[u8; 256], digits: &[u8], entries: &mut [u8])
    requires { (table.now ≡ value_table) × (length digits.now ≤ length entries.old) }
    ensures { entries.new ≡ laid (map value_of digits.now) entries.old }
{
    // An index, since a proof does not learn what a walk over both lists at once wrote.
    for (i, &byte) in digits.iter().enumerate() {
        entries[i] = value(table, byte);
    }
}

// The pattern of a line whose frame is known, handed to the front of a lent list, and how many entries it has. They are the
// line's last digits, whether it has a cap or not. Where the frame is no query, or the list is too short, the answer is 0 and the
// list stays as it was: a count and no option, as callers are promised.
pub fn pattern_of(line: &[u8], frame: Option<Frame>, entries: &mut [u8]) -> usize
    requires { frame ≡ frame_of line.now }
    ensures { Placed (pattern_of line.now) entries.old entries.new result }
{
    let Some(sound) = frame else {
        return 0;
    };
    let Frame::Query { entries: count, .. } = sound else {
        return 0;
    };
    let n = usize::from(count);
    if entries.len() < n {
        return 0;
    }
    let table = VALUES;
    write_entries(&table, &line[line.len() - n..], entries);
    n
}

// The same of any line.
pub fn pattern(line: &[u8], entries: &mut [u8]) -> usize
    ensures { Placed (pattern_of line.now) entries.old entries.new result }
{
    let frame = decode(line);
    pattern_of(line, frame, entries)
}
