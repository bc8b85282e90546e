// The lines of an answer (docs/RULES.md, "District frames"), written into lent room. What the lines are is defined in `frames`,
// beside what the digits of a line mean to a reader; this crate puts them there, if they all fit.
#![tactic(auto)]

ghost use Rattle.std.specs.Prelude.{◌≡◌, ◌<◌, ◌≤◌, ◌+◌, ◌++◌, length, take};
ghost use Rattle.std.specs.List.{sum_by};
ghost use Rattle.network.specs.Answer.{number_of, place_of};
ghost use Rattle.frames.specs.Digits.{digit_of, digits_of};
ghost use Rattle.frames.specs.Room.{laid, Laid, Placed};
ghost use Rattle.frames.specs.AnswerLines.{path_line, answer_lines};
ghost use Rattle.answers.specs.Fields.{width_of, number_held, itself, four_digits, line_by, line_with};

use network::{Answer, Cause};

// The sixteen output digits.
const DIGITS: [u8; 16] = *b"0123456789ABCDEF";

const LINE_FEED: u8 = 10;

// The digits of a node, and the bytes that a path's line has before its nodes and after them: its kind and the line feed.
const NODE_DIGITS: usize = 4;

const PATH_BYTES: usize = 2 + 1;

// What a line says, as its first field.
#[derive(Clone, Copy)]
enum Kind {
    NoRoute = 0x80,
    Route = 0x81,
    Path = 0x82,
    Provisional = 0x84,
    Undecided = 0x85,
    Refusal = 0xFF,
}

// A field of a line: a number and the digits that it is written with. A kind has two digits, as has a refusal's number; a count
// and a node have four; a length and a place have eight.
#[derive(Clone, Copy)]
enum Field {
    Two(u8),
    Four(u16),
    Eight(u32),
}

impl Field {
    // How many digits a field has.
    fn digits(self) -> usize
        ensures { result ≡ width_of self }
    {
        match self {
            Field::Two(_) => 2,
            Field::Four(_) => 4,
            Field::Eight(_) => 8,
        }
    }

    // The number of a field.
    fn number(self) -> u32
        ensures { result ≡ number_held self }
    {
        match self {
            Field::Two(n) => u32::from(n),
            Field::Four(n) => u32::from(n),
            Field::Eight(n) => n,
        }
    }
}

// What a line holds one of after another. A trait and no `Into<Field>`: its ghost member is what the contract of a line speaks of.
trait Spelled: Copy {
    ghost use Rattle.answers.specs.declared.Field.{Field};

    ghost spells: { Self → Field };

    // The field that it is written as.
    fn field(self) -> Field
        ensures { result ≡ spells self };
}

impl Spelled for Field {
    ghost spells = { itself };

    fn field(self) -> Field {
        self
    }
}

// A node of a path.
impl Spelled for u16 {
    ghost spells = { four_digits };

    fn field(self) -> Field {
        Field::Four(self)
    }
}

// The digit of a number below 16.
fn digit(n: u8) -> u8
    requires { n < 16 }
    ensures { result ≡ digit_of n }
{
    DIGITS[usize::from(n)]
}

// The lowest digits of a field's number, highest first, at the front of the room.
fn write_field(room: &mut [u8], field: Field)
    requires { width_of field ≤ length room.old }
    ensures { room.new ≡ laid (digits_of (width_of field) (number_held field)) room.old }
{
    let mut rest = field.number();
    // An index: a walk over the room's own bytes from the back was tried, and the proof did not learn what it wrote there.
    for i in (0..field.digits()).rev() {
        room[i] = digit((rest % 16) as u8);
        rest /= 16;
    }
}

// A line: a field for each item, each where the one before it ended, and a line feed.
fn write_line<T: Spelled>(room: &mut [u8], items: &[T]) -> usize
    requires { length (line_by T.spells items.now) ≤ length room.old }
    ensures { Laid (line_by T.spells items.now) room.old room.new result }
{
    let mut at: usize = 0;
    for item in items {
        let field = item.field();
        write_field(&mut room[at..], field);
        at += field.digits();
    }
    room[at] = LINE_FEED;
    at + 1
}

// A path's line: its kind, 82, and its nodes.
fn write_path(room: &mut [u8], path: &[u16]) -> usize
    requires { length (path_line path.now) ≤ length room.old }
    ensures { Laid (path_line path.now) room.old room.new result }
{
    write_field(room, Field::Two(Kind::Path as u8));
    let at: usize = 2;
    let more = write_line(&mut room[at..], path);
    at + more
}

// How many digits these fields have.
fn digits_of_all(fields: &[Field]) -> usize
    requires { length fields.now < 16 }
    ensures { result ≡ sum_by width_of fields.now }
{
    fields.iter().map(|field| field.digits()).sum()
}

// How many bytes the line of these fields has, its line feed among them.
#[tactic(auto, using(crate::proofs::LineSteps::digits_fit, crate::proofs::LineSteps::length_fields))]
fn line_bytes(fields: &[Field]) -> usize
    requires { length fields.now < 16 }
    ensures { result ≡ length (line_with fields.now) }
{
    digits_of_all(fields) + 1
}

// A single line where it fits; else 0, and the room stays as it was.
fn place_line(room: &mut [u8], fields: &[Field]) -> usize
    requires { length fields.now < 16 }
    ensures { Placed (line_with fields.now) room.old room.new result }
{
    if room.len() < line_bytes(fields) {
        return 0;
    }
    write_line(room, fields)
}

// A line and the line of the path that an answer shows, where both fit; else 0, and the room stays as it was. The path's line
// starts where the first ended. The path shown is the first entries of the path list, as many as it has nodes, or all of them
// where there are fewer.
fn place_route(room: &mut [u8], fields: &[Field], nodes: u16, path: &[u16]) -> usize
    requires { length fields.now < 16 }
    ensures { Placed (line_with fields.now ++ path_line (take nodes path.now)) room.old room.new result }
{
    let shown = &path[..usize::from(nodes).min(path.len())];
    if room.len() < line_bytes(fields) + PATH_BYTES + NODE_DIGITS * shown.len() {
        return 0;
    }
    let at = write_line(room, fields);
    let more = write_path(&mut room[at..], shown);
    at + more
}

// The number of a refusal: its row in docs/RULES.md, "Refusal numbers". A cause has a place too, so neither is its conversion.
fn cause_number(cause: Cause) -> u8
    ensures { result ≡ number_of cause }
{
    // A match, since an enum whose cases hold an arc, a node or a line cannot carry numbers of its own.
    match cause {
        Cause::NodeCount => 1,
        Cause::ArcLists => 2,
        Cause::PotentialLists => 3,
        Cause::StartOrEnd => 4,
        Cause::Pattern => 5,
        Cause::Room => 6,
        Cause::BadArc(_) => 7,
        Cause::BadPotential(_) => 8,
        Cause::Inconsistent(_) => 9,
        Cause::UnsoundLine(_) => 10,
        Cause::MisplacedLine(_) => 11,
        Cause::NoSuchArc(_) => 19,
        Cause::WrongIndex => 20,
    }
}

// The place of a refusal: the arc, node or line that it holds, the number of an arc that is not there, or 0.
fn cause_place(cause: Cause) -> u32
    ensures { result ≡ place_of cause }
{
    match cause {
        Cause::BadArc(arc) | Cause::Inconsistent(arc) => u32::from(arc),
        Cause::BadPotential(node) => u32::from(node),
        Cause::NoSuchArc(number) => u32::from(number),
        Cause::UnsoundLine(line) | Cause::MisplacedLine(line) => line,
        Cause::NodeCount
        | Cause::ArcLists
        | Cause::PotentialLists
        | Cause::StartOrEnd
        | Cause::Pattern
        | Cause::Room
        | Cause::WrongIndex => 0,
    }
}

// The lines of an answer at the front of the room, each starting where the one before it ended, and how many bytes they
// are. Where they do not all fit, the count is 0 and the room stays as it was: docs/RULES.md promises that count, so it is no
// option.
pub fn write_answer(room: &mut [u8], answer: Answer, path: &[u16]) -> usize
    ensures { Placed (answer_lines answer path.now) room.old room.new result }
{
    match answer {
        Answer::Route {
            length,
            nodes,
            figures,
        } => place_route(
            room,
            &[
                Field::Two(Kind::Route as u8),
                Field::Eight(length),
                Field::Four(nodes),
                Field::Four(figures.turns),
                Field::Four(figures.opened_by_start),
                Field::Four(figures.opened_by_end),
                Field::Four(figures.rejected),
            ],
            nodes,
            path,
        ),
        Answer::NoRoute(figures) => place_line(
            room,
            &[
                Field::Two(Kind::NoRoute as u8),
                Field::Four(figures.turns),
                Field::Four(figures.opened_by_start),
                Field::Four(figures.opened_by_end),
                Field::Four(figures.rejected),
            ],
        ),
        Answer::Refused(cause) => place_line(
            room,
            &[
                Field::Two(Kind::Refusal as u8),
                Field::Two(cause_number(cause)),
                Field::Eight(cause_place(cause)),
            ],
        ),
        Answer::Provisional {
            length,
            excess,
            nodes,
            ..
        } => place_route(
            room,
            &[
                Field::Two(Kind::Provisional as u8),
                Field::Eight(length),
                Field::Eight(excess),
            ],
            nodes,
            path,
        ),
        Answer::Undecided(figures) => place_line(
            room,
            &[
                Field::Two(Kind::Undecided as u8),
                Field::Four(figures.turns),
            ],
        ),
    }
}
