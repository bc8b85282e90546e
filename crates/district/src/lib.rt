// A district file, byte by byte (docs/RULES.md, "Input order"). A small reader goes by value from step to step, and the lists
// that hold the line and the network are lent to each step and kept between them. A query is answered as soon as its line
// ends. What a file is answered is defined in specs/File.antt; each step here does what that definition says.
#![tactic(auto)]

ghost use Rattle.std.specs.Prelude.{◌≡◌, false, ◌≤◌, length, Some, take};
ghost use Rattle.network.specs.Lists.{network_of};
ghost use Rattle.index.specs.Lists.{SameIndex};
ghost use Rattle.frames.specs.Frame.{most_digits, frame_of};
ghost use Rattle.district.specs.File.{take_byte, take_frame};
ghost use Rattle.district.specs.Reader.{start_reader, file_of, network_read, Kept, Stepped, Held, Reached, Ended};
ghost use Rattle.district.specs.Lists.{lists_held, SameFileLists};
ghost use Rattle.district.specs.Inner.{NotLast, SteppedLine, ends_line, owes_by};

mod answer;
mod frame;

use frames::Frame;
use index::IndexLists;
use network::{Cause, NetworkLists, Potentials};

// The line with this number is 11, sound or not.
const LAST_LINE: u32 = 4294967295;

const LINE_FEED: u8 = 10;

// The most nodes, as the length of a list.
const MOST_NODES: usize = network::MOST_NODES as usize;

// The most bytes of an answer: a route's line, and the line of a path over as many nodes as there can be.
pub const MOST_BYTES: usize = 31 + 3 + 4 * MOST_NODES;

// Where a file stands: the line that is being read and how many bytes of it there are, whether one query only may stand in it,
// whether it goes on, what its 01 stated (no nodes while the 01 is owed), how many arcs and potentials were read, what the
// network itself is refused for (known once its last potentials are read), and whether a query was answered. The flags, the 0 that
// stands for no nodes yet and the bytes of the line, beside which the line is lent, are fields that the definitions read one by one
// (`file_of` of specs/Reader.antt), and that callers write: so no fact about a reader stands in its type.
#[derive(Clone, Copy)]
pub struct Reader {
    pub line: u32,
    pub held: usize,
    pub single: bool,
    pub going: bool,
    pub nodes: u16,
    pub arcs: usize,
    pub arcs_read: usize,
    pub nodes_read: usize,
    pub verdict: Result<(), Cause>,
    pub asked: bool,
}

// The lists that hold a file's line and its network, beside its index.
#[derive(Drop)]
pub struct FileLists<'a> {
    pub line: &'a mut [u8],
    pub tails: &'a mut [u16],
    pub heads: &'a mut [u16],
    pub weights: &'a mut [u32],
    pub forward: &'a mut [i32],
    pub backward: &'a mut [i32],
}

impl FileLists<'_> {
    // The frame that the line of a reader spells, if it is sound.
    fn frame(&self, reader: Reader) -> Option<Frame>
        requires { reader.held ≤ length self.now.line.now }
        ensures { result ≡ frame_of (take reader.held self.now.line.now) }
    {
        frames::decode(&self.line[..reader.held])
    }

    // The network that a reader counts in them, to be looked at.
    fn network(&self, reader: Reader) -> NetworkLists<'_>
        requires { (reader.arcs_read ≤ length self.now.tails.now) × (reader.arcs_read ≤ length self.now.heads.now) × (reader.arcs_read ≤ length self.now.weights.now) }
        ensures { network_of result ≡ network_read reader self.now.tails.now self.now.heads.now self.now.weights.now }
    {
        let arcs = reader.arcs_read;
        NetworkLists {
            nodes: reader.nodes,
            tails: &self.tails[..arcs],
            heads: &self.heads[..arcs],
            weights: &self.weights[..arcs],
        }
    }

    // The potentials that a reader counts in them, to be looked at.
    fn potentials(&self, reader: Reader) -> Potentials<'_>
        requires { (reader.nodes_read ≤ length self.now.forward.now) × (reader.nodes_read ≤ length self.now.backward.now) }
        ensures forward { result.forward.now ≡ take reader.nodes_read self.now.forward.now }
        ensures backward { result.backward.now ≡ take reader.nodes_read self.now.backward.now }
    {
        let nodes = reader.nodes_read;
        Potentials {
            forward: &self.forward[..nodes],
            backward: &self.backward[..nodes],
        }
    }
}

// The reader after a step, and how many bytes of the room the step wrote.
#[derive(Clone, Copy)]
pub struct Taken {
    pub reader: Reader,
    pub written: usize,
}

// A reader of a file of which nothing is read; its first line has this number.
#[tactic(auto, unfolding(crate::specs::Reader::start_reader))]
pub fn start(single: bool, line: u32) -> Reader
    ensures { result ≡ start_reader single line }
{
    Reader {
        line,
        held: 0,
        single,
        going: true,
        nodes: 0,
        arcs: 0,
        arcs_read: 0,
        nodes_read: 0,
        verdict: Ok(()),
        asked: false,
    }
}

// Whether a byte ends a line whose frame is taken: a line feed, in a file that goes on, after any line but 4,294,967,295.
#[tactic(auto, unfolding(crate::specs::Inner::ends_line))]
fn ends_line(reader: Reader, byte: u8) -> bool
    ensures { result ≡ ends_line reader byte }
{
    reader.going && byte == LINE_FEED && reader.line < LAST_LINE
}

// A byte that ends no such line: the line holds it, or is refused, being too long or line 4,294,967,295. Where a refusal has
// ended the file nothing happens.
#[tactic(auto, using(crate::specs::ReaderLaws::over_line, crate::specs::ReaderLaws::over_as, crate::specs::ReaderLaws::last_line_byte, crate::specs::ReaderLaws::byte_too_many))]
fn hold_byte(reader: Reader, byte: u8, line: &mut [u8], room: &mut [u8]) -> Taken
    requires { (ends_line reader byte ≡ false) × (most_digits ≤ length line.old) }
    ensures { SteppedLine (λ f. take_byte f byte) reader result line.old line.new room.old room.new }
{
    if !reader.going {
        return Taken { reader, written: 0 };
    }
    if byte == LINE_FEED {
        return frame::refuse(reader, Cause::MisplacedLine(LAST_LINE), room);
    }
    let at = reader.held;
    if frames::MOST_DIGITS <= at {
        return frame::refuse_broken(reader, room);
    }
    line[at] = byte;
    Taken {
        reader: Reader {
            held: at + 1,
            ..reader
        },
        written: 0,
    }
}

// A sound frame, taken where the reader's counts say: the 01 first, then arcs, then potentials, then queries.
#[tactic(auto, using(crate::specs::ReaderLaws::stepped_as, crate::specs::ReaderLaws::where_size_owed, crate::specs::ReaderLaws::where_arcs_owed, crate::specs::ReaderLaws::where_potentials_owed, crate::specs::ReaderLaws::where_none_owed))]
fn take_frame(
    reader: Reader,
    frame: Frame,
    lists: &mut FileLists,
    held: &mut IndexLists<&mut [u16]>,
    room: &mut [u8],
) -> Taken
    requires not_last { NotLast reader }
    requires kept { Kept reader (lists_held lists.old held.old) }
    requires frame_value { Some frame ≡ frame_of (take reader.held lists.old.line.now) }
    ensures stepped { Stepped
        (take_frame (file_of reader (lists_held lists.old held.old)) (Some frame))
        result
        (lists_held lists.old held.old)
        (lists_held lists.new held.new)
        room.old
        room.new }
    ensures same_lists { SameFileLists lists.old lists.new }
    ensures same_index { SameIndex held.old held.new }
{
    if reader.nodes == 0 {
        return frame::take_size(reader, frame, room);
    }
    if reader.arcs_read < reader.arcs {
        return frame::take_arcs(reader, frame, lists, room);
    }
    if reader.nodes_read < reader.nodes as usize {
        return frame::take_potentials(reader, frame, lists, held, room);
    }
    answer::take_query(reader, frame, lists, held.shown(), room)
}

// The next byte of a file. A line feed ends the line, whose frame is taken where it stands: the 01 first, then arcs, then
// potentials, then queries; what it prints is placed at the front of the room. A line with more bytes than any input frame has
// digits is refused at once. Where a refusal has ended the file nothing happens.
#[tactic(auto, using(crate::specs::ReaderLaws::line_ends))]
pub fn take_byte(
    reader: Reader,
    byte: u8,
    lists: &mut FileLists,
    held: &mut IndexLists<&mut [u16]>,
    room: &mut [u8],
) -> Taken
    requires { Kept reader (lists_held lists.old held.old) }
    ensures stepped { Stepped
        (take_byte (file_of reader (lists_held lists.old held.old)) byte)
        result
        (lists_held lists.old held.old)
        (lists_held lists.new held.new)
        room.old
        room.new }
    ensures same_lists { SameFileLists lists.old lists.new }
    ensures same_index { SameIndex held.old held.new }
{
    if !ends_line(reader, byte) {
        return hold_byte(reader, byte, lists.line, room);
    }
    let Some(frame) = lists.frame(reader) else {
        return frame::refuse(reader, Cause::UnsoundLine(reader.line), room);
    };
    take_frame(reader, frame, lists, held, room)
}

// Holds the bytes at the front of some that end no line and find room in it, as `take_byte` would, one after the other; how many
// they are, which the reader then counts in `held` too. It stops at a line feed, and where the line is full.
pub fn hold(reader: Reader, bytes: &[u8], line: &mut [u8]) -> usize
    requires reached { Reached reader }
    requires line_long { most_digits ≤ length line.old }
    ensures { Held reader result bytes.now line.old line.new }
{
    if !reader.going {
        return 0;
    }
    let at = reader.held;
    for (n, &byte) in bytes.iter().enumerate() {
        if byte == LINE_FEED || frames::MOST_DIGITS <= at + n {
            return n;
        }
        line[at + n] = byte;
    }
    bytes.len()
}

// Whether a frame is still owed: the 01, arcs, potentials or a query.
#[tactic(auto, unfolding(crate::specs::Inner::owes_by))]
fn owes(reader: Reader) -> bool
    ensures { result ≡ owes_by reader }
{
    reader.nodes == 0
        || reader.arcs_read < reader.arcs
        || reader.nodes_read < reader.nodes as usize
        || !reader.asked
}

// The end of input: inside a line it is 10; at the start of a line it is 11 there where a frame is owed, and nothing else.
#[tactic(auto, using(crate::specs::ReaderLaws::end_of_ended, crate::specs::ReaderLaws::end_in_line, crate::specs::ReaderLaws::end_owing, crate::specs::ReaderLaws::end_of_whole, frames::specs::RoomLaws::nothing_placed))]
pub fn end_of_input(reader: Reader, room: &mut [u8]) -> usize
    requires { Reached reader }
    ensures { Ended reader room.old room.new result }
{
    if !reader.going {
        return 0;
    }
    if reader.held != 0 {
        return frame::refuse_broken(reader, room).written;
    }
    if owes(reader) {
        return frame::refuse(reader, Cause::MisplacedLine(reader.line), room).written;
    }
    0
}
