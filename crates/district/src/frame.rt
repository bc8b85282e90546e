// One line's frame taken into a file: the 01, the arcs and the potentials, each where it is owed. A frame of another kind is
// refused there.
ghost use Rattle.std.specs.Prelude.{◌≡◌, [], ◌≤◌, ◌<◌, length, Some};
ghost use Rattle.index.specs.Lists.{index_in, SameIndex};
ghost use Rattle.frames.specs.AnswerLines.{answer_lines};
ghost use Rattle.frames.specs.Room.{Placed};
ghost use Rattle.district.specs.File.{refused, take_size, take_arcs, take_potentials, broken_line};
ghost use Rattle.district.specs.Reader.{file_of, own_verdict, Kept, Stepped};
ghost use Rattle.district.specs.Lists.{lists_held, SameFileLists};
ghost use Rattle.district.specs.Inner.{next_reader, SteppedOver, SteppedArcs, ArcPut, NotLast, ArcsOpen, Read, Indexable, index_by, NoArc};

use crate::{FileLists, LAST_LINE, Reader, Taken};
use frames::Frame;
use index::IndexLists;
use network::{Answer, Cause};

// The line of a refusal, which has no path.
pub fn write_refusal(cause: Cause, room: &mut [u8]) -> usize
    ensures { Placed (answer_lines (Answer.Refused cause) []) room.old room.new result }
{
    let no_path = [0u16; 1];
    answers::write_answer(room, Answer::Refused(cause), &no_path)
}

// A file refusal: its line, and the file does not go on.
pub fn refuse(reader: Reader, cause: Cause, room: &mut [u8]) -> Taken
    ensures { SteppedOver (λ f. refused f cause) reader result room.old room.new }
{
    let written = write_refusal(cause, room);
    Taken {
        reader: Reader {
            going: false,
            ..reader
        },
        written,
    }
}

// A sound frame that is not taken: 11.
#[tactic(auto, using(crate::specs::ReaderLaws::over_as), unfolding(crate::specs::Reader::file_of))]
pub fn refuse_frame(reader: Reader, room: &mut [u8]) -> Taken
    ensures { SteppedOver (λ f. refused f (Cause.MisplacedLine f.line)) reader result room.old room.new }
{
    refuse(reader, Cause::MisplacedLine(reader.line), room)
}

// The reader at the beginning of the next line.
#[tactic(auto, unfolding(crate::specs::Inner::next_reader))]
pub fn next_line(reader: Reader) -> Reader
    requires { NotLast reader }
    ensures { result ≡ next_reader reader }
{
    Reader {
        line: reader.line + 1,
        held: 0,
        ..reader
    }
}

// The 01: a bad node count is 1, a bad arc count is 2.
#[tactic(auto, using(crate::specs::ReaderLaws::over_as, crate::specs::TakenLaws::size_taken, crate::proofs::OtherFrames::no_size), unfolding(crate::specs::File::take_size))]
pub fn take_size(reader: Reader, frame: Frame, room: &mut [u8]) -> Taken
    requires not_last { NotLast reader }
    requires nodes_value { reader.nodes ≡ 0 }
    ensures { SteppedOver (λ f. take_size f (Some frame)) reader result room.old room.new }
{
    let Frame::Size { nodes, arcs } = frame else {
        return refuse_frame(reader, room);
    };
    if nodes == 0 || network::MOST_NODES < nodes {
        return refuse(reader, Cause::NodeCount, room);
    }
    if network::MOST_ARCS < arcs as usize {
        return refuse(reader, Cause::ArcLists, room);
    }
    Taken {
        reader: Reader {
            nodes,
            arcs: arcs as usize,
            ..next_line(reader)
        },
        written: 0,
    }
}

// An arc's entries in the three lists.
fn put_arc(lists: &mut FileLists, at: usize, tail: u16, head: u16, weight: u32)
    requires { (at < length lists.old.tails.now) × (at < length lists.old.heads.now) × (at < length lists.old.weights.now) }
    ensures put { ArcPut lists.old lists.new at tail head weight }
    ensures same { SameFileLists lists.old lists.new }
{
    lists.tails[at] = tail;
    lists.heads[at] = head;
    lists.weights[at] = weight;
}

// A 05, which gives two arcs where two are owed: the arc and then its reverse.
fn take_link(reader: Reader, frame: Frame, lists: &mut FileLists, room: &mut [u8]) -> Taken
    requires arcs_open { ArcsOpen reader lists.old }
    requires no_arc { NoArc frame }
    ensures stepped { SteppedArcs (λ f. take_arcs f (Some frame)) reader result lists.old lists.new room.old room.new }
    ensures same { SameFileLists lists.old lists.new }
{
    let Frame::TwoWay { tail, head, weight } = frame else {
        return refuse_frame(reader, room);
    };
    let at = reader.arcs_read;
    if reader.arcs - at < 2 {
        return refuse_frame(reader, room);
    }
    put_arc(lists, at, tail, head, weight);
    put_arc(lists, at + 1, head, tail, weight);
    Taken {
        reader: Reader {
            arcs_read: at + 2,
            ..next_line(reader)
        },
        written: 0,
    }
}

// A 02 or a 05 where arcs are owed.
pub fn take_arcs(reader: Reader, frame: Frame, lists: &mut FileLists, room: &mut [u8]) -> Taken
    requires { ArcsOpen reader lists.old }
    ensures stepped { SteppedArcs (λ f. take_arcs f (Some frame)) reader result lists.old lists.new room.old room.new }
    ensures same { SameFileLists lists.old lists.new }
{
    let Frame::Arc { tail, head, weight } = frame else {
        return take_link(reader, frame, lists, room);
    };
    let at = reader.arcs_read;
    put_arc(lists, at, tail, head, weight);
    Taken {
        reader: Reader {
            arcs_read: at + 1,
            ..next_line(reader)
        },
        written: 0,
    }
}

// What the network itself is refused for (7, 8 or 9). It is computed once, when the last potentials are read.
#[tactic(auto, using(crate::specs::ReaderLaws::without_potentials, crate::specs::ReaderLaws::with_all))]
fn own_verdict(reader: Reader, lists: &FileLists) -> Result<(), Cause>
    requires { Read reader lists.now }
    ensures { result ≡ own_verdict reader lists.now.tails.now lists.now.heads.now lists.now.weights.now lists.now.forward.now lists.now.backward.now }
{
    if reader.nodes_read < reader.nodes as usize {
        return Ok(());
    }
    network::check_network(lists.network(reader), lists.potentials(reader))
}

// The index of the network, which is built once: with its last potentials, and where the network itself is accepted. The build
// is not refused then: the arcs have passed, and the lists have room.
#[tactic(auto, using(crate::specs::IndexLaws::index_not_yet, crate::specs::IndexLaws::index_of_refused, crate::specs::IndexLaws::index_built))]
fn build_index(reader: Reader, lists: &FileLists, held: &mut IndexLists<&mut [u16]>)
    requires { Indexable reader lists.now.tails.now lists.now.heads.now lists.now.weights.now (index_in held.old) }
    ensures built { index_in held.new ≡ index_by reader lists.now.tails.now lists.now.heads.now lists.now.weights.now (index_in held.old) }
    ensures same { SameIndex held.old held.new }
{
    if reader.nodes_read < reader.nodes as usize || reader.verdict.is_err() {
        return;
    }
    let _ = index::build(lists.network(reader), held);
}

// A 03 where potentials are owed: those of the next node, and of no other. With the last of them the network is whole, and
// judged, and its index is built.
#[tactic(auto, using(crate::specs::ReaderLaws::stepped_as, crate::proofs::OtherFrames::no_potentials, crate::specs::TakenLaws::other_node))]
pub fn take_potentials(
    reader: Reader,
    frame: Frame,
    lists: &mut FileLists,
    held: &mut IndexLists<&mut [u16]>,
    room: &mut [u8],
) -> Taken
    requires not_last { NotLast reader }
    requires arcs_read { reader.arcs ≤ reader.arcs_read }
    requires owed { reader.nodes_read < reader.nodes }
    requires kept { Kept reader (lists_held lists.old held.old) }
    ensures stepped { Stepped
        (take_potentials (file_of reader (lists_held lists.old held.old)) (Some frame))
        result
        (lists_held lists.old held.old)
        (lists_held lists.new held.new)
        room.old
        room.new }
    ensures same_lists { SameFileLists lists.old lists.new }
    ensures same_index { SameIndex held.old held.new }
{
    let Frame::Potentials { node, h, k } = frame else {
        return refuse_frame(reader, room);
    };
    let at = reader.nodes_read;
    if node as usize != at {
        return refuse_frame(reader, room);
    }
    lists.forward[at] = h;
    lists.backward[at] = k;
    let next = Reader {
        nodes_read: at + 1,
        ..next_line(reader)
    };
    let judged = Reader {
        verdict: own_verdict(next, lists),
        ..next
    };
    build_index(judged, lists, held);
    Taken {
        reader: judged,
        written: 0,
    }
}

// A line that is too long, or that the end of input cut short: 10, but line 4,294,967,295 is 11.
#[tactic(auto, using(crate::specs::ReaderLaws::over_as), unfolding(crate::specs::File::broken_line, crate::specs::Reader::file_of))]
pub fn refuse_broken(reader: Reader, room: &mut [u8]) -> Taken
    ensures { SteppedOver broken_line reader result room.old room.new }
{
    let line = reader.line;
    if line == LAST_LINE {
        return refuse(reader, Cause::MisplacedLine(LAST_LINE), room);
    }
    refuse(reader, Cause::UnsoundLine(line), room)
}
