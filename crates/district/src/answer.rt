// A query of a file, answered as soon as its line is read: the work lists and the path are local, so a query leaves nothing
// behind but its lines.
ghost use Rattle.std.specs.Prelude.{◌≡◌, [], ◌∷◌, Ok, Some, take};
ghost use Rattle.network.specs.Lists.{network_of, query_asked};
ghost use Rattle.network.specs.Refusal.{first_refusal, trip_verdict};
ghost use Rattle.index.specs.Lists.{index_of};
ghost use Rattle.index.specs.Table.{indexed_verdict};
ghost use Rattle.frames.specs.Frame.{frame_of};
ghost use Rattle.frames.specs.Room.{Placed};
ghost use Rattle.district.specs.File.{work_room, query_lines, take_query};
ghost use Rattle.district.specs.Reader.{file_of, Kept, Stepped};
ghost use Rattle.district.specs.Lists.{lists_beside};
ghost use Rattle.district.specs.Inner.{NotLast, AllRead, Known};

use crate::{FileLists, MOST_NODES, Reader, Taken, frame};
use frames::Frame;
use index::IndexLists;
use network::{Cause, Lent, QueryLists};
use search::Work;

// What a query is answered before any search: 4 or 5 from its trip, and then what the network itself is refused for, which was
// found when its last potentials were read. The work lists have room for the most nodes, so no query is refused for its room.
#[tactic(auto, unfolding(network::specs::Refusal::first_refusal))]
fn verdict_on(own: Result<(), Cause>, asked: QueryLists) -> Result<(), Cause>
    ensures { result ≡ first_refusal (trip_verdict asked.entry.network.nodes asked.entry.start asked.entry.end asked.entry.pattern.now work_room ∷ own ∷ []) }
{
    let lent = Lent {
        start_labels: MOST_NODES,
        start_neighbours: MOST_NODES,
        end_labels: MOST_NODES,
        end_neighbours: MOST_NODES,
        states: MOST_NODES,
        path: MOST_NODES,
    };
    network::check_trip(
        asked.network.nodes,
        asked.start,
        asked.end,
        asked.pattern,
        lent,
    )?;
    own
}

// The lines of the answer of an accepted query that gives so many turns: it is searched, over the index that was built with the
// network and is not tested again.
fn write_found(asked: QueryLists, held: IndexLists<&[u16]>, turns: u16, room: &mut [u8]) -> usize
    requires { indexed_verdict (query_asked asked) (index_of held) work_room ≡ Ok tt }
    ensures { Placed (query_lines (Some turns) (query_asked asked.entry)) room.old room.new result }
{
    let mut work = Work {
        start_labels: &mut [0; MOST_NODES],
        start_neighbours: &mut [0; MOST_NODES],
        end_labels: &mut [0; MOST_NODES],
        end_neighbours: &mut [0; MOST_NODES],
        states: &mut [0; MOST_NODES],
        path: &mut [0; MOST_NODES],
    };
    let answer = search::search_accepted(asked, held, turns, &mut work);
    answers::write_answer(room, answer, work.path)
}

// The lines of the answer of a query that gives so many turns, on a network whose own verdict is known.
fn write_lines(
    own: Result<(), Cause>,
    asked: QueryLists,
    held: IndexLists<&[u16]>,
    turns: u16,
    room: &mut [u8],
) -> usize
    requires { Known own (network_of asked.network) (index_of held) asked.potentials.forward.now asked.potentials.backward.now }
    ensures { Placed (query_lines (Some turns) (query_asked asked.entry)) room.old room.new result }
{
    if let Err(cause) = verdict_on(own, asked) {
        return frame::write_refusal(cause, room);
    }
    write_found(asked, held, turns, room)
}

// A 04 or a 07 where a query may stand. A second one in a file that may have one only is 11. Without a cap a query gives its search
// as many turns as there are nodes, which always suffice.
#[tactic(auto, using(crate::specs::ReaderLaws::stepped_as, crate::proofs::OtherFrames::no_query, crate::specs::QueryLaws::one_too_many))]
pub fn take_query(
    reader: Reader,
    frame: Frame,
    lists: &FileLists,
    held: IndexLists<&[u16]>,
    room: &mut [u8],
) -> Taken
    requires not_last { NotLast reader }
    requires all_read { AllRead reader }
    requires kept { Kept reader (lists_beside lists.now (index_of held)) }
    requires frame_value { Some frame ≡ frame_of (take reader.held lists.now.line.now) }
    ensures { Stepped
        (take_query (file_of reader (lists_beside lists.now (index_of held.entry))) (Some frame))
        result
        (lists_beside lists.now (index_of held.entry))
        (lists_beside lists.now (index_of held.entry))
        room.old
        room.new }
{
    let Frame::Query {
        start,
        end,
        cap,
        ..
    } = frame
    else {
        return frame::refuse_frame(reader, room);
    };
    if reader.single && reader.asked {
        return frame::refuse_frame(reader, room);
    }
    let mut entries = [0u8; frames::MOST_PATTERN];
    let n = frames::pattern_of(&lists.line[..reader.held], Some(frame), &mut entries);
    let asked = QueryLists {
        network: lists.network(reader),
        potentials: lists.potentials(reader),
        start,
        end,
        pattern: &entries[..n],
    };
    let turns = cap.unwrap_or(reader.nodes);
    let written = write_lines(reader.verdict, asked, held, turns, room);
    Taken {
        reader: Reader {
            asked: true,
            ..frame::next_line(reader)
        },
        written,
    }
}
