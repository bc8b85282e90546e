// The answer for the unit's display (docs/RULES.md, "The display"), which is written in C: `display_c` exports it.
// The display hands over the bytes of a district file with one query and the room for the answer, and gets back how many bytes
// were written. The contract says the room and the count for every file and every room. What the lines say is settled by
// `district`, byte by byte; here they are gathered, and put into the room if they all fit.
#![tactic(auto)]

ghost use Rattle.std.specs.Prelude.{◌+◌, ◌≤◌, length};
ghost use Rattle.frames.specs.Room.{Placed, Laid};
ghost use Rattle.district.specs.File.{display_answer};
ghost use Rattle.district.specs.Reader.{most_bytes, refusal_bytes, Roomy};
ghost use Rattle.district.specs.Lists.{lists_held};

use district::FileLists;
use index::IndexLists;

// The entries of the lists that hold the potentials, and where each node's arcs begin in the index: as lengths of lists.
const NODES: usize = network::MOST_NODES as usize;

const BEGINS: usize = NODES + 1;

// The bytes of a refusal's line.
const REFUSAL_BYTES: usize = 13;

// A text at the front of the room where it fits; else 0, and the room stays as it was. A 0 and no None: so the entry answers C.
#[tactic(auto, using(frames::specs::RoomLaws::too_little_room), unfolding(frames::specs::Room::laid, frames::specs::Room::placed, frames::specs::Room::counted))]
fn place(text: &[u8], room: &mut [u8]) -> usize
    ensures { Placed text.now room.old room.new result }
{
    if room.len() < text.len() {
        return 0;
    }
    room[..text.len()].copy_from_slice(text);
    text.len()
}

// The answer of a file with one query, gathered in a text that always suffices: each answer line starts where the line before
// it ended. The bytes of an input line are held at once, and then the one that ends it is taken. Bytes after a file refusal are
// not looked at. Where the next answer line starts is counted, since that count is what is returned.
#[tactic(auto, using(district::specs::HoldLaws::held_few))]
fn gather(
    file: &[u8],
    mut lists: FileLists,
    mut index: IndexLists<&mut [u16]>,
    text: &mut [u8],
) -> usize
    requires { Roomy (lists_held lists index) × (most_bytes + refusal_bytes ≤ length text.old) }
    ensures { Laid (display_answer file.now) text.old text.new result }
{
    let mut reader = district::start(true, 1);
    let mut at = 0;
    let mut rest = file;
    while reader.going {
        let n = district::hold(reader, rest, lists.line);
        reader.held += n;
        let Some((&byte, left)) = rest[n..].split_first() else {
            break;
        };
        let taken = district::take_byte(reader, byte, &mut lists, &mut index, &mut text[at..]);
        reader = taken.reader;
        at += taken.written;
        rest = left;
    }
    let last = district::end_of_input(reader, &mut text[at..]);
    at + last
}

// The answer lines of the file, each starting where the line before it ended; 0, and the room unchanged, where they do not fit.
#[tactic(auto, using(crate::specs::GatherLaws::display_bytes, district::specs::QueryLaws::laid_front, district::specs::QueryLaws::placed_as))]
pub fn display_answer(file: &[u8], room: &mut [u8]) -> usize
    ensures { Placed (display_answer file.now) room.old room.new result }
{
    let mut line = [0u8; frames::MOST_DIGITS];
    let mut tails = [0u16; network::MOST_ARCS];
    let mut heads = [0u16; network::MOST_ARCS];
    let mut weights = [0u32; network::MOST_ARCS];
    let mut out_arcs = [0u16; network::MOST_ARCS];
    let mut out_begins = [0u16; BEGINS];
    let mut in_arcs = [0u16; network::MOST_ARCS];
    let mut in_begins = [0u16; BEGINS];
    let mut forward = [0i32; NODES];
    let mut backward = [0i32; NODES];
    let mut text = [0u8; district::MOST_BYTES + REFUSAL_BYTES];
    let lists = FileLists {
        line: &mut line,
        tails: &mut tails,
        heads: &mut heads,
        weights: &mut weights,
        forward: &mut forward,
        backward: &mut backward,
    };
    let index = IndexLists {
        out_arcs: &mut out_arcs[..],
        out_begins: &mut out_begins[..],
        in_arcs: &mut in_arcs[..],
        in_begins: &mut in_begins[..],
    };
    let n = gather(file, lists, index, &mut text);
    place(&text[..n], room)
}
