// Lines of district frames (docs/RULES.md, "District frames"): input lines in words, and the answer lines of a query.
use crate::show;
use frames::Frame;
use network::Answer;

// The bytes of the longest answer in district D5: a route's line, and a path's with all five nodes.
const ROOM: usize = 31 + 3 + 4 * 5;

// The answer lines of a query, as `routeline` prints them.
#[tactic(auto, unfolding(frames::specs::Room::counted))]
pub fn answer(out: &impl Print, answer: Answer, path: &[u16]) {
    let mut room = [0u8; ROOM];
    let n = answers::write_answer(&mut room, answer, path);
    let _ = out.write_all(&room[..n]);
}

// The entries of a query line's pattern.
#[tactic(auto, unfolding(frames::specs::Room::counted))]
fn pattern(out: &impl Print, line: &[u8]) {
    let mut entries = [0u8; frames::MOST_PATTERN];
    let n = frames::pattern(line, &mut entries);
    show::list(out, ", pattern", &entries[..n], n);
}

// A query line, with its cap if it has one.
fn query(out: &impl Print, line: &[u8], start: u16, end: u16, cap: Option<u16>) {
    let _ = match cap {
        None => print!(out; "04 query: {start} to {end}"),
        Some(turns) => print!(out; "07 query, cap {turns}: {start} to {end}"),
    };
    pattern(out, line);
}

// The frame that a line spells, in words.
fn line(out: &impl Print, bytes: &[u8]) {
    let Some(frame) = frames::decode(bytes) else {
        let _ = println!(out; "no sound frame");
        return;
    };
    let _ = match frame {
        Frame::Size { nodes, arcs } => println!(out; "01 size: {nodes} nodes, {arcs} arcs"),
        Frame::Arc { tail, head, weight } => {
            println!(out; "02 arc: {tail} to {head}, weight {weight}")
        }
        Frame::TwoWay { tail, head, weight } => {
            println!(out; "05 two-way link: {tail} to {head}, weight {weight}")
        }
        Frame::Potentials { node, h, k } => {
            println!(out; "03 potentials: node {node}, h {h}, k {k}")
        }
        Frame::Query {
            start,
            end,
            cap,
            ..
        } => {
            query(out, bytes, start, end, cap);
            Ok(())
        }
    };
}

// The input of docs/RULES.md, "District D5".
pub fn district(out: &impl Print) {
    line(out, b"0100050005");
    line(out, b"020000000100000001");
    line(out, b"020001000200000001");
    line(out, b"020002000300000001");
    line(out, b"020000000400000002");
    line(out, b"020004000300000002");
    line(out, b"0300000000000000000000");
    line(out, b"0300010000000000000000");
    line(out, b"0300020000000000000000");
    line(out, b"0300030000000000000000");
    line(out, b"0300040000000000000000");
    line(out, b"04000000030201");
}

// The kinds that D5 has not, a closed link in both directions and its query with a cap, 2 and the greatest; the least
// potential and the greatest; the digit `a`; and kinds of answers, which are no input.
pub fn others(out: &impl Print) {
    line(out, b"0500000001000F4240");
    line(out, b"070000000300020201");
    line(out, b"0700000003FFFF0201");
    line(out, b"03000085FD42407A02BDC0");
    line(out, b"010005000a");
    line(out, b"840000000400000003");
    line(out, b"850001");
    line(out, b"FF0900000000");
}
