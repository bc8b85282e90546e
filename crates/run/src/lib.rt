// The turns of a search (docs/RULES.md, "The search, turn by turn"), one after the other, from the beginning to the end or to the
// last turn of a cap, on lists with exactly one entry a node. The pattern says whose turn it is; a turn is made by
// `turn::side_turn` on the lists of that side, with its own way of the index. The two queues of waiting nodes are lists of the
// search itself.
#![tactic(auto)]

ghost use Rattle.std.specs.Prelude.{◌≡◌, ◌+◌, ◌≤◌, ◌<◌, ◌^◌};
ghost use Rattle.network.specs.Lists.{query_asked};
ghost use Rattle.index.specs.Lists.{index_of};
ghost use Rattle.tables.specs.Sides.{SameLists};
ghost use Rattle.run.specs.Run.{Beginning, FirstProgress, Foreseen, QueueRoom, Searchable, StoppedAt, Taking, swapped_of, turn_of};
ghost use Rattle.run.specs.Sides.{LongIn, QueuesAt, standing_in};

use cap::Course;
use index::IndexLists;
use network::QueryLists;
use tables::SideLists;
use turn::{Best, Progress, View};

// The entries that a queue of 128 nodes has: a district of no more nodes is small.
const FEW_ENTRIES: usize = 2 * 128 - 1;

// The entries that a queue of the most nodes has.
const MOST_ENTRIES: usize = 2 * network::MOST_NODES as usize - 1;

// Where a search stopped, and whether it is over: at its end, or at a cap before it. Both are read by themselves: the progress is
// the same either way, so that a kind for each would hold it twice.
#[derive(Clone, Copy)]
pub struct Stop {
    pub progress: Progress,
    pub over: bool,
}

// The progress seen from the other side.
fn swapped(p: Progress) -> Progress
    ensures { result ≡ swapped_of p }
{
    Progress {
        floor: p.beyond,
        beyond: p.floor,
        own: p.other,
        other: p.own,
        ..p
    }
}

// The labels of a side, to be looked at. In a function of its own, so that the check knows after the turn that they are as they
// were.
fn labels_of<'a>(side: &'a SideLists) -> &'a [u32]
    ensures { result.now ≡ side.now.labels.now }
{
    side.labels
}

// Turn number `turns`, of the side that the repeated pattern names: `a` is what the start side takes if it is its turn, `b`
// what the end side takes. The lists stand side by side: a query and its index are two values, since one index serves many queries,
// and of a struct that holds lent structs of lists a caller is not told what became of them.
fn next_turn(
    query: QueryLists,
    held: IndexLists<&[u16]>,
    start_side: &mut SideLists,
    end_side: &mut SideLists,
    states: &mut [u8],
    start_queue: &mut [u64],
    end_queue: &mut [u64],
    turns: usize,
    a: u16,
    b: u16,
    p: Progress,
) -> Progress
    requires searchable { Searchable (query_asked query) (index_of held) }
    requires long { LongIn query.network.nodes start_side.old end_side.old states.old }
    requires queues { QueuesAt (query_asked query) start_side.old end_side.old states.old start_queue.old end_queue.old }
    requires taking { Taking (query_asked query) (standing_in start_side.old end_side.old states.old p) a b p }
    ensures start_lists { SameLists start_side.old start_side.new }
    ensures end_lists { SameLists end_side.old end_side.new }
    ensures turned { standing_in start_side.new end_side.new states.new result ≡ turn_of (query_asked query.entry) turns (standing_in start_side.old end_side.old states.old p) }
    ensures known { Foreseen (query_asked query.entry) (standing_in start_side.new end_side.new states.new result) result }
    ensures queued { QueuesAt (query_asked query.entry) start_side.new end_side.new states.new start_queue.new end_queue.new }
{
    // Two views and no function for both: what is common to them is the weights alone.
    let network = query.network;
    let potentials = query.potentials;
    let at = turns % query.pattern.len();
    if query.pattern[at] == 0 {
        let view = View {
            near: network.tails,
            far: network.heads,
            weights: network.weights,
            arcs: held.out_arcs,
            begins: held.out_begins,
            own: potentials.forward,
            other: potentials.backward,
            target: query.end,
            opened: tables::OPENED_BY_START,
        };
        return turn::side_turn(
            view,
            start_side,
            labels_of(end_side),
            states,
            start_queue,
            end_queue,
            a,
            p,
        );
    }
    let view = View {
        near: network.heads,
        far: network.tails,
        weights: network.weights,
        arcs: held.in_arcs,
        begins: held.in_begins,
        own: potentials.backward,
        other: potentials.forward,
        target: query.start,
        opened: tables::OPENED_BY_END,
    };
    swapped(turn::side_turn(
        view,
        end_side,
        labels_of(start_side),
        states,
        end_queue,
        start_queue,
        b,
        swapped(p),
    ))
}

// Step 1, but for the tables: each side has its source in its queue, there is no best length, each floor is the source's
// potential, and the queues know what each side takes first.
fn begin_queues(query: QueryLists, start_queue: &mut [u64], end_queue: &mut [u64]) -> Progress
    requires start_beginning { Beginning query.network.nodes query.potentials.forward.now query.start start_queue.old }
    requires end_beginning { Beginning query.network.nodes query.potentials.backward.now query.end end_queue.old }
    ensures { FirstProgress query.entry.network.nodes query.entry.potentials.forward.now query.entry.potentials.backward.now query.entry.start query.entry.end start_queue.new end_queue.new result }
{
    let first = query.potentials.forward[query.start as usize];
    let beyond = query.potentials.backward[query.end as usize];
    queue::begin_queue(start_queue, query.start, first);
    queue::begin_queue(end_queue, query.end, beyond);
    Progress {
        best: Best {
            length: steps::MISSING,
            node: tables::NO_NODE,
        },
        floor: first as i64,
        beyond: beyond as i64,
        own: queue::next_node(start_queue),
        other: queue::next_node(end_queue),
    }
}

// The search as far as a cap, with lists for the two queues. Start equal to end is a route of length 0 with the tables as at the
// beginning, at any cap. Otherwise turns are made until a side has no labelled undecided node, which is after at most as many
// turns as there are nodes, or until the turns of the cap are used up.
fn make_turns(
    query: QueryLists,
    held: IndexLists<&[u16]>,
    cap: usize,
    start_side: &mut SideLists,
    end_side: &mut SideLists,
    states: &mut [u8],
    start_queue: &mut [u64],
    end_queue: &mut [u64],
) -> Stop
    requires searchable { Searchable (query_asked query) (index_of held) }
    requires long { LongIn query.network.nodes start_side.old end_side.old states.old }
    requires start_room { QueueRoom query.network.nodes start_queue.old }
    requires end_room { QueueRoom query.network.nodes end_queue.old }
    ensures start_lists { SameLists start_side.old start_side.new }
    ensures end_lists { SameLists end_side.old end_side.new }
    ensures stopped { StoppedAt (query_asked query.entry) cap (standing_in start_side.new end_side.new states.new result.progress) result }
{
    tables::begin(query.start, query.end, start_side, end_side, states);
    let mut p = begin_queues(query, start_queue, end_queue);
    if query.start == query.end {
        p.best = Best {
            length: 0,
            node: query.start,
        };
        return Stop {
            progress: p,
            over: true,
        };
    }
    // Counted by hand and not by a range to the cap: after its last turn it is asked once more whether the search is over.
    let mut turns: usize = 0;
    let over = 'turns: loop {
        match cap::next(p.own, p.other, turns, cap) {
            Course::Turn(a, b) => {
                p = next_turn(
                    query,
                    held,
                    start_side,
                    end_side,
                    states,
                    start_queue,
                    end_queue,
                    turns,
                    a,
                    b,
                    p,
                );
                turns += 1;
            }
            Course::Ended => break 'turns true,
            Course::UsedUp => break 'turns false,
        }
    };
    Stop { progress: p, over }
}

// The search as far as a cap, with lists of so many entries for its two queues. Of either only as many entries as the nodes need
// are lent and cleared.
fn find_with<const ENTRIES: usize>(
    query: QueryLists,
    held: IndexLists<&[u16]>,
    cap: usize,
    start_side: &mut SideLists,
    end_side: &mut SideLists,
    states: &mut [u8],
) -> Stop
    requires searchable { Searchable (query_asked query) (index_of held) }
    requires long { LongIn query.network.nodes start_side.old end_side.old states.old }
    requires room { (query.network.nodes + query.network.nodes ≤ ENTRIES + 1) × (ENTRIES < 2 ^ 16) }
    ensures start_lists { SameLists start_side.old start_side.new }
    ensures end_lists { SameLists end_side.old end_side.new }
    ensures stopped { StoppedAt (query_asked query.entry) cap (standing_in start_side.new end_side.new states.new result.progress) result }
{
    let room = 2 * states.len() - 1;
    let mut start_queue = [0u64; ENTRIES];
    let mut end_queue = [0u64; ENTRIES];
    make_turns(
        query,
        held,
        cap,
        start_side,
        end_side,
        states,
        &mut start_queue[..room],
        &mut end_queue[..room],
    )
}

// The search as far as a cap. The lists for the two queues are its own and have one of two lengths, so that a small district does
// not pay for the beginning of what the largest needs.
pub fn find(
    query: QueryLists,
    held: IndexLists<&[u16]>,
    cap: usize,
    start_side: &mut SideLists,
    end_side: &mut SideLists,
    states: &mut [u8],
) -> Stop
    requires searchable { Searchable (query_asked query) (index_of held) }
    requires long { LongIn query.network.nodes start_side.old end_side.old states.old }
    ensures start_lists { SameLists start_side.old start_side.new }
    ensures end_lists { SameLists end_side.old end_side.new }
    ensures stopped { StoppedAt (query_asked query.entry) cap (standing_in start_side.new end_side.new states.new result.progress) result }
{
    if 2 * states.len() - 1 <= FEW_ENTRIES {
        find_with::<FEW_ENTRIES>(query, held, cap, start_side, end_side, states)
    } else {
        find_with::<MOST_ENTRIES>(query, held, cap, start_side, end_side, states)
    }
}
