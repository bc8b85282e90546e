// One turn of the search (docs/RULES.md, "The search, turn by turn"), seen from the side whose turn it is. What needs the network
// is handed it as that side sees it, with tails and heads exchanged for the end side and its own way of the index, and every
// function is handed the side's own lists before the other side's labels, so that one text serves both sides. Each side has the
// nodes that wait for it in a queue (crate `queue`): no turn looks at all nodes or at all arcs.
#![tactic(auto)]

ghost use Rattle.std.specs.Prelude.{◌≡◌, ◌<◌, ◌^◌, length};
ghost use Rattle.std.specs.Int.Signed.{mag};
ghost use Rattle.network.specs.Network.{start};
ghost use Rattle.nba.specs.Why.ByMark.{label_by_mark, look_each_by_mark};
ghost use Rattle.nba.specs.Search.{arcs_of};
ghost use Rattle.queue.specs.Queue.{QueueOf};
ghost use Rattle.tables.specs.Sides.{SameLists};
ghost use Rattle.turn.specs.Turn.{Ahead};
ghost use Rattle.turn.specs.Views.{MatchedIn, OpenableIn, QueuesIn, network_seen, reach_in, taken_in, took_in};

use steps::{Candidate, UNDECIDED};
use tables::SideLists;

// The network as one side sees it. For each arc: the node where the side enters it, the node to which it takes the side, and its
// weight. For each node: its arcs, by the side's own way of the index, and its potential, the side's own and the other side's.
// And the other side's source, and the state of a node that the side opens.
#[derive(Clone, Copy)]
pub struct View<'a> {
    pub near: &'a [u16],
    pub far: &'a [u16],
    pub weights: &'a [u32],
    pub arcs: &'a [u16],
    pub begins: &'a [u16],
    pub own: &'a [i32],
    pub other: &'a [i32],
    pub target: u16,
    pub opened: u8,
}

// The best length so far and the meeting node. A missing one is a number and no None: the state of a search that `nba` defines
// has a mark for it, which is above all sums, so that a sum is compared with it as it is.
#[derive(Clone, Copy)]
pub struct Best {
    pub length: u32,
    pub node: u16,
}

// Node v gets label l and neighbour u; a lower sum of its two labels becomes the best length.
#[tactic(auto, using(std::proofs::lemmas::List::get_or_default), unfolding(nba::specs::Why::ByMark::label_by_mark))]
fn label_node(lists: &mut SideLists, theirs: &[u32], u: u16, v: u16, l: u32, best: Best) -> Best
    requires { (v < length lists.old.labels.now) × (v < length lists.old.neighbours.now) × (v < length theirs.now) }
    ensures same { SameLists lists.old lists.new }
    ensures labelled { reach_in lists.new result ≡ label_by_mark theirs.now u v l (reach_in lists.old best) }
{
    let i = v as usize;
    lists.labels[i] = l;
    lists.neighbours[i] = u;
    let sum = l as u64 + theirs[i] as u64;
    if sum < best.length as u64 {
        Best {
            length: sum as u32,
            node: v,
        }
    } else {
        best
    }
}

// Step 5: the arcs of u, in number order: they are u's part of the index. One to a node that has left and one that gives
// no lower label are passed over. A node that gets a label waits with it.
fn open_node(
    view: View,
    lists: &mut SideLists,
    theirs: &[u32],
    states: &[u8],
    own_queue: &mut [u64],
    u: u16,
    so_far: Best,
) -> Best
    requires openable { OpenableIn view lists.old theirs.now states.now u }
    requires matched { MatchedIn view lists.old theirs.now states.now }
    requires queue_of { QueueOf lists.old.labels.now states.now view.own.now own_queue.old }
    ensures same { SameLists lists.old lists.new }
    ensures looked { reach_in lists.new result ≡ look_each_by_mark start (network_seen (length lists.old.labels.now) view.entry) theirs.now states.now u (arcs_of start (network_seen (length lists.old.labels.now) view.entry) u) (reach_in lists.old so_far) }
    ensures queued { QueueOf lists.new.labels.now states.now view.entry.own.now own_queue.new }
{
    let mut best = so_far;
    let from = u as usize;
    let begin = view.begins[from] as usize;
    let to = view.begins[from + 1] as usize;
    'arcs: for &arc in &view.arcs[begin..to] {
        let a = arc as usize;
        let v = view.far[a];
        let i = v as usize;
        if states[i] != UNDECIDED {
            continue 'arcs;
        }
        let l = lists.labels[from] as u64 + view.weights[a] as u64;
        if lists.labels[i] as u64 <= l {
            continue 'arcs;
        }
        best = label_node(lists, theirs, u, v, l as u32, best);
        queue::enter(own_queue, v, l as u32, view.own[i]);
    }
    best
}

// Node u leaves the undecided set for good: it waits for neither side any more, and it is rejected, or opened with its arcs
// looked at. The queues stand beside the lists of the sides: they are lists of the search's own and none of its caller's.
fn take_node(
    view: View,
    lists: &mut SideLists,
    theirs: &[u32],
    states: &mut [u8],
    own_queue: &mut [u64],
    other_queue: &mut [u64],
    u: u16,
    floor: i64,
    best: Best,
) -> Best
    requires openable { OpenableIn view lists.old theirs.now states.old u }
    requires matched { MatchedIn view lists.old theirs.now states.old }
    requires queues { QueuesIn view lists.old theirs.now states.old own_queue.old other_queue.old }
    requires in_range { (view.target < length view.own.now) × (mag floor < 2 ^ 40) × (0 < view.opened) × (view.opened < 255) }
    ensures same { SameLists lists.old lists.new }
    ensures taken { took_in lists.new states.new result ≡ taken_in view.entry theirs.now u floor (took_in lists.old states.old best) }
    ensures queued { QueuesIn view.entry lists.new theirs.now states.new own_queue.new other_queue.new }
{
    queue::leave(own_queue, u);
    queue::leave(other_queue, u);
    let i = u as usize;
    if steps::reject(
        best.length,
        lists.labels[i],
        view.own[i],
        view.own[view.target as usize],
        floor,
        view.other[i],
    ) {
        states[i] = view.opened + 1;
        return best;
    }
    states[i] = view.opened;
    open_node(view, lists, theirs, states, own_queue, u, best)
}

// Where a search stands, seen from one side: the best length and the meeting node, the side's own floor and the other
// side's, and what each takes next.
#[derive(Clone, Copy)]
pub struct Progress {
    pub best: Best,
    pub floor: i64,
    pub beyond: i64,
    pub own: Option<Candidate>,
    pub other: Option<Candidate>,
}

// A whole turn of the side: node u, its candidate, is taken, and the queues know what both sides take next.
#[tactic(auto, using(queue::specs::LeastLaws::next_is_least))]
pub fn side_turn(
    view: View,
    lists: &mut SideLists,
    theirs: &[u32],
    states: &mut [u8],
    own_queue: &mut [u64],
    other_queue: &mut [u64],
    u: u16,
    p: Progress,
) -> Progress
    requires openable { OpenableIn view lists.old theirs.now states.old u }
    requires matched { MatchedIn view lists.old theirs.now states.old }
    requires queues { QueuesIn view lists.old theirs.now states.old own_queue.old other_queue.old }
    requires in_range { (view.target < length view.own.now) × (mag p.beyond < 2 ^ 40) × (0 < view.opened) × (view.opened < 255) × (mag p.floor < 2 ^ 40) }
    ensures same { SameLists lists.old lists.new }
    ensures tables { took_in lists.new states.new result.best ≡ taken_in view.entry theirs.now u p.beyond (took_in lists.old states.old p.best) }
    ensures ahead { Ahead lists.new.labels.now view.entry.own.now theirs.now view.entry.other.now states.new p result }
    ensures queued { QueuesIn view.entry lists.new theirs.now states.new own_queue.new other_queue.new }
{
    let best = take_node(
        view,
        lists,
        theirs,
        states,
        own_queue,
        other_queue,
        u,
        p.beyond,
        p.best,
    );
    let own = queue::next_node(own_queue);
    Progress {
        best,
        floor: steps::floor_after(p.floor, own),
        beyond: p.beyond,
        own,
        other: queue::next_node(other_queue),
    }
}
