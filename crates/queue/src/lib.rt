// The nodes that wait for one side of a search: those that have its label and that no side has taken. They are kept in a tournament
// (crate `least`) with one number for each node, so that the one with the least key is at hand without a look at the others. The
// number of a node that waits is a code of its key and of itself: numbers compare as keys, and among equal keys as node numbers.
#![tactic(auto)]

ghost use Rattle.std.specs.Prelude.{◌≡◌, ◌<◌, ◌%◌};
ghost use Rattle.std.specs.Int.Signed.{mag};
ghost use Rattle.network.specs.Network.{most_nodes};
ghost use Rattle.least.specs.Tournament.{Putting, Tournament};
ghost use Rattle.steps.specs.Steps.{meant};
ghost use Rattle.queue.specs.Code.{code, key_in, raise};
ghost use Rattle.queue.specs.Queue.{BegunQueue, Entered, LeftQueue, Spacious, next_in};

use steps::Candidate;

// What a key is raised by, so that no code is below 0: every key is less than this, with either sign.
const RAISE: i64 = 1 << 40;

// The most nodes, as a factor of codes.
const NODES: u64 = network::MOST_NODES as u64;

// The code of a node and its key. It is a bare number and has no type of its own, since the lists of `least` hold numbers and
// compare them.
#[tactic(auto, using(crate::specs::CodeLaws::up_is, crate::specs::CodeLaws::code_is, network::specs::Shift::low_mag))]
fn encode(waiting: Candidate) -> u64
    requires { mag waiting.key < raise }
    ensures { result ≡ code waiting.key waiting.node }
{
    (waiting.key + RAISE).cast_unsigned() * NODES + u64::from(waiting.node)
}

// The node and the key of a code.
#[tactic(auto, unfolding(crate::specs::Code::key_in))]
fn decode(x: u64) -> Candidate
    ensures node { result.node ≡ x % most_nodes }
    ensures key { result.key ≡ key_in x }
{
    Candidate {
        node: (x % NODES) as u16,
        key: (x / NODES).cast_signed() - RAISE,
    }
}

// At the beginning one node waits, the side's source, with label 0.
pub fn begin_queue(queue: &mut [u64], v: u16, potential: i32)
    requires { Spacious queue.old v }
    ensures { BegunQueue v potential queue.old queue.new }
{
    least::clear(queue);
    enter(queue, v, 0, potential);
}

// Node v waits with a label: a first one, or a lower one than before.
pub fn enter(queue: &mut [u64], v: u16, label: u32, potential: i32)
    requires { Putting queue.old v }
    ensures { Entered v label potential queue.old queue.new }
{
    let x = encode(Candidate {
        node: v,
        key: steps::key(label, potential),
    });
    least::put(queue, usize::from(v), x);
}

// Node v does not wait any more, whether it did or not.
pub fn leave(queue: &mut [u64], v: u16)
    requires { Putting queue.old v }
    ensures { LeftQueue v queue.old queue.new }
{
    least::put(queue, usize::from(v), least::NO_NUMBER);
}

// The node with the least key, the lowest number among equals, or none if no node waits.
#[tactic(auto, unfolding(crate::specs::Code::meaning))]
pub fn next_node(queue: &[u64]) -> Option<Candidate>
    requires { Tournament queue.now }
    ensures { meant result ≡ next_in queue.now }
{
    let x = least::least(queue);
    if x == least::NO_NUMBER {
        return None;
    }
    Some(decode(x))
}
