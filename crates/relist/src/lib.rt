// One arc gets another near node, and one way of an index becomes what `listing::list_arcs` would make it afresh. Only the
// entries between the arc's old place and its new one are shifted, and only the begins of the nodes between change.
#![tactic(auto)]

ghost use Rattle.std.specs.Prelude.{◌≡◌, ◌+◌, ◌<◌, ◌≤◌, length, get_or, set};
ghost use Rattle.std.specs.List.{insert, remove};
ghost use Rattle.listing.specs.Listing.{Listable, Listed};
ghost use Rattle.relist.specs.Inner.{ArcMoved, BelowFirst, FirstNotBelow, HasBefore, HasPart, HasRoom};

// The place of arc a in node w's part: before the first arc there that is not below it.
fn place_in(arcs: &[u16], begins: &[u16], w: usize, a: u16) -> usize
    requires part { HasPart arcs.now begins.now w }
    requires below_first { BelowFirst arcs.now (get_or begins.now w 0) (get_or begins.now (w + 1) 0) a }
    ensures { FirstNotBelow arcs.now (get_or begins.now w 0) (get_or begins.now (w + 1) 0) a result }
{
    let from = begins[w] as usize;
    let to = begins[w + 1] as usize;
    from + arcs[from..to].partition_point(|&b| b < a)
}

// Entry p becomes entry q, and the entries between are shifted by one place towards p.
fn shift(arcs: &mut [u16], p: usize, q: usize)
    requires { (p < length arcs.old) × (q < length arcs.old) }
    ensures { arcs.new ≡ insert (remove arcs.old p) q (get_or arcs.old p 0) }
{
    if p < q {
        arcs[p..=q].rotate_left(1);
    } else {
        arcs[q..=p].rotate_right(1);
    }
}

// An arc moves from node u to node v: the parts of the nodes after the earlier one of the two, up to the other, begin one earlier
// if that is v, and one later if it is u.
fn move_begins(begins: &mut [u16], u: usize, v: usize)
    requires before { HasBefore u v begins.old }
    requires room { HasRoom u v begins.old }
    ensures { ArcMoved u v begins.old begins.new }
{
    for begin in begins[u.min(v) + 1..=u.max(v)].iter_mut() {
        if u < v {
            *begin -= 1;
        } else {
            *begin += 1;
        }
    }
}

// The lists hold the listing of the near nodes as they are, and then that with arc a's near node changed to `node`. The near nodes
// themselves are the caller's to write. If the node is the same, no entry is written. The lists of a way are lent one by one, as to
// `listing`: no other function here is lent all of them.
pub fn relist(near: &[u16], nodes: u16, arcs: &mut [u16], begins: &mut [u16], a: u16, node: u16)
    requires listable { Listable near.now nodes }
    requires listed { Listed near.now nodes arcs.old begins.old arcs.old begins.old }
    requires a_in_bounds { (a < length near.now) × (node < nodes) }
    ensures { Listed (set near.now a node) nodes arcs.old begins.old arcs.new begins.new }
{
    let u = near[a as usize] as usize;
    let v = node as usize;
    if u == v {
        return;
    }
    let p = place_in(arcs, begins, u, a);
    // Without the arc, which stood before it, a later node's part begins one earlier.
    let q = place_in(arcs, begins, v, a) - usize::from(u < v);
    shift(arcs, p, q);
    move_begins(begins, u, v);
}
