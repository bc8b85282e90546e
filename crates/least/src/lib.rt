// The least of a list of numbers, kept while single numbers change: a tournament of minima. A lent list stands for the numbers: its
// last entries are the numbers themselves, and each entry before them is the lesser of the two below it, so that the first entry
// is the least of all. One number that changes mends the entries above it and no others.
#![tactic(auto)]

ghost use Rattle.std.specs.Prelude.{◌≡◌, length, replicate, set};
ghost use Rattle.least.specs.Tournament.{Putting, TournamentOf, Tournament, least_of, no_number, numbers_in};

// The number of a place that holds none: no other is greater. It is a number and no None, since an entry has 64 bits and stands
// among those whose least is taken: an empty place is passed over with no test of its own.
pub const NO_NUMBER: u64 = u64::MAX;

// Every entry holds no number.
pub fn clear(list: &mut [u64])
    ensures { list.new ≡ replicate (length list.old) no_number }
{
    list.fill(NO_NUMBER);
}

// Number v becomes x; if it is x already, nothing happens. The entries above it are mended one after the other, up to the first:
// each is the lesser of the one that was mended last and the one beside that.
pub fn put(list: &mut [u64], v: usize, x: u64)
    requires { Putting list.old v }
    ensures { TournamentOf (set (numbers_in list.old) v x) list.new }
{
    let mut i = list.len() / 2 + v;
    if list[i] == x {
        return;
    }
    list[i] = x;
    let mut least = x;
    // The walk goes from an entry to the one above it, half as far from the first: no pass over the list visits these alone.
    while 0 < i {
        let above = (i - 1) / 2;
        least = least.min(list[4 * above + 3 - i]);
        list[above] = least;
        i = above;
    }
}

// The least of the numbers.
pub fn least(list: &[u64]) -> u64
    requires { Tournament list.now }
    ensures { result ≡ least_of (numbers_in list.now) }
{
    list[0]
}
