// Steps 3, 4 and 6 of a turn (docs/RULES.md, "The search, turn by turn") on bare numbers: a node's key, the two tests by which a
// node is rejected, and the new floor. They stand by themselves, with no lists, so that a wrong step is refused in seconds.
#![tactic(auto)]

ghost use Rattle.std.specs.Prelude.{◌≡◌, ◌<◌, ◌^◌, pos, ◌+ℤ◌, ◌-ℤ◌};
ghost use Rattle.std.specs.Int.Signed.{le_z, mag};
ghost use Rattle.nba.specs.Search.{floor_after};
ghost use Rattle.steps.specs.Steps.{key_for, meant, rejects};

// A missing label, and a missing best length: a number above all others and no None, since labels stand in lent lists of 32 bits
// each.
pub const MISSING: u32 = u32::MAX;

// The state of a node that no side has taken: a number and no enum, since states stand in a lent list of bytes.
pub const UNDECIDED: u8 = 0;

// The node that a side takes next, with its key: the least label plus own potential.
#[derive(Clone, Copy)]
pub struct Candidate {
    pub node: u16,
    pub key: i64,
}

// Step 3: a node's key, its label plus the side's own potential, exact in 64 bits.
pub fn key(label: u32, potential: i32) -> i64
    ensures { result ≡ key_for label potential }
{
    i64::from(label) + i64::from(potential)
}

// A label plus another side's floor, exact in 64 bits. How small a floor is, each function that reckons with one asks: a type of its
// own for floors would be taken apart at each sum.
fn plus(label: u32, floor: i64) -> i64
    requires { mag floor < 2 ^ 40 }
    ensures { result ≡ pos label +ℤ floor }
{
    i64::from(label) + floor
}

// A sum less a potential is at least the best length.
fn reaches(best: u32, sum: i64, potential: i32) -> bool
    requires { mag sum < 2 ^ 41 }
    ensures { result ≡ le_z (pos best) (sum -ℤ potential) }
{
    i64::from(best) <= sum - i64::from(potential)
}

// Step 4: with a best length present, the node is rejected if either test says that no shorter route goes through it.
#[tactic(auto, unfolding(crate::specs::Steps::rejects))]
pub fn reject(best: u32, label: u32, own: i32, target: i32, floor: i64, theirs: i32) -> bool
    requires { mag floor < 2 ^ 40 }
    ensures { result ≡ rejects best label own target floor theirs }
{
    best < MISSING
        && (reaches(best, key(label, own), target) || reaches(best, plus(label, floor), theirs))
}

// Step 6: the floor is the key of the side's next candidate; with none it is not used any more and stays.
pub fn floor_after(floor: i64, next: Option<Candidate>) -> i64
    ensures { result ≡ floor_after floor (meant next) }
{
    next.map_or(floor, |candidate| candidate.key)
}
