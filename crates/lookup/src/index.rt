// Where the rows of names are.
ghost use Rattle.std.specs.Prelude.{◌≡◌, ◌<◌, length, IfOk};
ghost use Rattle.lookup.specs.Index.{spot_of, IsLast, Indexes};

use std::alloc::{AllocError, Global};
use std::hash::{FoldHasher, Hasher};

// The fewest spots of several names: the more spots, the more lines find none.
const FEWEST_SPOTS: usize = 64;

// Where the rows of names are: the names that have one spot follow each other, the last of them first.
#[derive(Drop)]
pub(crate) struct Index<'n> {
    pub(crate) names: &'n [String],
    // For each spot, the last name whose spot it is.
    pub(crate) last: Vec<Option<usize>>,
    // For each name, the last before it that has its spot.
    pub(crate) before: Vec<Option<usize>>,
    ghost indexes: { Indexes names.now last.items before.items },
}

// The spot of a name, of so many.
#[inline(always)]
fn spot(name: &[u8], spots: usize) -> usize
    requires { 0 < spots }
    ensures value { result ≡ spot_of spots name.now }
    ensures bound { result < spots }
{
    if spots == 1 {
        return 0;
    }
    let mut hasher = FoldHasher::default();
    hasher.write(name);
    hasher.finish() as usize & (spots - 1)
}

// How many spots these names have: one name has one, and needs no hash; of many names, two at most have one on average, which keeps the index small.
fn spots_for(names: &[String]) -> usize
    ensures { 0 < result }
{
    if names.len() <= 1 {
        1
    } else {
        (names.len() / 2).max(FEWEST_SPOTS).next_power_of_two()
    }
}

impl<'n> Index<'n> {
    // An index of these names.
    pub(crate) fn of(heap: Global, names: &'n [String]) -> Result<Index<'n>, AllocError>
        ensures { IfOk result (λ x. x.names.now ≡ names.now) }
    {
        let spots = spots_for(names);
        let mut last = vec![in heap; None; spots]?;
        let mut before = Vec::with_capacity(heap, names.len())?;
        for (i, name) in names.iter().enumerate() {
            let spot = spot(name.as_bytes(), spots);
            before.push(last[spot])?;
            last[spot] = Some(i);
        }
        Ok(Index {
            names,
            last,
            before,
        })
    }

    // The last name that has the spot of this one.
    #[inline(always)]
    pub(crate) fn last_like(&self, name: &[u8]) -> Option<usize>
        ensures { IsLast self.now.names.now (length self.now.last.items) (spot_of (length self.now.last.items) name.now) (length self.now.names.now) result }
    {
        self.last[spot(name, self.last.len())]
    }
}
