// One source after another.
ghost use Rattle.std.specs.Prelude.{◌≡◌};
ghost use Rattle.kallsyms.specs.Joins.{joined_lines, joined_end};
ghost use Rattle.kallsyms.specs.Goodness.{good_joined};

use crate::ends::Fault;
use crate::source::{LINE_LEN, LineSource};

/// The lines of a first source and, if that ends clean, those of a second.
#[derive(Drop)]
pub struct Joined<A, B> {
    first: A,
    second: B,
}

impl<A, B> Joined<A, B> {
    /// The second source after the first.
    pub fn new(first: A, second: B) -> Self
        ensures first { result.first ≡ first }
        ensures second { result.second ≡ second }
    {
        Joined { first, second }
    }
}

impl<A: LineSource, B: LineSource> LineSource for Joined<A, B> {
    ghost lines = { λ s. joined_lines (A.LineSource.lines s.first) (A.LineSource.end s.first) (B.LineSource.lines s.second) };

    ghost end = { λ s. joined_end (A.LineSource.end s.first) (B.LineSource.end s.second) };

    ghost good = { λ s. good_joined (A.LineSource.lines s.first) (A.LineSource.end s.first) (B.LineSource.lines s.second) (A.LineSource.good s.first) (B.LineSource.good s.second) };

    fn next(&mut self, buffer: &mut [u8; LINE_LEN]) -> Result<Option<usize>, Fault> {
        match self.first.next(buffer)? {
            Some(len) => Ok(Some(len)),
            None => self.second.next(buffer),
        }
    }
}
