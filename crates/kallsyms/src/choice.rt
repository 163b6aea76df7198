// A source of one of two kinds.
ghost use Rattle.kallsyms.specs.Choices.{good_chosen};
ghost use Rattle.either.specs.Either.{either};

use crate::ends::Fault;
use crate::source::{LINE_LEN, LineSource};
pub use either::Either;

/// The lines of the source that it is.
impl<A: LineSource, B: LineSource> LineSource for Either<A, B> {
    ghost lines = { either A.LineSource.lines B.LineSource.lines };

    ghost end = { either A.LineSource.end B.LineSource.end };

    ghost good = { good_chosen A.LineSource.lines B.LineSource.lines A.LineSource.good B.LineSource.good };

    fn next(&mut self, buffer: &mut [u8; LINE_LEN]) -> Result<Option<usize>, Fault> {
        match self {
            Either::Left(a) => a.next(buffer),
            Either::Right(b) => b.next(buffer),
        }
    }
}
