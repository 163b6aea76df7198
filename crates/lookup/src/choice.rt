// Names of one of two kinds.
ghost use Rattle.either.specs.Either.{either};
ghost use Rattle.lookup.specs.Choice.{Holds, Alike, alike_twice, chosen_says, chosen_has};

use crate::names::{NameMap, Names};
use crate::sighting::Sighting;
use kallsyms::choice::Either;

/// The names of the one that it is.
impl<A: Names, B: Names> Names for Either<A, B> {
    ghost holds = { Holds A.Names.holds B.Names.holds };

    ghost keeps = { Alike A.Names.keeps B.Names.keeps };

    ghost kept = { alike_twice A.Names.keeps B.Names.keeps A.Names.kept B.Names.kept };

    fn unlist(&mut self) {
        match self {
            Either::Left(a) => a.unlist(),
            Either::Right(b) => b.unlist(),
        }
    }

    #[inline(always)]
    fn note(&mut self, line_number: u64, line: &[u8]) {
        match self {
            Either::Left(a) => a.note(line_number, line),
            Either::Right(b) => b.note(line_number, line),
        }
    }
}

impl<A: NameMap, B: NameMap> NameMap for Either<A, B> {
    ghost said = { either A.NameMap.said B.NameMap.said };

    ghost says = { chosen_says A.Names.holds B.Names.holds A.NameMap.said B.NameMap.said A.NameMap.says B.NameMap.says };

    ghost has = { chosen_has A.Names.keeps B.Names.keeps A.NameMap.said B.NameMap.said A.NameMap.has B.NameMap.has };

    fn said(&self, name: &[u8]) -> Option<Sighting> {
        match self {
            Either::Left(a) => a.said(name),
            Either::Right(b) => b.said(name),
        }
    }
}
