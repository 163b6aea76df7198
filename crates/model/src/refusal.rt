// Why a call was refused.
ghost use Rattle.std.specs.Prelude.{◌≡◌};
ghost use Rattle.model.specs.Refusals.{row_of, told as told_of};

use crate::rows::Span;
use kallsyms::ends::Fault;

/// The calls on an object.
#[derive(Clone, Copy, Debug, PartialEq, Eq)]
pub enum Call {
    /// `collect_ksyms_from_btf`.
    Collect,
    /// `resolve_externs`.
    Resolve,
    /// `fixup_ksyms_datasec`.
    Fixup,
    /// `relocate_externs`.
    Relocate,
}

/// A row that should have a name.
#[derive(Clone, Copy, Debug, PartialEq, Eq)]
pub enum Named {
    /// A DataSec, by its type row.
    Section(usize),
    /// The Func or Var of an entry, by the entry's row.
    Entry(usize),
}

/// Why a call was refused; `row` is the first entry, extern or relocation that meets it, by its row,
/// and `name` the place of a name: of an extern in the type strings, of a relocation's symbol in the symbol names.
// Row and name are fields of each case: a struct around the two would only make each pattern longer.
#[derive(Clone, Copy, Debug, PartialEq, Eq)]
pub enum Reason {
    /// A table breaks a limit, an order or a span, or an object is not as collection leaves it.
    InvalidTable,
    /// An id is not a row.
    UnknownBtfType {
        row: usize,
    },
    /// An entry is neither a Func nor a Var.
    InvalidDatasec {
        row: usize,
    },
    /// A name does not read.
    InvalidStringOffset {
        of: Named,
    },
    /// No symbol has the entry's name.
    InvalidSymbolName {
        row: usize,
    },
    /// 32 rows of a chain all pass on to another.
    MaximumTypeDepthReached {
        row: usize,
    },
    /// An earlier entry has the name.
    DuplicateName {
        row: usize,
    },
    /// Externs, types, strings or header numbers do not fit.
    NoRoom,
    /// A strong typed extern, and there is no catalogue.
    TypedKsymRequiresKernelBtf {
        row: usize,
    },
    /// A strong Func has no row in the catalogue.
    FunctionNotFound {
        row: usize,
        name: Span,
    },
    /// The row of a strong Func does not fit.
    IncompatibleFunctionSignature {
        row: usize,
        name: Span,
    },
    /// A strong Var has no row in the catalogue, or a strong wanted name no nonzero address.
    VariableNotFound {
        row: usize,
        name: Span,
    },
    /// The row of a strong Var does not fit.
    IncompatibleVariableType {
        row: usize,
        name: Span,
    },
    /// A fault ended the list.
    KallsymsAccessError {
        fault: Fault,
    },
    /// The address on a line with a wanted name does not read.
    KallsymsParseError {
        row: usize,
        line: u64,
    },
    /// A wanted name has a second nonzero address.
    AmbiguousResolution {
        row: usize,
        name: Span,
        line: u64,
        first_addr: u64,
        second_addr: u64,
    },
    /// A relocation is not on a slot, its slot is neither a call nor a load, or a load has no next slot.
    InvalidRelocationOffset {
        row: usize,
    },
    /// A relocation's symbol is not known.
    UnknownSymbol {
        row: usize,
    },
    /// No extern has the symbol's name.
    ExternNotFound {
        row: usize,
        name: Span,
    },
    /// A call of an extern that is resolved without an id.
    ExternWithoutId {
        row: usize,
        name: Span,
    },
    /// A strong extern has neither an id nor an address.
    UnresolvableSymbol {
        row: usize,
        name: Span,
    },
    /// There is no memory.
    OutOfMemory,
}

/// A refusal: the call it came from, and why.
#[derive(Clone, Copy, Debug, PartialEq, Eq)]
pub struct Refusal {
    /// The call.
    pub call: Call,
    /// Why it was refused.
    pub reason: Reason,
}

/// What a refusal tells: its number, and where it has them a row, the place of a name, a line, two addresses and a fault.
#[derive(Clone, Copy, Debug, PartialEq, Eq)]
pub struct Told {
    /// The number, from 1 to 21; want of memory has none.
    // A rule of the project fixes the numbers.
    pub number: Option<u8>,
    /// The row.
    pub row: Option<usize>,
    /// The place of a name.
    pub name: Option<Span>,
    /// The line, counted from 1.
    pub line: Option<u64>,
    /// The first address and the other one.
    pub addresses: Option<(u64, u64)>,
    /// The fault that ended the list.
    pub fault: Option<Fault>,
}

impl Named {
    // The row.
    fn row(self) -> usize
        ensures { result ≡ row_of self }
    {
        match self {
            Named::Section(row) | Named::Entry(row) => row,
        }
    }
}

impl Reason {
    /// The number, from 1 to 21; want of memory has none.
    // A rule of the project fixes the numbers; they are told to people, and code matches on the reason.
    pub fn number(self) -> Option<u8>
        ensures { result ≡ (told_of self).number }
    {
        match self {
            Reason::InvalidTable => Some(1),
            Reason::UnknownBtfType { .. } => Some(2),
            Reason::InvalidDatasec { .. } => Some(3),
            Reason::InvalidStringOffset { .. } => Some(4),
            Reason::InvalidSymbolName { .. } => Some(5),
            Reason::MaximumTypeDepthReached { .. } => Some(6),
            Reason::DuplicateName { .. } => Some(7),
            Reason::NoRoom => Some(8),
            Reason::TypedKsymRequiresKernelBtf { .. } => Some(9),
            Reason::FunctionNotFound { .. } => Some(10),
            Reason::IncompatibleFunctionSignature { .. } => Some(11),
            Reason::VariableNotFound { .. } => Some(12),
            Reason::IncompatibleVariableType { .. } => Some(13),
            Reason::KallsymsAccessError { .. } => Some(14),
            Reason::KallsymsParseError { .. } => Some(15),
            Reason::AmbiguousResolution { .. } => Some(16),
            Reason::InvalidRelocationOffset { .. } => Some(17),
            Reason::UnknownSymbol { .. } => Some(18),
            Reason::ExternNotFound { .. } => Some(19),
            Reason::ExternWithoutId { .. } => Some(20),
            Reason::UnresolvableSymbol { .. } => Some(21),
            Reason::OutOfMemory => None,
        }
    }

    // The row.
    fn row(self) -> Option<usize>
        ensures { result ≡ (told_of self).row }
    {
        match self {
            Reason::InvalidTable
            | Reason::NoRoom
            | Reason::KallsymsAccessError { .. }
            | Reason::OutOfMemory => None,
            Reason::InvalidStringOffset { of } => Some(of.row()),
            Reason::UnknownBtfType { row }
            | Reason::InvalidDatasec { row }
            | Reason::InvalidSymbolName { row }
            | Reason::MaximumTypeDepthReached { row }
            | Reason::DuplicateName { row }
            | Reason::TypedKsymRequiresKernelBtf { row }
            | Reason::FunctionNotFound { row, .. }
            | Reason::IncompatibleFunctionSignature { row, .. }
            | Reason::VariableNotFound { row, .. }
            | Reason::IncompatibleVariableType { row, .. }
            | Reason::KallsymsParseError { row, .. }
            | Reason::AmbiguousResolution { row, .. }
            | Reason::InvalidRelocationOffset { row }
            | Reason::UnknownSymbol { row }
            | Reason::ExternNotFound { row, .. }
            | Reason::ExternWithoutId { row, .. }
            | Reason::UnresolvableSymbol { row, .. } => Some(row),
        }
    }

    // The place of a name.
    fn place(self) -> Option<Span>
        ensures { result ≡ (told_of self).name }
    {
        match self {
            Reason::FunctionNotFound { name, .. }
            | Reason::IncompatibleFunctionSignature { name, .. }
            | Reason::VariableNotFound { name, .. }
            | Reason::IncompatibleVariableType { name, .. }
            | Reason::AmbiguousResolution { name, .. }
            | Reason::ExternNotFound { name, .. }
            | Reason::ExternWithoutId { name, .. }
            | Reason::UnresolvableSymbol { name, .. } => Some(name),
            _ => None,
        }
    }

    /// The number and the values of the reason.
    pub fn told(self) -> Told
        ensures { result ≡ told_of self }
    {
        let told = Told {
            number: self.number(),
            row: self.row(),
            name: self.place(),
            line: None,
            addresses: None,
            fault: None,
        };
        match self {
            Reason::KallsymsAccessError { fault } => Told {
                fault: Some(fault),
                ..told
            },
            Reason::KallsymsParseError { line, .. } => Told {
                line: Some(line),
                ..told
            },
            Reason::AmbiguousResolution {
                line,
                first_addr,
                second_addr,
                ..
            } => Told {
                line: Some(line),
                addresses: Some((first_addr, second_addr)),
                ..told
            },
            _ => told,
        }
    }
}
