// Refusals for people.
ghost use Rattle.std.specs.Prelude.{◌≡◌, Some};
ghost use Rattle.model.specs.Texts.{call_name, reason_name, named_text, reason_text, refusal_text};

use crate::refusal::{Call, Named, Reason, Refusal};
use std::fmt;
use texts::hex::Hex;

// Not by Debug: a derive prints `Collect`, and promises nothing of what it prints.
impl Call {
    /// The name of the call.
    pub fn name(self) -> &'static str
        ensures { result.now ≡ call_name self }
    {
        match self {
            Call::Collect => "collect_ksyms_from_btf",
            Call::Resolve => "resolve_externs",
            Call::Fixup => "fixup_ksyms_datasec",
            Call::Relocate => "relocate_externs",
        }
    }
}

// Not by Debug: a derive prints the fields too, and promises nothing of what it prints.
impl Reason {
    /// The name of the reason.
    pub fn name(self) -> &'static str
        ensures { result.now ≡ reason_name self }
    {
        match self {
            Reason::InvalidTable => "InvalidTable",
            Reason::UnknownBtfType { .. } => "UnknownBtfType",
            Reason::InvalidDatasec { .. } => "InvalidDatasec",
            Reason::InvalidStringOffset { .. } => "InvalidStringOffset",
            Reason::InvalidSymbolName { .. } => "InvalidSymbolName",
            Reason::MaximumTypeDepthReached { .. } => "MaximumTypeDepthReached",
            Reason::DuplicateName { .. } => "DuplicateName",
            Reason::NoRoom => "NoRoom",
            Reason::TypedKsymRequiresKernelBtf { .. } => "TypedKsymRequiresKernelBtf",
            Reason::FunctionNotFound { .. } => "FunctionNotFound",
            Reason::IncompatibleFunctionSignature { .. } => "IncompatibleFunctionSignature",
            Reason::VariableNotFound { .. } => "VariableNotFound",
            Reason::IncompatibleVariableType { .. } => "IncompatibleVariableType",
            Reason::KallsymsAccessError { .. } => "KallsymsAccessError",
            Reason::KallsymsParseError { .. } => "KallsymsParseError",
            Reason::AmbiguousResolution { .. } => "AmbiguousResolution",
            Reason::InvalidRelocationOffset { .. } => "InvalidRelocationOffset",
            Reason::UnknownSymbol { .. } => "UnknownSymbol",
            Reason::ExternNotFound { .. } => "ExternNotFound",
            Reason::ExternWithoutId { .. } => "ExternWithoutId",
            Reason::UnresolvableSymbol { .. } => "UnresolvableSymbol",
            Reason::OutOfMemory => "OutOfMemory",
        }
    }
}

impl fmt::Display for Named {
    ghost output = { λ n. Some (named_text n) };

    fn fmt<W: fmt::Write>(&self, f: &mut fmt::Formatter<W>) -> fmt::Result {
        match *self {
            Named::Section(row) => write!(f, "type {row}"),
            Named::Entry(row) => write!(f, "entry {row}"),
        }
    }
}

/// The name of the reason, and its values.
impl fmt::Display for Reason {
    ghost output = { λ r. Some (reason_text r) };

    fn fmt<W: fmt::Write>(&self, f: &mut fmt::Formatter<W>) -> fmt::Result {
        let name = self.name();
        match *self {
            Reason::InvalidTable | Reason::NoRoom | Reason::OutOfMemory => write!(f, "{name}"),
            Reason::InvalidStringOffset { of } => write!(f, "{name}, {of}"),
            Reason::UnknownBtfType { row }
            | Reason::InvalidDatasec { row }
            | Reason::InvalidSymbolName { row }
            | Reason::MaximumTypeDepthReached { row }
            | Reason::DuplicateName { row } => write!(f, "{name}, entry {row}"),
            Reason::TypedKsymRequiresKernelBtf { row }
            | Reason::FunctionNotFound { row, .. }
            | Reason::IncompatibleFunctionSignature { row, .. }
            | Reason::VariableNotFound { row, .. }
            | Reason::IncompatibleVariableType { row, .. } => write!(f, "{name}, extern {row}"),
            Reason::KallsymsAccessError { fault } => write!(f, "{name}, {fault}"),
            Reason::KallsymsParseError { row, line } => {
                write!(f, "{name}, extern {row}, line {line}")
            }
            Reason::AmbiguousResolution {
                row,
                line,
                first_addr,
                second_addr,
                ..
            } => {
                let first = Hex(first_addr);
                let second = Hex(second_addr);
                write!(
                    f,
                    "{name}, extern {row}, {first} and on line {line} {second}"
                )
            }
            Reason::InvalidRelocationOffset { row }
            | Reason::UnknownSymbol { row }
            | Reason::ExternNotFound { row, .. }
            | Reason::ExternWithoutId { row, .. }
            | Reason::UnresolvableSymbol { row, .. } => write!(f, "{name}, relocation {row}"),
        }
    }
}

/// The call, the number and the name of the reason, and its values.
impl fmt::Display for Refusal {
    ghost output = { λ r. Some (refusal_text r) };

    fn fmt<W: fmt::Write>(&self, f: &mut fmt::Formatter<W>) -> fmt::Result {
        let call = self.call.name();
        let reason = self.reason;
        match reason.number() {
            Some(number) => write!(f, "{call}: refused {number} {reason}"),
            None => write!(f, "{call}: {reason}"),
        }
    }
}
