use kallsyms::ends::Fault;
use model::refusal::{Call, Named, Reason, Refusal};
use model::rows::Span;
use std::test::Fail;

#[test]
fn refusals_with_rows_are_written(rt: HostRuntime) -> Result<(), Fail> {
    let section = Refusal {
        call: Call::Collect,
        reason: Reason::InvalidStringOffset {
            of: Named::Section(3),
        },
    };
    let text = format!(in rt.alloc(); "{section}")?;
    assert_eq!(rt;
        text.as_str(),
        "collect_ksyms_from_btf: refused 4 InvalidStringOffset, type 3"
    );
    let relocation = Refusal {
        call: Call::Relocate,
        reason: Reason::UnknownSymbol { row: 12 },
    };
    let text = format!(in rt.alloc(); "{relocation}")?;
    assert_eq!(rt;
        text.as_str(),
        "relocate_externs: refused 18 UnknownSymbol, relocation 12"
    );
    Ok(())
}

#[test]
fn two_addresses_are_written(rt: HostRuntime) -> Result<(), Fail> {
    let refusal = Refusal {
        call: Call::Resolve,
        reason: Reason::AmbiguousResolution {
            row: 0,
            name: Span { start: 1, len: 6 },
            line: 4,
            first_addr: 160,
            second_addr: 176,
        },
    };
    let text = format!(in rt.alloc(); "{refusal}")?;
    assert_eq!(rt;
        text.as_str(),
        "resolve_externs: refused 16 AmbiguousResolution, extern 0, 0x00000000000000a0 and on line 4 0x00000000000000b0"
    );
    Ok(())
}

#[test]
fn faults_are_written(rt: HostRuntime) -> Result<(), Fail> {
    let refusal = Refusal {
        call: Call::Resolve,
        reason: Reason::KallsymsAccessError {
            fault: Fault::LineTooLong { line: 7 },
        },
    };
    let text = format!(in rt.alloc(); "{refusal}")?;
    assert_eq!(rt;
        text.as_str(),
        "resolve_externs: refused 14 KallsymsAccessError, line 7 has more than 1024 bytes"
    );
    Ok(())
}

#[test]
fn refusals_without_values_are_written(rt: HostRuntime) -> Result<(), Fail> {
    let room = Refusal {
        call: Call::Fixup,
        reason: Reason::NoRoom,
    };
    let text = format!(in rt.alloc(); "{room}")?;
    assert_eq!(rt; text.as_str(), "fixup_ksyms_datasec: refused 8 NoRoom");
    let memory = Refusal {
        call: Call::Collect,
        reason: Reason::OutOfMemory,
    };
    let text = format!(in rt.alloc(); "{memory}")?;
    assert_eq!(rt; text.as_str(), "collect_ksyms_from_btf: OutOfMemory");
    Ok(())
}
