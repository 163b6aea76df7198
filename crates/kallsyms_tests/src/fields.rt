use kallsyms::fields::Fields;
use std::test::Fail;

#[test]
fn fields_have_their_places(rt: HostRuntime) -> Result<(), Fail> {
    let fields = Fields::of(b" \ta0  T\x0bcard_q\t[card]").ok_or("three fields")?;
    assert_eq!(rt; fields.address().start, 2);
    assert_eq!(rt; fields.address().bytes, b"a0".as_slice());
    assert_eq!(rt; fields.letter().start, 6);
    assert_eq!(rt; fields.letter().bytes, b"T".as_slice());
    assert_eq!(rt; fields.name().start, 8);
    assert_eq!(rt; fields.name().bytes, b"card_q".as_slice());
    Ok(())
}

#[test]
fn fewer_than_three_fields_are_none(rt: HostRuntime) {
    assert!(rt; Fields::of(b"").is_none());
    assert!(rt; Fields::of(b" \t\r").is_none());
    assert!(rt; Fields::of(b"a0 T ").is_none());
    assert!(rt; Fields::of(b"a0 T n").is_some());
}

#[test]
fn other_control_bytes_do_not_separate(rt: HostRuntime) {
    assert!(rt; Fields::of(b"a0\x08T\x0en").is_none());
    assert!(rt; Fields::of(b"a0\x0cT\x0dn").is_some());
}
