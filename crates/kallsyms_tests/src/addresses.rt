use kallsyms::address::read_address;

#[test]
fn addresses_read(rt: HostRuntime) {
    assert_eq!(rt; read_address(b"+ff"), Some(255));
    assert_eq!(rt; read_address(b"fFfFfFfFfFfFfFfF"), Some(u64::MAX));
    assert_eq!(rt; read_address(b"00000000000000001"), Some(1));
    assert_eq!(rt; read_address(b"0"), Some(0));
}

#[test]
fn other_forms_do_not_read(rt: HostRuntime) {
    assert_eq!(rt; read_address(b""), None);
    assert_eq!(rt; read_address(b"+"), None);
    assert_eq!(rt; read_address(b"++1"), None);
    assert_eq!(rt; read_address(b"-0"), None);
    assert_eq!(rt; read_address(b"0xff"), None);
    assert_eq!(rt; read_address(b"1g"), None);
    assert_eq!(rt; read_address(b"10000000000000000"), None);
}
