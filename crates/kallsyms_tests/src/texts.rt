use kallsyms::ends::Fault;
use kallsyms::source::LineSource;
use kallsyms::text::Text;

const CLEAN: Result<Option<usize>, Fault> = Ok(None);

#[test]
fn empty_text_has_no_line(rt: HostRuntime) {
    let mut buffer = [0u8; 1024];
    let mut text = Text::new(b"");
    assert_eq!(rt; text.next(&mut buffer), CLEAN);
    assert_eq!(rt; text.next(&mut buffer), CLEAN);
}

#[test]
fn line_feeds_alone_are_empty_lines(rt: HostRuntime) {
    let mut buffer = [0u8; 1024];
    let mut text = Text::new(b"\n\n");
    assert_eq!(rt; text.next(&mut buffer), Ok(Some(0)));
    assert_eq!(rt; text.next(&mut buffer), Ok(Some(0)));
    assert_eq!(rt; text.next(&mut buffer), CLEAN);
}

#[test]
fn one_carriage_return_before_a_line_feed_is_dropped(rt: HostRuntime) {
    let mut buffer = [0u8; 1024];
    let mut text = Text::new(b"a\r\nb\r\r\n\r\n");
    assert_eq!(rt; text.next(&mut buffer), Ok(Some(1)));
    assert_eq!(rt; text.next(&mut buffer), Ok(Some(2)));
    assert_eq!(rt; buffer[1], 13);
    assert_eq!(rt; text.next(&mut buffer), Ok(Some(0)));
    assert_eq!(rt; text.next(&mut buffer), CLEAN);
}

#[test]
fn carriage_return_at_the_end_of_the_text_stays(rt: HostRuntime) {
    let mut buffer = [0u8; 1024];
    let mut text = Text::new(b"a\r");
    assert_eq!(rt; text.next(&mut buffer), Ok(Some(2)));
    assert_eq!(rt; buffer[1], 13);
    assert_eq!(rt; text.next(&mut buffer), CLEAN);
}

#[test]
fn last_piece_without_a_line_feed_is_a_line(rt: HostRuntime) {
    let mut buffer = [0u8; 1024];
    let mut text = Text::new(b"ab\nc");
    assert_eq!(rt; text.next(&mut buffer), Ok(Some(2)));
    assert_eq!(rt; text.next(&mut buffer), Ok(Some(1)));
    assert_eq!(rt; buffer[0], 99);
    assert_eq!(rt; buffer[1], 0, "zeros follow the line");
    assert_eq!(rt; text.next(&mut buffer), CLEAN);
    assert_eq!(rt; buffer[0], 99, "an end leaves the buffer");
}

#[test]
fn line_of_1024_bytes_is_the_longest(rt: HostRuntime) {
    let mut buffer = [0u8; 1024];
    assert_eq!(rt; Text::new(&[97; 1024]).next(&mut buffer), Ok(Some(1024)));
    assert_eq!(rt; buffer[1023], 97);
    let too_long = Err(Fault::LineTooLong { line: 1 });
    assert_eq!(rt; Text::new(&[97; 1025]).next(&mut buffer), too_long);
}

#[test]
fn byte_127_is_the_largest(rt: HostRuntime) {
    let mut buffer = [0u8; 1024];
    assert_eq!(rt; Text::new(&[127]).next(&mut buffer), Ok(Some(1)));
    let too_large = Err(Fault::ByteTooLarge { line: 1 });
    assert_eq!(rt; Text::new(&[128]).next(&mut buffer), too_large);
}

#[test]
fn too_long_is_looked_for_before_too_large(rt: HostRuntime) {
    let mut buffer = [0u8; 1024];
    let too_long = Err(Fault::LineTooLong { line: 1 });
    assert_eq!(rt; Text::new(&[255; 1025]).next(&mut buffer), too_long);
}

#[test]
fn fault_after_good_lines_carries_its_number_and_stays(rt: HostRuntime) {
    let mut buffer = [0u8; 1024];
    let mut text = Text::new(b"a\nb\n\xff\nc\n");
    let too_large = Err(Fault::ByteTooLarge { line: 3 });
    assert_eq!(rt; text.next(&mut buffer), Ok(Some(1)));
    assert_eq!(rt; text.next(&mut buffer), Ok(Some(1)));
    assert_eq!(rt; text.next(&mut buffer), too_large);
    assert_eq!(rt; text.next(&mut buffer), too_large);
    assert_eq!(rt; buffer[0], 98, "a fault leaves the buffer");
}
