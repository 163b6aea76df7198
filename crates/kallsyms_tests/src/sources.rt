use kallsyms::choice::Either;
use kallsyms::ends::Fault;
use kallsyms::joined::Joined;
use kallsyms::source::LineSource;
use kallsyms::text::Text;

#[test]
fn joined_reads_the_second_after_the_first(rt: HostRuntime) {
    let mut buffer = [0u8; 1024];
    let mut both = Joined::new(Text::new(b"a"), Text::new(b"bc\n\xff"));
    assert_eq!(rt; both.next(&mut buffer), Ok(Some(1)));
    assert_eq!(rt; both.next(&mut buffer), Ok(Some(2)));
    let too_large = Err(Fault::ByteTooLarge { line: 2 });
    assert_eq!(rt;
        both.next(&mut buffer),
        too_large,
        "the second's own number"
    );
}

#[test]
fn joined_stops_at_a_fault_of_the_first(rt: HostRuntime) {
    let mut buffer = [0u8; 1024];
    let mut both = Joined::new(Text::new(b"\xff\n"), Text::new(b"a"));
    let too_large = Err(Fault::ByteTooLarge { line: 1 });
    assert_eq!(rt; both.next(&mut buffer), too_large);
    assert_eq!(rt; both.next(&mut buffer), too_large);
}

#[test]
fn either_reads_the_one_that_it_is(rt: HostRuntime) {
    let mut buffer = [0u8; 1024];
    let mut left: Either<Text, Joined<Text, Text>> = Either::Left(Text::new(b"a"));
    let mut right: Either<Text, Joined<Text, Text>> = Either::Right(Joined::new(
        Text::new(b""),
        Text::new(b"bc"),
    ));
    assert_eq!(rt; left.next(&mut buffer), Ok(Some(1)));
    assert_eq!(rt; right.next(&mut buffer), Ok(Some(2)));
}
