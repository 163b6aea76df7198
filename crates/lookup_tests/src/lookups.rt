use kallsyms::ends::Fault;
use kallsyms::text::Text;
use lookup::hashed::hashed;
use lookup::indexed::asked;
use lookup::names::NameMap;
use lookup::rows::{Rows, look_up_rows};
use lookup::scan::{look_up, unlisted};
use lookup::sighting::Sighting;
use std::test::Fail;

#[test]
fn names_are_put_into_a_map_unlisted(rt: HostRuntime) -> Result<(), Fail> {
    let names = vec![in rt.alloc();
        String::from_str(rt.alloc(), "card_q")?,
        String::from_str(rt.alloc(), "card_q")?,
    ]?;
    let sightings = unlisted(rt.alloc(), &names)?;
    assert_eq!(rt; sightings.len(), 1, "asked twice, there once");
    assert_eq!(rt;
        sightings.get(b"card_q".as_slice()).copied(),
        Some(Sighting::Unlisted)
    );
    Ok(())
}

#[test]
fn every_name_gets_what_the_lines_say(rt: HostRuntime) -> Result<(), Fail> {
    let names = vec![in rt.alloc();
        String::from_str(rt.alloc(), "a")?,
        String::from_str(rt.alloc(), "b")?,
        String::from_str(rt.alloc(), "c")?,
    ]?;
    let mut sightings = unlisted(rt.alloc(), &names)?;
    let reading = look_up(
        &mut Text::new(b"0 d a\na0 d b\nb0 d b\n\xff\na0 d c\n"),
        &mut sightings,
    );
    assert_eq!(rt; reading.lines, 3);
    assert_eq!(rt; reading.end, Err(Fault::ByteTooLarge { line: 4 }));
    assert_eq!(rt;
        sightings.get(b"a".as_slice()).copied(),
        Some(Sighting::OnlyZero { line: 1 })
    );
    let two = Sighting::TwoAddresses {
        line: 2,
        address: 160,
        other_line: 3,
        other_address: 176,
    };
    assert_eq!(rt; sightings.get(b"b".as_slice()).copied(), Some(two));
    assert_eq!(rt;
        sightings.get(b"c".as_slice()).copied(),
        Some(Sighting::Unlisted)
    );
    Ok(())
}

#[test]
fn what_was_said_before_is_forgotten(rt: HostRuntime) -> Result<(), Fail> {
    let names = vec![in rt.alloc(); String::from_str(rt.alloc(), "a")?]?;
    let mut sightings = unlisted(rt.alloc(), &names)?;
    let _ = look_up(&mut Text::new(b"a0 d a"), &mut sightings);
    assert_eq!(rt;
        sightings.get(b"a".as_slice()).copied(),
        Some(Sighting::At {
            line: 1,
            address: 160
        })
    );
    let _ = look_up(&mut Text::new(b"a0 d b"), &mut sightings);
    assert_eq!(rt;
        sightings.get(b"a".as_slice()).copied(),
        Some(Sighting::Unlisted)
    );
    Ok(())
}

#[test]
fn many_names_get_what_the_lines_say(rt: HostRuntime) -> Result<(), Fail> {
    let names = vec![in rt.alloc();
        String::from_str(rt.alloc(), "a")?,
        String::from_str(rt.alloc(), "b")?,
        String::from_str(rt.alloc(), "a")?,
    ]?;
    let mut sightings = hashed(rt.alloc(), &names)?;
    assert_eq!(rt; sightings.len(), 2, "asked twice, there once");
    assert_eq!(rt; sightings.said(b"b"), Some(Sighting::Unlisted));
    let reading = look_up(&mut Text::new(b"0 d a\na0 d b\n"), &mut sightings);
    assert_eq!(rt; reading.lines, 2);
    assert_eq!(rt; sightings.said(b"a"), Some(Sighting::OnlyZero { line: 1 }));
    assert_eq!(rt;
        sightings.said(b"b"),
        Some(Sighting::At {
            line: 2,
            address: 160
        })
    );
    assert_eq!(rt; sightings.said(b"c"), None);
    Ok(())
}

#[test]
fn rows_on_the_stack_are_enough(rt: HostRuntime) -> Result<(), Fail> {
    let names = vec![in rt.alloc();
        String::from_str(rt.alloc(), "b")?,
        String::from_str(rt.alloc(), "b")?,
        String::from_str(rt.alloc(), "a")?,
    ]?;
    let mut rows = [Sighting::OnlyZero { line: 9 }; 2];
    let reading = look_up_rows(&mut Text::new(b"0 d a\na0 d b\n"), &names, &mut rows);
    assert_eq!(rt; reading.lines, 2);
    let found = Sighting::At {
        line: 2,
        address: 160,
    };
    assert_eq!(rt; rows, [found, found], "a name without a row is passed over");
    let mut spare = [Sighting::OnlyZero { line: 9 }; 2];
    let _ = look_up(
        &mut Text::new(b"0 d b\n"),
        &mut Rows::new(&names[..1], &mut spare),
    );
    assert_eq!(rt;
        spare,
        [Sighting::OnlyZero { line: 1 }, Sighting::Unlisted],
        "a row without a name is unlisted"
    );
    Ok(())
}

#[test]
fn each_name_that_is_asked_for_has_a_row(rt: HostRuntime) -> Result<(), Fail> {
    // The first two have one spot of the 64 that there are for a few names.
    let names = vec![in rt.alloc();
        String::from_str(rt.alloc(), "aaaaaabm")?,
        String::from_str(rt.alloc(), "aaaaaae5")?,
        String::from_str(rt.alloc(), "b")?,
        String::from_str(rt.alloc(), "aaaaaabm")?,
    ]?;
    let mut rows = asked(rt.alloc(), &names)?;
    assert_eq!(rt; rows.sightings(), [Sighting::Unlisted; 4].as_slice());
    let reading = look_up(&mut Text::new(b"0 d aaaaaabm\na0 d b\n"), &mut rows);
    assert_eq!(rt; reading.lines, 2);
    let zero = Sighting::OnlyZero { line: 1 };
    let at = Sighting::At {
        line: 2,
        address: 160,
    };
    assert_eq!(rt;
        rows.sightings(),
        [zero, Sighting::Unlisted, at, zero].as_slice()
    );
    let _ = look_up(&mut Text::new(b"1 d d\na0 d aaaaaae5\n"), &mut rows);
    let sightings = rows.into_sightings();
    assert_eq!(rt;
        sightings.as_slice(),
        [
            Sighting::Unlisted,
            at,
            Sighting::Unlisted,
            Sighting::Unlisted
        ]
        .as_slice()
    );
    Ok(())
}
