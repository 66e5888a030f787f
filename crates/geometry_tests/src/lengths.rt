// Lengths that are read and written, and numbers rounded up.
use grid_num::{MmText, Nm, NumFault, ceil_div, read_mm, up2, write_mm};
use std::test::Fail;

#[test]
fn reads_lengths(rt: HostRuntime) {
    for (text, nm) in [
        ("-0.000001", -1),
        ("0.0000010", 1),
        ("5.", 5_000_000),
        (".5", 500_000),
        ("+007", 7_000_000),
        ("-0", 0),
        ("-500", -500_000_000),
        ("500.00000000", 500_000_000),
    ] {
        let read = read_mm(text.as_bytes());
        assert_eq!(rt; read.map(|length| length.get()), Ok(nm), "{text}");
    }
}

#[test]
fn refuses_other_texts(rt: HostRuntime) {
    for (text, fault) in [
        ("0.0000001", NumFault::TooFine),
        ("999999.0000001", NumFault::TooFine),
        ("500.000001", NumFault::OutOfRange),
        ("-98765432109876543210987654321", NumFault::OutOfRange),
        ("1e3", NumFault::NotANumber),
        (".", NumFault::NotANumber),
        ("", NumFault::NotANumber),
        ("-", NumFault::NotANumber),
        ("+-1", NumFault::NotANumber),
        ("1.2.3", NumFault::NotANumber),
        (" 1", NumFault::NotANumber),
    ] {
        let read = read_mm(text.as_bytes());
        assert_eq!(rt; read.map(|length| length.get()), Err(fault), "{text}");
    }
}

#[test]
fn writes_lengths(rt: HostRuntime) -> Result<(), Fail> {
    let mut text = MmText::new();
    for (nm, spelling) in [
        (-500_000, "-0.5"),
        (0, "0"),
        (500_000_000, "500"),
        (-499_999_999, "-499.999999"),
        (10_000_010, "10.00001"),
        (105_000_000, "105"),
    ] {
        let length = Nm::new(nm).expect(&rt, "a length within the range");
        write_mm(length, &mut text);
        assert_eq!(rt; text.bytes(), spelling.as_bytes());
    }
    assert!(rt; Nm::new(-500_000_001).is_none());
    Ok(())
}

#[test]
fn rounds_up(rt: HostRuntime) {
    for (a, reach) in [(0, 0), (1, 2), (2, 3), (5, 8), (100_000, 141_422)] {
        assert_eq!(rt; up2(a), reach);
    }
    for (a, d, quotient) in [(7, 2, 4), (-7, 2, -3), (8, 2, 4), (-8, 2, -4), (0, 9, 0)] {
        assert_eq!(rt; ceil_div(a, d), quotient);
    }
}
