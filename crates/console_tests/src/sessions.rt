// Sessions, byte by byte.
use column_table::ColumnTable;
use console::session::Session;

// What the last line says that was printed for some bytes.
#[derive(Clone, Copy, PartialEq, Eq, Debug)]
enum Heard {
    Nothing,
    Yes,
    No,
    Malformed,
    Other,
}

impl From<&str> for Heard {
    fn from(line: &str) -> Heard {
        match line {
            "" => Heard::Nothing,
            "yes\n" => Heard::Yes,
            "no\n" => Heard::No,
            "refused 13\n" => Heard::Malformed,
            _ => Heard::Other,
        }
    }
}

fn told(session: &mut Session<ColumnTable>, bytes: &[u8]) -> Heard {
    let mut heard = Heard::Nothing;
    for byte in bytes {
        if let Some(line) = session.take_byte(*byte) {
            heard = Heard::from(line.as_str());
        }
    }
    heard
}

// The closing line at an index, or nothing beyond the last.
fn closing_line_is(session: &Session<ColumnTable>, index: usize, expected: &str) -> bool {
    match session.closing_line(index) {
        Some(line) => line.as_str() == expected,
        None => expected.is_empty(),
    }
}

#[test]
fn lines_are_answered_as_they_come(rt: HostRuntime) {
    let mut session = Session::<ColumnTable>::new();
    assert_eq!(rt; told(&mut session, b"3 8\n"), Heard::Nothing);
    assert_eq!(rt; told(&mut session, b"? 6\n"), Heard::No);
    assert_eq!(rt; told(&mut session, b"+ 6 6\n"), Heard::Other);
    assert_eq!(rt; told(&mut session, b"? "), Heard::Nothing);
    assert_eq!(rt; told(&mut session, b"6\n"), Heard::Yes);
    assert_eq!(rt; told(&mut session, b"? 6 \n"), Heard::Malformed);
    assert!(rt; session.end_input().is_none());
    assert!(rt; closing_line_is(&session, 0, "110\n"));
    assert!(rt; closing_line_is(&session, 1, ""));
}

#[test]
fn a_line_of_a_megabyte_is_refused_once(rt: HostRuntime) {
    let mut session = Session::<ColumnTable>::new();
    assert_eq!(rt; told(&mut session, b"3 8\n"), Heard::Nothing);
    let piece = [b'+'; 4096];
    for _ in 0..256 {
        assert_eq!(rt; told(&mut session, &piece), Heard::Nothing);
    }
    assert_eq!(rt; told(&mut session, b"\n"), Heard::Malformed);
    assert_eq!(rt; told(&mut session, b"? 6\n"), Heard::No);
}

#[test]
fn the_end_closes_a_line_and_the_rows_follow(rt: HostRuntime) {
    let mut session = Session::<ColumnTable>::new();
    assert_eq!(rt;
        told(&mut session, b"3 8\n+ 1 4\n+ 6 6\n- 4 4\n? 6"),
        Heard::Other
    );
    let last = session.end_input();
    assert!(rt; last.is_some_and(|line| line.as_str() == "yes\n"));
    assert!(rt; session.end_input().is_none());
    assert!(rt; closing_line_is(&session, 0, "01-\n"));
    assert!(rt; closing_line_is(&session, 1, "001\n"));
    assert!(rt; closing_line_is(&session, 2, "110\n"));
    assert!(rt; closing_line_is(&session, 3, ""));
    assert!(rt; closing_line_is(&session, 119, ""));
}

#[test]
fn a_first_line_that_is_none_stops_the_console(rt: HostRuntime) {
    let mut session = Session::<ColumnTable>::new();
    assert!(rt; !session.has_stopped());
    assert!(rt; closing_line_is(&session, 0, "refused 13\n"));
    assert!(rt; closing_line_is(&session, 1, ""));
    assert_eq!(rt; told(&mut session, b"+ 1 4\n"), Heard::Malformed);
    assert!(rt; session.has_stopped());
    assert_eq!(rt; told(&mut session, b"3 8\n? 1\n"), Heard::Nothing);
    assert!(rt; closing_line_is(&session, 0, ""));
}
