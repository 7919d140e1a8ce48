// The loop, over readers that give pieces of all sizes and fail, and writers that take little and fail.
ghost use Rattle.std.specs.Prelude.{◌<◌, Some};

use arrayvec::ArrayVec;
use column_table::ColumnTable;
use console::failure::Failure;
use console::run::run;
use std::io;
use std::io::{ErrorKind, Read, Write};

const INPUT: &[u8] = b"3 8\n+ 1 4\n+ 6 6\n- 4 4\n? 6\n? 4\n+ 7 9\n?";

const OUTPUT: &[u8] = b"ok 3\nok 4\nok 3\nyes\nno\nrefused 2\nrefused 13\n01-\n001\n110\n";

// A reader of at most so many bytes at a time, which is interrupted every second time. It may fail where its bytes end.
#[derive(Clone, Copy)]
struct Pieces<'a> {
    unread: &'a [u8],
    most: usize,
    interrupted: bool,
    failure: Option<ErrorKind>,
    ghost some: { 0 < most },
}

impl Read for Pieces<'_> {
    ghost remaining = { λ pieces. Some pieces.unread.now };

    fn read(&mut self, buf: &mut [u8]) -> io::Result<usize> {
        self.interrupted = !self.interrupted;
        if self.interrupted {
            return Err(io::Error::from(ErrorKind::Interrupted));
        }
        if self.unread.is_empty() {
            if let Some(kind) = self.failure {
                return Err(io::Error::from(kind));
            }
        }
        let count = self.unread.len().min(self.most).min(buf.len());
        buf[..count].copy_from_slice(&self.unread[..count]);
        self.unread = &self.unread[count..];
        Ok(count)
    }
}

// A reader of the bytes in pieces of at most so many.
fn in_pieces(unread: &[u8], most: usize) -> Pieces<'_> {
    Pieces {
        unread,
        most: most.max(1),
        interrupted: false,
        failure: None,
    }
}

// A writer that takes at most so many bytes at a time, is interrupted every second time, and fails once it is full.
#[derive(Drop)]
struct Takes {
    held: ArrayVec<u8, 64>,
    most: usize,
    room: usize,
    interrupted: bool,
}

impl Write for Takes {
    fn write(&mut self, buf: &[u8]) -> io::Result<usize> {
        self.interrupted = !self.interrupted;
        if self.interrupted {
            return Err(io::Error::from(ErrorKind::Interrupted));
        }
        let count = buf.len().min(self.most).min(self.room);
        let Ok(()) = self.held.try_extend_from_slice(&buf[..count]) else {
            return Err(io::Error::from(ErrorKind::StorageFull));
        };
        if count == 0 && self.room == 0 {
            return Err(io::Error::from(ErrorKind::BrokenPipe));
        }
        self.room -= count;
        Ok(count)
    }

    fn flush(&mut self) -> io::Result<()> {
        Ok(())
    }
}

fn with_room(most: usize, room: usize) -> Takes {
    Takes {
        held: ArrayVec::new(),
        most,
        room,
        interrupted: false,
    }
}

#[test]
fn pieces_of_all_sizes_give_the_same_output(rt: HostRuntime) {
    for most_read in 1..=INPUT.len() + 1 {
        for most_taken in 1..=OUTPUT.len() + 1 {
            let mut output = with_room(most_taken, 64);
            let ended = run::<ColumnTable, _, _>(&mut in_pieces(INPUT, most_read), &mut output);
            assert_eq!(rt; ended, Ok(()));
            assert_eq!(rt; output.held.as_slice(), OUTPUT);
        }
    }
}

#[test]
fn what_was_answered_before_a_failed_read_is_written(rt: HostRuntime) {
    for cut in 0..=INPUT.len() {
        let mut input = in_pieces(&INPUT[..cut], 5);
        input.failure = Some(ErrorKind::ConnectionReset);
        let mut output = with_room(3, 64);
        let ended = run::<ColumnTable, _, _>(&mut input, &mut output);
        assert_eq!(rt; ended, Err(Failure::CannotRead(ErrorKind::ConnectionReset)));
        assert!(rt; OUTPUT.starts_with(output.held.as_slice()));
        // each line that was closed is answered, but for the first
        let closed = INPUT[..cut].iter().filter(|byte| **byte == b'\n').count();
        let answered = output
            .held
            .as_slice()
            .iter()
            .filter(|byte| **byte == b'\n')
            .count();
        assert_eq!(rt; answered, closed.saturating_sub(1));
    }
}

#[test]
fn a_failed_write_leaves_all_bytes_before_it(rt: HostRuntime) {
    for room in 0..OUTPUT.len() {
        let mut output = with_room(4, room);
        let ended = run::<ColumnTable, _, _>(&mut in_pieces(INPUT, 9), &mut output);
        assert_eq!(rt; ended, Err(Failure::CannotWrite(ErrorKind::BrokenPipe)));
        assert_eq!(rt; output.held.as_slice(), &OUTPUT[..room]);
    }
}

#[test]
fn a_writer_that_takes_nothing_is_a_failure(rt: HostRuntime) {
    let ended = run::<ColumnTable, _, _>(&mut in_pieces(INPUT, 9), &mut with_room(0, 64));
    assert_eq!(rt; ended, Err(Failure::CannotWrite(ErrorKind::WriteZero)));
}

#[test]
fn a_refused_first_line_leaves_the_rest_unread(rt: HostRuntime) {
    let mut input = in_pieces(b"33 8\n+ 1 4\n? 1\n", 6);
    let mut output = with_room(64, 64);
    assert_eq!(rt; run::<ColumnTable, _, _>(&mut input, &mut output), Ok(()));
    assert_eq!(rt; output.held.as_slice(), b"refused 1\n".as_slice());
    assert_eq!(rt; input.unread, b" 1 4\n? 1\n".as_slice());
}

#[test]
fn an_absent_first_line_is_refused_at_the_end(rt: HostRuntime) {
    let mut output = with_room(64, 64);
    assert_eq!(rt;
        run::<ColumnTable, _, _>(&mut in_pieces(b"", 6), &mut output),
        Ok(())
    );
    assert_eq!(rt; output.held.as_slice(), b"refused 13\n".as_slice());
}
