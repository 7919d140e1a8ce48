// Lines in, and lines out.
use console::failure::Failure;
use console::help::{HELP, HINT};
use lines::command::Command;
use lines::parse::{parse_command, parse_setup};
use lines::print::{MOST_PRINTED_BYTES, reply_line, row_line};
use lines::reply::Reply;
use rows::edit::Edit;
use rows::range::Range;
use rows::refusal::Refusal;
use rows::row::Row;
use rows::width::Width;
use std::io::ErrorKind;
use std::test::Fail;

#[test]
fn lines_are_read(rt: HostRuntime) -> Result<(), Fail> {
    assert_eq!(rt;
        parse_command(b"+ 1 4"),
        Ok(Command::Edit(Edit::Add(Range::new(1, 4))))
    );
    assert_eq!(rt;
        parse_command(b"- 0000000010 9"),
        Ok(Command::Edit(Edit::Drop(Range::new(10, 9))))
    );
    assert_eq!(rt;
        parse_command(b"? 9999999999"),
        Ok(Command::Ask {
            number: 9_999_999_999,
        })
    );
    let setup = parse_setup(b"32 121")?;
    assert_eq!(rt; setup.width, 32);
    assert_eq!(rt; setup.slots, 121);
    Ok(())
}

#[test]
fn other_lines_are_refused(rt: HostRuntime) {
    let malformed: [&[u8]; 10] = [
        b"",
        b"+",
        b"+ 1",
        b"+ 1  4",
        b"+  1 4",
        b" + 1 4",
        b"+ 1 4 ",
        b"? 12345678901",
        b"? 1 2",
        b"* 1 4",
    ];
    for line in malformed {
        assert_eq!(rt; parse_command(line), Err(Refusal::MalformedLine));
    }
}

#[test]
fn replies_are_printed(rt: HostRuntime) -> Result<(), Fail> {
    assert_eq!(rt; reply_line(Ok(Reply::Rows(120))).as_str(), "ok 120\n");
    assert_eq!(rt; reply_line(Ok(Reply::Says(true))).as_str(), "yes\n");
    assert_eq!(rt; reply_line(Ok(Reply::Says(false))).as_str(), "no\n");
    let refused = reply_line(Err(Refusal::MalformedLine));
    assert_eq!(rt; refused.as_str(), "refused 13\n");
    let row = row_line(Width::try_from(4)?, Row::new(0b0100, 0b0110));
    assert_eq!(rt; row.as_str(), "-10-\n");
    Ok(())
}

// The longest row fills a printed line, and what `Display` writes is the same text.
#[test]
fn lines_fit_at_width_32_too(rt: HostRuntime) -> Result<(), Fail> {
    let width = Width::try_from(32)?;
    let row = Row::new(0x8000_0001, 0xffff_fff1);
    let line = row_line(width, row);
    assert_eq!(rt; line.as_str(), "1000000000000000000000000000---1\n");
    assert_eq!(rt; line.len(), MOST_PRINTED_BYTES);
    let shown = format!(in rt.alloc();
        "{} {} {}",
        row.text(width),
        Refusal::MalformedLine,
        Reply::Says(false)
    )?;
    assert_eq!(rt;
        shown.as_str(),
        "1000000000000000000000000000---1 refused 13 no"
    );
    Ok(())
}

#[test]
fn the_help_names_each_line_and_each_refusal(rt: HostRuntime) {
    let named = [
        "\n  W S ",
        "\n  + F L ",
        "\n  - F L ",
        "\n  ? X ",
        "\n   1   W is not from 1 to 32\n",
        "\n   2   a number needs more than W digits\n",
        "\n   6   the held numbers would be more than 16 separate ranges\n",
        "\n   7   their rows would be more than S\n",
        "\n  13   this is no line of these, or it has over 64 bytes\n",
    ];
    for line in named {
        assert!(rt; HELP.contains(line));
    }
    assert!(rt; HINT.contains("--help"));
}

#[test]
fn failures_are_plain_sentences(rt: HostRuntime) -> Result<(), Fail> {
    let told = [
        (
            Failure::CannotRead(ErrorKind::IsADirectory),
            "cannot read: is a directory",
        ),
        (
            Failure::CannotWrite(ErrorKind::BrokenPipe),
            "cannot write: broken pipe",
        ),
        (Failure::TooManyTries, "gave up after too many tries"),
    ];
    for (failure, sentence) in told {
        let text = format!(in rt.alloc(); "{failure}")?;
        assert_eq!(rt; text.as_str(), sentence);
    }
    Ok(())
}
