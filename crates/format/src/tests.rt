use crate::command::{Command, Header, RowNumbers, read_command, read_header};
use crate::line::LineBuffer;
use rows::refusal::Refusal;
use std::test::Fail;

#[test]
fn headers(rt: HostRuntime) {
    assert!(rt; matches!(read_header(b"box"), Ok(Header::Bounds)));
    assert!(rt; matches!(read_header(b"box,"), Err(Refusal::FieldCount)));
    assert!(rt; matches!(read_header(b"box\r"), Err(Refusal::UnknownWord)));
    assert!(rt; matches!(read_header(b""), Err(Refusal::UnknownWord)));
}

#[test]
fn commands(rt: HostRuntime) {
    assert!(rt;
        matches!(
            read_command(b"row,1,-2,3,4"),
            Ok(Command::Row(RowNumbers {
                a: 1,
                b: -2,
                c: 3,
                parish: 4
            }))
        )
    );
    assert!(rt;
        matches!(
            read_command(b"strike,9999999999"),
            Ok(Command::Strike(9_999_999_999))
        )
    );
    assert!(rt; matches!(read_command(b"restore,-0"), Err(Refusal::NoNumber)));
    assert!(rt; matches!(read_command(b"row,x,2"), Err(Refusal::FieldCount)));
    assert!(rt; matches!(read_command(b"check"), Err(Refusal::FieldCount)));
    assert!(rt; matches!(read_command(b""), Err(Refusal::UnknownWord)));
    assert!(rt; matches!(read_command(b"\xff,1"), Err(Refusal::UnknownWord)));
    assert!(rt; matches!(read_command(&[b','; 80]), Err(Refusal::UnknownWord)));
    assert!(rt; matches!(read_command(&[b','; 81]), Err(Refusal::LongLine)));
}

#[test]
fn settles(rt: HostRuntime) {
    assert!(rt; matches!(read_command(b"settle"), Ok(Command::Settle)));
    assert!(rt; matches!(read_command(b"settle,"), Err(Refusal::FieldCount)));
}

#[test]
fn seeds(rt: HostRuntime) {
    assert!(rt; matches!(read_command(b"shuffle,0"), Ok(Command::Shuffle(0))));
    assert!(rt;
        matches!(
            read_command(b"shuffle,4294967295"),
            Ok(Command::Shuffle(4_294_967_295))
        )
    );
    assert!(rt; matches!(read_command(b"shuffle,4294967296"), Err(Refusal::SeedRange)));
    assert!(rt; matches!(read_command(b"shuffle,-1"), Err(Refusal::SeedRange)));
    assert!(rt; matches!(read_command(b"shuffle,10000000000"), Err(Refusal::NoNumber)));
    assert!(rt; matches!(read_command(b"shuffle,-0"), Err(Refusal::NoNumber)));
    assert!(rt; matches!(read_command(b"shuffle"), Err(Refusal::FieldCount)));
}

#[test]
fn positions(rt: HostRuntime) -> Result<(), Fail> {
    let Ok(command) = read_command(b"check,0,5,-1") else {
        return Err(Fail::new("refused"));
    };
    match command {
        Command::Check(numbers) => {
            assert!(rt; numbers.as_slice() == [0, 5, -1].as_slice());
            Ok(())
        },
        _ => Err(Fail::new("another command")),
    }
}

#[test]
fn lines(rt: HostRuntime) {
    let mut buffer = LineBuffer::new();
    assert!(rt; buffer.fill(b"box\n\nrow") == Some(4));
    assert!(rt; matches!(buffer.line(), Ok(b"box")));
    buffer.clear();
    assert!(rt; buffer.is_empty());
    assert!(rt; buffer.fill(&[0; 80]) == None);
    assert!(rt; buffer.line().is_ok());
    buffer.push(0);
    assert!(rt; matches!(buffer.line(), Err(Refusal::LongLine)));
}
