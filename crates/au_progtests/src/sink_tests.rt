//! Pieces put on sinks, in memory and over a writer.
use au_io::{MemSink, RealSink, Sink};
use std::io;
use std::io::Write;
use std::process::Abort;
use std::test::Fail;

// Whether each piece `PIECE -> ok` or `PIECE -> fails` is put so.
fn judge<S: Sink>(rt: &impl Abort, sink: &mut S, cases: &str) {
    for case in cases.lines() {
        let (piece, wanted) = case.split_once(" -> ").expect(rt, "an arrow");
        let found = sink.put(piece.as_bytes()).is_ok();
        assert_eq!(rt; found, wanted == "ok", "{piece}");
    }
}

const IN_MEMORY: &str = "hello -> ok
 you -> fails
! -> fails
. -> ok";

#[test]
fn fronts_of_failing_puts(rt: HostRuntime) -> Result<(), Fail> {
    let alloc = rt.alloc();
    let mut sink = MemSink::new(alloc, [(1, 2), (1, 0), (2, 9)].to_vec(alloc)?);
    judge(&rt, &mut sink, IN_MEMORY);
    assert_eq!(rt; sink.bytes(), b"hello y!.".as_slice());
    Ok(())
}

// A writer that takes at most three bytes at once, and seven in all.
#[derive(Drop)]
struct Narrow {
    bytes: Vec<u8>,
}

impl Write for Narrow {
    fn write(&mut self, buf: &[u8]) -> io::Result<usize> {
        let room = 7usize.saturating_sub(self.bytes.len()).min(3);
        let n = buf.len().min(room);
        self.bytes.extend_from_slice(&buf[..n])?;
        Ok(n)
    }

    fn flush(&mut self) -> io::Result<()> {
        Ok(())
    }
}

const TO_A_WRITER: &str = "hello -> ok
world -> fails
 -> ok
! -> fails";

#[test]
fn puts_until_a_write_takes_nothing(rt: HostRuntime) -> Result<(), Fail> {
    let mut writer = Narrow {
        bytes: Vec::new(rt.alloc()),
    };
    let mut sink = RealSink::new(&mut writer);
    judge(&rt, &mut sink, TO_A_WRITER);
    drop(sink);
    assert_eq!(rt; writer.bytes.as_slice(), b"hellowo".as_slice());
    Ok(())
}
