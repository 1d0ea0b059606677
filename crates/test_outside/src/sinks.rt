use st_outside::{Failed, MemorySink, Sink, StdSink, write_all};
use std::fmt::Display;
use std::process::Abort;
use std::test::Fail;
use std::{fs, io};

// A piece, how much of it is taken, and the sink's bytes afterwards.
type Write = (&'static [u8], Result<usize, Failed>, &'static [u8]);

// Whether these are the bytes of a sink.
fn holds(sink: &MemorySink, bytes: &[u8]) -> bool {
    sink.bytes() == bytes
}

// Writes these pieces in order.
fn write_pieces(rt: &impl Abort, sink: &mut MemorySink, writes: &[Write]) {
    for (piece, taken, bytes) in writes {
        assert!(rt; !piece.is_empty());
        assert_eq!(rt; sink.write_piece(piece), *taken);
        assert!(rt; holds(sink, bytes));
    }
}

// The second write is short, the third fails, and for the fifth there is no room left.
const PIECES: [Write; 5] = [
    (b"abc", Ok(3), b"abc"),
    (b"de", Ok(1), b"abcd"),
    (b"e", Err(Failed), b"abcd"),
    (b"efg", Ok(2), b"abcdef"),
    (b"g", Err(Failed), b"abcdef"),
];

#[test]
fn writes_pieces_to_memory(rt: HostRuntime) -> Result<(), Fail> {
    let mut sink = MemorySink::new(rt.alloc(), 6)?;
    sink.short_at(2)?;
    sink.fail_at(3)?;
    write_pieces(&rt, &mut sink, &PIECES);
    assert_eq!(rt; sink.faults(), 2);
    Ok(())
}

// Writes a whole text, and compares the result and the sink's bytes afterwards.
fn write_whole(
    rt: &impl Abort,
    sink: &mut MemorySink,
    text: &[u8],
    written: Result<(), Failed>,
    bytes: &[u8],
) {
    assert_eq!(rt; write_all(sink, text), written);
    assert!(rt; holds(sink, bytes));
}

#[test]
fn writes_all_to_memory(rt: HostRuntime) -> Result<(), Fail> {
    let mut sink = MemorySink::new(rt.alloc(), 6)?;
    sink.short_at(1)?;
    write_whole(&rt, &mut sink, b"abcd", Ok(()), b"abcd");
    write_whole(&rt, &mut sink, b"", Ok(()), b"abcd");
    write_whole(&rt, &mut sink, b"efgh", Err(Failed), b"abcdef");
    assert_eq!(rt; sink.faults(), 1);
    Ok(())
}

// The host's disk that is always full.
#[derive(Drop)]
struct FullDisk<'a>(&'a HostRuntime);

impl Print for FullDisk<'_> {
    fn print<D: Display + Drop>(&self, _value: D) -> io::Result<()> {
        Ok(())
    }

    fn println<D: Display + Drop>(&self, _value: D) -> io::Result<()> {
        Ok(())
    }

    fn write_all(&self, bytes: &[u8]) -> io::Result<()> {
        fs::write(self.0, "/dev/full", bytes)
    }
}

// A device that takes this many bytes at a time, and writes none.
#[derive(Drop)]
struct Slow(usize);

impl Print for Slow {
    fn print<D: Display + Drop>(&self, _value: D) -> io::Result<()> {
        Ok(())
    }

    fn println<D: Display + Drop>(&self, _value: D) -> io::Result<()> {
        Ok(())
    }

    fn write_all(&self, _bytes: &[u8]) -> io::Result<()> {
        Ok(())
    }

    fn write_some(&self, bytes: &[u8]) -> io::Result<usize> {
        Ok(self.0.min(bytes.len()))
    }
}

#[test]
fn writes_to_standard_output(rt: HostRuntime) {
    let mut sink = StdSink::new(&rt);
    assert_eq!(rt; write_all(&mut sink, b"standard output\n"), Ok(()));
    assert_eq!(rt; sink.faults(), 0);
}

#[test]
fn a_full_disk_is_a_fault(rt: HostRuntime) {
    let disk = FullDisk(&rt);
    let mut sink = StdSink::new(&disk);
    assert_eq!(rt; write_all(&mut sink, b"text"), Err(Failed));
    assert_eq!(rt; sink.faults(), 1);
}

#[test]
fn a_short_write_goes_on(rt: HostRuntime) {
    let slow = Slow(1);
    let mut sink = StdSink::new(&slow);
    assert_eq!(rt; sink.write_piece(b"text"), Ok(1));
    assert_eq!(rt; write_all(&mut sink, b"text"), Ok(()));
    let stuck = Slow(0);
    let mut sink = StdSink::new(&stuck);
    assert_eq!(rt; write_all(&mut sink, b"text"), Err(Failed));
    assert_eq!(rt; sink.faults(), 1);
}
