use qu_base::List;
use qu_io::{Failed, MemSink, MemSource, Sink, Source, StdSink, StdSource, SureSink, SureSource};
use qu_testing::{all_hold, bytes_of, holds};
use std::io;
use std::io::{Error, ErrorKind, Read, Write};
use std::test::Fail;

/// Whether a read into four dots leaves these bytes, and says that it gave so many.
fn gives<S: Source>(source: &mut S, wanted: &[u8; 4], count: usize) -> bool {
    let mut piece = [b'.'; 4];
    let result = source.read(&mut piece);
    result == Ok(count) && piece == *wanted
}

/// Whether a read fails, and leaves what was there.
fn fails<S: Source>(source: &mut S) -> bool {
    let mut piece = [b'.'; 4];
    let result = source.read(&mut piece);
    result == Err(Failed) && piece == [b'.'; 4]
}

/// A reader and a writer whose calls are all interrupted.
#[derive(Drop)]
struct Interrupted;

impl Read for Interrupted {
    fn read(&mut self, _buf: &mut [u8]) -> io::Result<usize> {
        Err(Error::from(ErrorKind::Interrupted))
    }
}

impl Write for Interrupted {
    fn write(&mut self, _buf: &[u8]) -> io::Result<usize> {
        Err(Error::from(ErrorKind::Interrupted))
    }

    fn flush(&mut self) -> io::Result<()> {
        Ok(())
    }
}

#[test]
fn a_source_gives_pieces(rt: HostRuntime) -> Result<(), Fail> {
    let text = bytes_of(rt.alloc(), "abcdefgh")?;
    read_pieces(&mut MemSource::new(text, 3, List::new(rt.alloc())))
}

fn read_pieces(source: &mut MemSource) -> Result<(), Fail> {
    all_hold(&[
        (gives(source, b"abc.", 3), "the first piece"),
        (gives(source, b"def.", 3), "the second piece"),
        (source.left() == b"gh".as_slice(), "what is left"),
        (gives(source, b"gh..", 2), "the last piece"),
        (gives(source, b"....", 0), "the end"),
        (source.calls() == 4 && source.faults() == 0, "four calls"),
    ])
}

#[test]
fn a_source_fails_at_its_first_call(rt: HostRuntime) -> Result<(), Fail> {
    let failing = List::one(rt.alloc(), 1)?;
    read_twice(&mut MemSource::new(bytes_of(rt.alloc(), "ab")?, 9, failing))
}

fn read_twice(source: &mut MemSource) -> Result<(), Fail> {
    all_hold(&[
        (fails(source), "the first call"),
        (source.calls() == 1 && source.faults() == 1, "one fault"),
        (source.left() == b"ab".as_slice(), "nothing is taken"),
        (gives(source, b"ab..", 2), "the second call"),
        (
            source.calls() == 2 && source.faults() == 1,
            "no other fault",
        ),
    ])
}

#[test]
fn a_sink_fails_at_its_third_call(rt: HostRuntime) -> Result<(), Fail> {
    let failing = List::one(rt.alloc(), 3)?;
    write_rests(&mut MemSink::new(rt.alloc(), 10, failing))
}

fn write_rests(sink: &mut MemSink) -> Result<(), Fail> {
    all_hold(&[
        (
            sink.write("abcdefghijklmnopqrstuvwxy".as_bytes()) == Ok(10),
            "the first call",
        ),
        (
            sink.write("klmnopqrstuvwxy".as_bytes()) == Ok(10),
            "the second call",
        ),
        (
            sink.write("uvwxy".as_bytes()) == Err(Failed),
            "the third call",
        ),
        (sink.calls() == 3 && sink.faults() == 1, "one fault"),
        (
            sink.taken() == "abcdefghijklmnopqrst".as_bytes(),
            "two pieces",
        ),
        (sink.write("uvwxy".as_bytes()) == Ok(5), "the fourth call"),
        (
            sink.taken() == "abcdefghijklmnopqrstuvwxy".as_bytes(),
            "all pieces",
        ),
    ])
}

#[test]
fn a_sink_takes_nothing(rt: HostRuntime) -> Result<(), Fail> {
    write_in_vain(&mut MemSink::new(rt.alloc(), 0, List::new(rt.alloc())))
}

fn write_in_vain(sink: &mut MemSink) -> Result<(), Fail> {
    all_hold(&[
        (sink.write(b"a") == Err(Failed), "a byte"),
        (sink.write(b"") == Ok(0), "no byte"),
        (sink.write(b"a") == Err(Failed), "a byte again"),
        (sink.calls() == 3 && sink.faults() == 2, "two faults"),
        (sink.taken().is_empty(), "nothing is taken"),
    ])
}

#[test]
fn a_sure_source_gives_all(rt: HostRuntime) -> Result<(), Fail> {
    read_surely(&mut SureSource::new(bytes_of(rt.alloc(), "abcdef")?))
}

fn read_surely(source: &mut SureSource) -> Result<(), Fail> {
    all_hold(&[
        (gives(source, b"abcd", 4), "the first piece"),
        (gives(source, b"ef..", 2), "the last piece"),
        (gives(source, b"....", 0), "the end"),
    ])
}

#[test]
fn a_sure_sink_takes_all() -> Result<(), Fail> {
    let mut sink = SureSink::new();
    all_hold(&[
        (sink.write(b"abc") == Ok(3), "three bytes"),
        (sink.write(b"de") == Ok(2), "two bytes"),
        (sink.count() == 5, "five bytes"),
    ])
}

#[test]
fn std_reads() -> Result<(), Fail> {
    let mut source = StdSource::new(b"abcdef".as_slice());
    all_hold(&[
        (gives(&mut source, b"abcd", 4), "four bytes"),
        (source.faults() == 0, "no fault"),
        (source.into_inner() == b"ef".as_slice(), "what is left"),
    ])
}

#[test]
fn std_writes(rt: HostRuntime) -> Result<(), Fail> {
    let mut sink = StdSink::new(Vec::new(rt.alloc()));
    let are_written = [sink.write(b"abc"), sink.write(b""), sink.write(b"de")];
    let is_sound = sink.faults() == 0;
    let text = sink.into_inner();
    all_hold(&[
        (
            are_written == [Ok(3), Ok(0), Ok(2)],
            "three bytes, no byte, and two bytes",
        ),
        (is_sound, "no fault"),
        (text.as_slice() == b"abcde".as_slice(), "all bytes"),
    ])
}

#[test]
fn std_errors_are_faults() -> Result<(), Fail> {
    let mut source = StdSource::new(Interrupted);
    let mut sink = StdSink::new(Interrupted);
    all_hold(&[
        (fails(&mut source), "an interrupted read"),
        (fails(&mut source), "a second one"),
        (source.faults() == 2, "two faults"),
        (sink.write(b"a") == Err(Failed), "an interrupted write"),
        (sink.faults() == 1, "one fault"),
    ])
}

#[test]
fn a_full_writer_is_a_fault() -> Result<(), Fail> {
    let mut full = StdSink::new(io::Cursor::new([0u8; 2]));
    all_hold(&[
        (full.write(b"abc") == Ok(2), "two of three bytes"),
        (full.write(b"c") == Err(Failed), "no room"),
        (full.faults() == 1, "one fault"),
    ])
}

#[test]
fn a_failure_is_told(rt: HostRuntime) -> Result<(), Fail> {
    let text = format!(in rt.alloc(); "{Failed}")?;
    holds(text.as_str() == "a read or a write failed", "its words")
}
