ghost use Rattle.std.specs.Prelude.{◌≡◌, ◌≢◌, ◌<◌, ◌≤◌, length, IfOk, IfSome};
ghost use Rattle.std.specs.Io.KnownBytes.{Appends};
ghost use Rattle.sx_io.specs.Causes.{Rose};

use super::*;
use std::alloc::{AllocError, Global};
use std::io::{self, ErrorKind, Read, Write};
use std::test::Fail;
use sx_lists::{Copied, List};

const TEXT: [u8; 12] = *b"hello, world";

// A source of these bytes, whose reads of these numbers fail.
fn source(
    alloc: Global,
    bytes: &[u8],
    piece: u64,
    failing: &[u64],
) -> Result<MemorySource, AllocError>
    requires { 0 < piece }
{
    let bytes = Bytes::from_vec(bytes.to_vec(alloc)?);
    let failing = List::from_vec(failing.to_vec(alloc)?);
    Ok(MemorySource::new(bytes, piece, failing))
}

// A sink with this room, whose writes of these numbers fail.
fn sink(alloc: Global, room: u64, piece: u64, failing: &[u64]) -> Result<MemorySink, AllocError>
    requires { 0 < piece }
{
    let failing = List::from_vec(failing.to_vec(alloc)?);
    MemorySink::new(alloc, room, piece, failing)
}

#[derive(Clone, Copy, Debug, PartialEq, Eq)]
enum Copying {
    Done,
    Memory,
    Unread,
    TooLong,
    Unwritten,
}

// Reads to the end and writes that.
fn copy<S: Source, K: Sink>(alloc: Global, source: &mut S, sink: &mut K, limit: u64) -> Copying
    ensures unread { result ≡ Copying.Unread → Rose (S.faults source.old) (S.faults source.new) }
    ensures too_long { result ≡ Copying.TooLong → IfSome (S.left source.old) (λ all. limit < length all) }
    ensures unwritten { result ≡ Copying.Unwritten → Rose (K.faults sink.old) (K.faults sink.new) }
    ensures done { result ≡ Copying.Done → IfSome (S.left source.old) (Appends (K.written sink.old) (K.written sink.new)) }
    ensures kept { result ≢ Copying.Done → result ≢ Copying.Unwritten → sink.new ≡ sink.old }
    ensures later { S.faults source.old ≤ S.faults source.new }
{
    match read_all(alloc, source, limit) {
        Ok(bytes) => match write_all(sink, bytes.as_slice()) {
            Ok(()) => Copying::Done,
            Err(_) => Copying::Unwritten,
        },
        Err(ReadFault::Memory) => Copying::Memory,
        Err(ReadFault::Failed) => Copying::Unread,
        Err(ReadFault::TooLong) => Copying::TooLong,
    }
}

#[test]
fn all_is_read_up_to_the_limit(rt: HostRuntime) -> Result<(), Fail> {
    let alloc = rt.alloc();
    for limit in [12, 13, u64::MAX] {
        let bytes = read_all(alloc, &mut source(alloc, &TEXT, 5, &[])?, limit)?;
        assert_eq!(rt; bytes.as_slice(), TEXT.as_slice(), "with the limit {limit}");
    }
    let mut long = source(alloc, &TEXT, 5, &[])?;
    let fault = read_all(alloc, &mut long, 6).err();
    assert_eq!(rt; fault, Some(ReadFault::TooLong));
    let rest = read_all(alloc, &mut long, 5)?;
    assert_eq!(rt; rest.as_slice(), b"world".as_slice());
    Ok(())
}

#[test]
fn each_read_fails_in_turn(rt: HostRuntime) -> Result<(), Fail> {
    let alloc = rt.alloc();
    for (call, left) in [(1, "hello, world"), (2, ", world"), (3, "ld"), (4, "")] {
        let mut broken = source(alloc, &TEXT, 5, &[call])?;
        let fault = read_all(alloc, &mut broken, 12).err();
        assert_eq!(rt; fault, Some(ReadFault::Failed), "at call {call}");
        assert_eq!(rt; broken.faults(), 1);
        let rest = read_all(alloc, &mut broken, 12)?;
        assert_eq!(rt; rest.as_slice(), left.as_bytes(), "after call {call}");
    }
    Ok(())
}

#[test]
fn each_write_fails_in_turn(rt: HostRuntime) -> Result<(), Fail> {
    let alloc = rt.alloc();
    for (call, front) in [(1, ""), (2, "hello"), (3, "hello, wor")] {
        let mut broken = sink(alloc, 12, 5, &[call])?;
        let fault = write_all(&mut broken, &TEXT).err();
        let taken = front.len() as u64;
        assert_eq!(rt; fault, Some(WriteFault { taken }), "at call {call}");
        assert_eq!(rt; broken.bytes(), front.as_bytes());
        assert_eq!(rt; broken.faults(), 1);
    }
    let mut whole = sink(alloc, 12, 5, &[4])?;
    assert_eq!(rt; write_all(&mut whole, &TEXT), Ok(()));
    assert_eq!(rt; whole.bytes(), TEXT.as_slice());
    assert_eq!(rt; whole.faults(), 0);
    Ok(())
}

#[test]
fn a_sink_without_room_fails(rt: HostRuntime) -> Result<(), Fail> {
    let mut small = sink(rt.alloc(), 7, 5, &[])?;
    assert_eq!(rt; write_all(&mut small, &TEXT), Err(WriteFault { taken: 7 }));
    assert_eq!(rt; small.bytes(), b"hello, ".as_slice());
    assert_eq!(rt; small.write(&TEXT), Err(Failed));
    assert_eq!(rt; small.faults(), 2);
    Ok(())
}

#[test]
fn steady_ones_never_fail(rt: HostRuntime) -> Result<(), Fail> {
    let alloc = rt.alloc();
    let many = vec![in alloc; 7; 10000]?;
    let mut steady = SteadySource::new(Bytes::from_vec(many));
    let mut nowhere = SteadySink;
    assert_eq!(rt;
        copy(alloc, &mut steady, &mut nowhere, 10000),
        Copying::Done
    );
    assert_eq!(rt; (steady.faults(), nowhere.faults()), (0, 0));
    Ok(())
}

#[test]
fn a_copy_names_its_fault(rt: HostRuntime) -> Result<(), Fail> {
    let alloc = rt.alloc();
    for (read, write, limit, outcome) in [
        (9, 9, 12, Copying::Done),
        (2, 1, 12, Copying::Unread),
        (9, 1, 11, Copying::TooLong),
        (9, 2, 12, Copying::Unwritten),
    ] {
        let mut from = source(alloc, &TEXT, 7, &[read])?;
        let mut to = sink(alloc, 12, 7, &[write])?;
        assert_eq!(rt; copy(alloc, &mut from, &mut to, limit), outcome);
    }
    Ok(())
}

// A stream that fails once, and then takes and gives nothing.
#[derive(Drop)]
struct Broken(bool);

impl Broken {
    fn count(&mut self) -> io::Result<usize>
        ensures { IfOk result (λ count. count ≡ 0) }
    {
        if self.0 {
            return Ok(0);
        }
        self.0 = true;
        Err(io::Error::from(ErrorKind::BrokenPipe))
    }
}

impl Read for Broken {
    fn read(&mut self, _buf: &mut [u8]) -> io::Result<usize> {
        self.count()
    }
}

impl Write for Broken {
    fn write(&mut self, _buf: &[u8]) -> io::Result<usize> {
        self.count()
    }

    fn flush(&mut self) -> io::Result<()> {
        Ok(())
    }
}

#[test]
fn streams_are_copied(rt: HostRuntime) -> Result<(), Fail> {
    let alloc = rt.alloc();
    let mut from = StdSource::new(TEXT.as_slice());
    let mut copied = Vec::new(alloc);
    let mut to = StdSink::new(&mut copied);
    assert_eq!(rt; copy(alloc, &mut from, &mut to, 12), Copying::Done);
    assert_eq!(rt; (from.faults(), to.faults()), (0, 0));
    assert_eq!(rt; copied.as_slice(), TEXT.as_slice());
    Ok(())
}

#[test]
fn streams_count_their_faults(rt: HostRuntime) -> Result<(), Fail> {
    let alloc = rt.alloc();
    let mut from = StdSource::new(Broken(false));
    assert_eq!(rt;
        read_all(alloc, &mut from, 12).err(),
        Some(ReadFault::Failed)
    );
    assert_eq!(rt; read_all(alloc, &mut from, 12)?.len(), 0);
    assert_eq!(rt; from.faults(), 1);
    let mut to = StdSink::new(Broken(false));
    assert_eq!(rt; write_all(&mut to, &TEXT), Err(WriteFault { taken: 0 }));
    assert_eq!(rt; write_all(&mut to, &TEXT), Err(WriteFault { taken: 0 }));
    assert_eq!(rt; to.faults(), 2);
    Ok(())
}

#[test]
fn faults_are_copied(rt: HostRuntime) -> Result<(), Fail> {
    let alloc = rt.alloc();
    assert_eq!(rt; Failed.copy(alloc)?, Failed);
    for fault in [ReadFault::Memory, ReadFault::Failed, ReadFault::TooLong] {
        assert_eq!(rt; fault.copy(alloc)?, fault);
    }
    let fault = WriteFault { taken: 7 };
    assert_eq!(rt; fault.copy(alloc)?, fault);
    Ok(())
}
