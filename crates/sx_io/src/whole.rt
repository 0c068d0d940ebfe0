// Reading to the end, and writing to the end.
ghost use Rattle.std.specs.Prelude.{◌≡◌, ◌≤◌};
ghost use Rattle.sx_io.specs.Whole.{ReadsAll, WritesAll};
ghost use Rattle.sx_io.specs.declared.whole.ReadFault.TheVariants as fault;

use crate::{Bytes, Failed, Sink, Source};
use std::alloc::{AllocError, Global};
use sx_lists::Copied;
use thiserror::Error;

// How many bytes are read at a time.
const PIECE: usize = 4096;

/// Why a source wasn't read to its end.
#[derive(Clone, Copy, Debug, PartialEq, Eq, Error)]
pub enum ReadFault {
    /// Want of memory.
    #[error("out of memory")]
    Memory,
    /// A read failed.
    #[error("a read failed")]
    Failed,
    /// There are more bytes than the limit.
    #[error("more bytes than the limit")]
    TooLong,
}

impl Copied for ReadFault {
    fn copy(&self, _alloc: Global) -> Result<Self, AllocError> {
        Ok(*self)
    }
}

impl From<AllocError> for ReadFault {
    ghost from_gives = { λ _ e. e ≡ fault.Memory };

    fn from(_: AllocError) -> Self {
        ReadFault::Memory
    }
}

impl From<Failed> for ReadFault {
    ghost from_gives = { λ _ e. e ≡ fault.Failed };

    fn from(_: Failed) -> Self {
        ReadFault::Failed
    }
}

/// A write that failed after so many bytes were taken.
#[derive(Clone, Copy, Debug, PartialEq, Eq, Error)]
#[error("a write failed after {taken} bytes")]
pub struct WriteFault {
    /// How many bytes the sink took.
    pub taken: u64,
}

impl Copied for WriteFault {
    fn copy(&self, _alloc: Global) -> Result<Self, AllocError> {
        Ok(*self)
    }
}

/// Reads to the end. A source with more bytes than the limit is read one byte past it.
pub fn read_all<S: Source>(alloc: Global, source: &mut S, limit: u64) -> Result<Bytes, ReadFault>
    ensures answer { ReadsAll (S.left source.old) (S.left source.new) (S.faults source.old) (S.faults source.new) limit result }
    ensures later { S.faults source.old ≤ S.faults source.new }
{
    let mut bytes = Vec::new(alloc);
    let mut piece = [0; PIECE];
    while bytes.len() as u64 <= limit {
        let room = ((limit - bytes.len() as u64).min(PIECE as u64 - 1) + 1) as usize;
        let count = source.read(&mut piece[..room])?;
        if count == 0 {
            return Ok(Bytes::from_vec(bytes));
        }
        bytes.extend_from_slice(&piece[..count])?;
    }
    Err(ReadFault::TooLong)
}

/// Writes all the bytes, and takes no memory.
pub fn write_all<K: Sink>(sink: &mut K, bytes: &[u8]) -> Result<(), WriteFault>
    ensures answer { WritesAll (K.written sink.old) (K.written sink.new) (K.faults sink.old) (K.faults sink.new) bytes.now result }
    ensures later { K.faults sink.old ≤ K.faults sink.new }
{
    let mut taken = 0;
    while taken < bytes.len() {
        match sink.write(bytes.split_at(taken).1) {
            Ok(count) => taken += count,
            Err(Failed) => {
                return Err(WriteFault {
                    taken: taken as u64,
                });
            }
        }
    }
    Ok(())
}
