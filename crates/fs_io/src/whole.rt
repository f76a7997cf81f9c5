ghost use Rattle.std.specs.Prelude.{◌≡◌, ◌+◌, ◌≤◌, ℕ, List, vec_len, length, IfOk, OnOk, OnErr, IsErrOf};
ghost use Rattle.std.specs.Io.KnownBytes.{Appends, Consumes, IsAtEnd};
ghost use Rattle.fs_io.specs.Faults.{Rose, last_count};
ghost use Rattle.fs_io.specs.Whole.{most_bytes, TakesPrefix, AppendsPrefix};

use crate::streams::{Sink, Source};
use std::alloc::Global;

/// Out of memory.
#[derive(Clone, Copy, Debug, PartialEq, Eq)]
pub struct NoMemory;

/// Why not everything was read.
#[derive(Clone, Copy, Debug, PartialEq, Eq)]
pub enum ReadStop {
    /// More than 1,048,576 bytes came.
    TooLong,
    /// The source failed.
    ReadFault,
    /// Out of memory.
    NoMemory,
}

/// The sink failed.
#[derive(Clone, Copy, Debug, PartialEq, Eq)]
pub struct WriteFault;

const MOST_BYTES: usize = 1_048_576;

/// Reads to the end of a source, at most 1,048,576 bytes.
///
/// `TooLong` once byte 1,048,577 was taken; `ReadFault` exactly where the source counted a fault in
/// this call; `NoMemory` at any other time. After each of them a prefix of what was left was taken.
pub fn read_all<S: Source>(alloc: Global, source: &mut S) -> Result<Vec<u8>, ReadStop>
    ensures bytes { IfOk result (λ bytes. Consumes (S.left source.old) (S.left source.new) bytes.items) }
    ensures end { OnOk result (IsAtEnd (S.left source.new)) }
    ensures short { IfOk result (λ bytes. vec_len bytes ≤ most_bytes) }
    ensures too_long { IsErrOf result ReadStop.TooLong → (taken : List ℕ)
        × Consumes (S.left source.old) (S.left source.new) taken × (length taken ≡ most_bytes + 1) }
    ensures read_fault { IsErrOf result ReadStop.ReadFault
        → Rose (S.faults source.old) (S.faults source.new) }
    ensures kept { ¬ IsErrOf result ReadStop.ReadFault → S.faults source.new ≡ S.faults source.old }
    ensures prefix { OnErr result (TakesPrefix (S.left source.old) (S.left source.new)) }
    ensures never_falls { S.faults source.old ≤ S.faults source.new }
{
    let mut bytes = Vec::new(alloc);
    let mut buffer = [0u8; 4096];
    while bytes.len() <= MOST_BYTES {
        let room = buffer.len().min(MOST_BYTES + 1 - bytes.len());
        let Ok(n) = source.take(&mut buffer[..room]) else {
            return Err(ReadStop::ReadFault);
        };
        if n == 0 {
            return Ok(bytes);
        }
        if bytes.extend_from_slice(&buffer[..n]).is_err() {
            return Err(ReadStop::NoMemory);
        }
    }
    Err(ReadStop::TooLong)
}

/// Writes a whole piece. `WriteFault` exactly where the sink counted a fault in this call; then a
/// prefix of the piece was appended.
pub fn write_all<S: Sink>(sink: &mut S, piece: &[u8]) -> Result<(), WriteFault>
    ensures bytes { OnOk result (Appends (S.held sink.old) (S.held sink.new) piece.now) }
    ensures write_fault { OnErr result (Rose (S.faults sink.old) (S.faults sink.new)) }
    ensures kept { OnOk result (S.faults sink.new ≡ S.faults sink.old) }
    ensures prefix { OnErr result (AppendsPrefix (S.held sink.old) (S.held sink.new) piece.now) }
    ensures never_falls { S.faults sink.old ≤ S.faults sink.new }
{
    let mut at = 0;
    while at < piece.len() {
        let Ok(n) = sink.put(&piece[at..]) else {
            return Err(WriteFault);
        };
        at += n;
    }
    Ok(())
}
