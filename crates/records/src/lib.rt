// Command records of 16 bytes and answer records of 6, numbers little endian (01, "Batch bytes and the program").
#![tactic(auto)]

pub mod types;

ghost use Rattle.std.specs.Prelude.{◌+◌, ◌≤◌, length};
ghost use Rattle.model.specs.Batch.{answer_bytes};
ghost use Rattle.model.specs.Limits.{record_size, answer_size};
ghost use Rattle.links.specs.Outcomes.{told};
ghost use Rattle.records.specs.Records.{ReadsField, ReadsRecord, Lays, answer_in};

use links::types::{Answer, Key, Slot};
use types::Record;

// The bytes of a command record.
pub const RECORD: usize = 16;
// The bytes of an answer record.
pub const ANSWER: usize = 6;
// The most bytes of a batch.
pub const LONGEST: usize = 16384;
// The mark of a command record, 43 4E.
pub const MARK: u32 = 0x4E43;

// The number of two bytes from a place on. Read one by one: a part taken as an array would test its length at run time.
pub fn half(bytes: &[u8], at: usize) -> u32
    requires { at + 2 ≤ length bytes.now }
    ensures { ReadsField at 2 bytes.now result }
{
    u32::from(u16::from_le_bytes([bytes[at], bytes[at + 1]]))
}

// The number of eight bytes.
pub fn long(bytes: &[u8], at: usize) -> u64
    requires { at + 8 ≤ length bytes.now }
    ensures { ReadsField at 8 bytes.now result }
{
    u64::from_le_bytes([
        bytes[at],
        bytes[at + 1],
        bytes[at + 2],
        bytes[at + 3],
        bytes[at + 4],
        bytes[at + 5],
        bytes[at + 6],
        bytes[at + 7],
    ])
}

// The command record that starts at a byte.
pub fn record_at(bytes: &[u8], at: usize) -> Record
    requires { at + record_size ≤ length bytes.now }
    ensures { ReadsRecord at bytes.now result }
{
    Record {
        mark: half(bytes, at),
        operation: u32::from(bytes[at + 2]),
        kind: u32::from(bytes[at + 3]),
        position: Slot(half(bytes, at + 4)),
        slot: Slot(half(bytes, at + 6)),
        key: Key(long(bytes, at + 8)),
    }
}

// Writes the bytes of an answer from a place on: its mark 41 4E, the code and the probes, the slot. Stored one by one:
// an array that is copied here would be read back from the stack before it has arrived there.
pub fn put_bytes(bytes: &mut [u8], at: usize, code: u8, probes: u32, slot: Slot)
    requires { at + answer_size ≤ length bytes.old }
    ensures { Lays at answer_size (answer_in code probes slot.0) bytes.old bytes.new }
{
    let [low, high, ..] = slot.0.to_le_bytes();
    let [probes, ..] = probes.to_le_bytes();
    bytes[at] = 0x41;
    bytes[at + 1] = 0x4E;
    bytes[at + 2] = code;
    bytes[at + 3] = probes;
    bytes[at + 4] = low;
    bytes[at + 5] = high;
}

// Writes an answer record from a place on.
pub fn put_answer(bytes: &mut [u8], at: usize, answer: Answer)
    requires { at + answer_size ≤ length bytes.old }
    ensures { Lays at answer_size (answer_bytes (told answer)) bytes.old bytes.new }
{
    match answer {
        Ok(done) => put_bytes(bytes, at, 0, done.probes, done.slot),
        Err(why) => put_bytes(bytes, at, u8::from(why), 0, Slot(0)),
    }
}
