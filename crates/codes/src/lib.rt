// Code keys: the part of a line that is its code, and the key that the code spells.
#![tactic(auto)]

ghost use Rattle.std.specs.Prelude.{◌≡◌};
ghost use Rattle.model.specs.Codes.{trimmed, value_of, read_part, read_line};
ghost use Rattle.codes.specs.Reading.{digit_of, place_of, Keyed, Start, End};

use links::types::{Key, Refusal};

// The most characters of a code, each a place of the key.
const PLACES: usize = 12;

// A key is a number in this base.
const BASE: u64 = 37;

const SPACE: u8 = 32;

// The value of a character, if it has one: digits from 1, letters of either case from 11.
fn value_of(b: u8) -> Option<u64>
    ensures { digit_of result ≡ value_of b }
{
    match b {
        b'0'..=b'9' => Some(u64::from(b - b'0') + 1),
        b'A'..=b'Z' => Some(u64::from(b - b'A') + 11),
        b'a'..=b'z' => Some(u64::from(b - b'a') + 11),
        _ => None,
    }
}

// The value of a place: 0 past the part's end.
fn place_at(part: &[u8], i: usize) -> Option<u64>
    ensures { digit_of result ≡ place_of part.now i }
{
    match part.get(i) {
        Some(b) => value_of(*b),
        None => Some(0),
    }
}

// The key of a part that is a code: its places make a number in which the first counts most.
fn key_of_part(part: &[u8]) -> Result<Key, Refusal>
    ensures { Keyed (read_part part.now) result }
{
    if part.is_empty() || PLACES < part.len() {
        return Err(Refusal::BadCode);
    }
    let mut sum = 0;
    for i in 0..PLACES {
        let value = place_at(part, i).ok_or(Refusal::BadCode)?;
        sum = sum * BASE + value;
    }
    Ok(Key(sum))
}

// How many spaces the line begins with.
pub fn start_of(line: &[u8]) -> usize
    ensures { Start line.now result }
{
    line.iter().take_while(|b| **b == SPACE).count()
}

// How many bytes are left when the spaces at the end are cut.
fn end_of(line: &[u8]) -> usize
    ensures { End line.now result }
{
    line.len() - line.iter().rev().take_while(|b| **b == SPACE).count()
}

// The line without the spaces at both ends, as a part of it.
pub fn trim(line: &[u8]) -> &[u8]
    ensures { result.now ≡ trimmed line.now }
{
    let rest = &line[start_of(line)..];
    &rest[..end_of(rest)]
}

// The key of a line's code.
pub fn code_key(line: &[u8]) -> Result<Key, Refusal>
    ensures { Keyed (read_line line.now) result }
{
    key_of_part(trim(line))
}

// The code itself, a part of the line; empty where the line is refused.
pub fn code_part(line: &[u8]) -> &[u8]
    ensures { result.now ≡ (read_line line.now).part }
{
    let part = trim(line);
    if key_of_part(part).is_ok() {
        part
    } else {
        &part[..0]
    }
}
