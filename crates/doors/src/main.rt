// The program: 2,048 slots that start unlinked, command records from standard input, the answers to standard output.
#![tactic(auto)]

use links::types::Lent;
use std::io;
use std::io::{Read, Write};

// The bytes of the answers to a batch.
const ANSWERS: usize = records::LONGEST / records::RECORD * records::ANSWER;

// Reads batches, and answers each as it comes, until the input ends.
fn run<R: Read, W: Write>(lent: Lent, source: &mut R, sink: &mut W) -> io::Result<()> {
    let Lent(left, right, pc, key, root) = lent;
    // Nothing says that the input ends, so the turns are counted up to a number that no run reaches.
    for _ in 0..u64::MAX {
        let mut input = [0u8; records::LONGEST];
        let mut answers = [0u8; ANSWERS];
        let n = streams::fill(source, &mut input)?;
        if n == 0 {
            break;
        }
        let size = serving::respond(Lent(left, right, pc, key, root), &input[..n], &mut answers);
        sink.write_all(&answers[..size])?;
    }
    Ok(())
}

fn main(rt: HostRuntime) -> io::Result<()> {
    let mut left = [0u32; links::CAPACITY];
    let mut right = [0u32; links::CAPACITY];
    let mut pc = [0u32; links::CAPACITY];
    let mut key = [0u64; links::CAPACITY];
    let mut root = 0u32;
    run(
        Lent(&mut left, &mut right, &mut pc, &mut key, &mut root),
        &mut rt.stdin(),
        &mut rt.stdout(),
    )
}
