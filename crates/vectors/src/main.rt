// Replays stored command records on twelve slots that start unlinked, each as a batch of its own, and writes what each
// leaves: its answer, the root, and the numbers of every slot.
#![tactic(auto)]

use links::types::{Lent, Slot, View};
use std::io;
use std::io::Write;

const SLOTS: usize = 12;

// Writes the lowest two bytes of a number.
fn put_half<W: Write>(sink: &mut W, number: u32) -> io::Result<()> {
    let [low, high, ..] = number.to_le_bytes();
    sink.write_all(&[low, high])
}

// Writes the root and the numbers of all slots.
fn put_tree<W: Write>(sink: &mut W, tree: View) -> io::Result<()> {
    put_half(sink, tree.root.0)?;
    for (((left, right), pc), key) in tree.left.iter().zip(tree.right).zip(tree.pc).zip(tree.key) {
        put_half(sink, *left)?;
        put_half(sink, *right)?;
        put_half(sink, *pc)?;
        sink.write_all(&key.to_le_bytes())?;
    }
    Ok(())
}

fn main(rt: HostRuntime) -> io::Result<()> {
    let mut left = [0u32; SLOTS];
    let mut right = [0u32; SLOTS];
    let mut pc = [0u32; SLOTS];
    let mut key = [0u64; SLOTS];
    let mut root = 0u32;
    let mut input = [0u8; records::RECORD];
    let mut answer = [0u8; records::ANSWER];
    let mut source = rt.stdin();
    let mut sink = rt.stdout();
    // Nothing says that the input ends, so the turns are counted up to a number that no run reaches.
    for _ in 0..u64::MAX {
        let n = streams::fill(&mut source, &mut input)?;
        if n == 0 {
            break;
        }
        // One record with room for its answer, on a well-formed tree: such a batch is never refused as a whole.
        let _ = batch::batch(
            Lent(&mut left, &mut right, &mut pc, &mut key, &mut root),
            &input,
            &mut answer,
        );
        sink.write_all(&answer)?;
        let tree = View {
            left: &left,
            right: &right,
            pc: &pc,
            key: &key,
            root: Slot(root),
        };
        put_tree(&mut sink, tree)?;
    }
    Ok(())
}
