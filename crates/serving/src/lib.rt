// What the program does between a read and a write: the answers to the records that were read.
#![tactic(auto)]

ghost use Rattle.links.specs.Bundles.{lent_in, lent_out};
ghost use Rattle.serving.specs.Serving.{RespondPre, Responded};

use links::types::{Lent, Refusal};

// Answers the whole records, and a last one that is cut off with BadRecord; tells how many bytes the answers take.
pub fn respond(lent: Lent, input: &[u8], answers: &mut [u8]) -> usize
    requires { RespondPre input.now answers.old }
    ensures { Responded input.now answers.old answers.new (lent_in lent.entry) (lent_out lent.exit) result }
{
    let Lent(left, right, pc, key, root) = lent;
    let (whole, tail) = input.split_at(input.len() - input.len() % records::RECORD);
    let count = batch::batch(Lent(left, right, pc, key, root), whole, answers).unwrap_or(0);
    let end = records::ANSWER * count as usize;
    if tail.is_empty() {
        return end;
    }
    records::put_answer(answers, end, Err(Refusal::BadRecord));
    end + records::ANSWER
}
