// The batch call: command records of 16 bytes in, answer records of 6 bytes out. The tree is checked once a call.
#![tactic(auto)]

ghost use Rattle.std.specs.Prelude.{◌≡◌};
ghost use Rattle.model.specs.Batch.{batch as batched};
ghost use Rattle.links.specs.Bundles.{lent_in, lent_out};
ghost use Rattle.batch.specs.Batched.{batch_told};

use links::types::{Lent, Refusal, Slot, View};

// Works the records in their order and writes an answer for each; what lies past the last answer stays. Tells how many
// answers there are, or why the batch is refused as a whole.
pub fn batch(lent: Lent, input: &[u8], answers: &mut [u8]) -> Result<u32, Refusal>
    ensures { batch_told result answers.new (lent_out lent.exit) ≡ batched input.now answers.old (lent_in lent.entry) }
{
    let Lent(left, right, pc, key, root) = lent;
    let size = input.len();
    if size % records::RECORD != 0 || records::LONGEST < size {
        return Err(Refusal::BadLength);
    }
    let count = size / records::RECORD;
    if answers.len() < records::ANSWER * count {
        return Err(Refusal::Short);
    }
    wellformed::checked(View {
        left,
        right,
        pc,
        key,
        root: Slot(*root),
    })?;
    runs::answer_all(Lent(left, right, pc, key, root), input, answers, count);
    Ok(count as u32)
}
