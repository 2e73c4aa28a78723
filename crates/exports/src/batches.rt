// The batch call: commands and answers as bytes.
ghost use Rattle.model.specs.Lent.{lent};
ghost use Rattle.model.specs.Batch.{batch as batched};
ghost use Rattle.exports.specs.Told.{BatchTold};

use crate::types::BatchReply;
use links::types::Lent;

// Works command records one after another and writes an answer record for each; what lies past the last one stays.
#[unsafe(no_mangle)]
pub extern "C" fn lichenbrooch_batch(
    left: &mut [u32],
    right: &mut [u32],
    pc: &mut [u32],
    key: &mut [u64],
    root: &mut u32,
    commands: &[u8],
    answers: &mut [u8],
) -> BatchReply
    ensures { BatchTold result answers.new
        (lent left.new right.new pc.new key.new root.new)
        (batched commands.now answers.old
        (lent left.old right.old pc.old key.old root.old)) }
{
    BatchReply::from(batch::batch(Lent(left, right, pc, key, root), commands, answers))
}
