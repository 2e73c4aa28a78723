// The records of a batch on well-formed arrays, one after another, each with its answer.
#![tactic(auto)]

ghost use Rattle.links.specs.Bundles.{lent_in, lent_out};
ghost use Rattle.runs.specs.Runs.{AtPre, AnsweredAt, AllPre, Ran};

use links::types::Lent;

// The record at an index, and its answer at the same index.
fn answer_at(lent: Lent, input: &[u8], answers: &mut [u8], index: usize)
    requires { AtPre index input.now answers.old (lent_in lent) }
    ensures { AnsweredAt index input.now answers.old answers.new (lent_in lent.entry) (lent_out lent.exit) }
{
    let Lent(left, right, pc, key, root) = lent;
    let record = records::record_at(input, records::RECORD * index);
    let answer = commands::obey(Lent(left, right, pc, key, root), record);
    records::put_answer(answers, records::ANSWER * index, answer);
}

// The first `count` records, in their order.
pub fn answer_all(lent: Lent, input: &[u8], answers: &mut [u8], count: usize)
    requires { AllPre count input.now answers.old (lent_in lent) }
    ensures { Ran count input.now answers.old answers.new (lent_in lent.entry) (lent_out lent.exit) }
{
    let Lent(left, right, pc, key, root) = lent;
    // By index: after a loop over `chunks_exact_mut` a proof knows how many bytes there are, and not which.
    for index in 0..count {
        answer_at(Lent(left, right, pc, key, root), input, answers, index);
    }
}
