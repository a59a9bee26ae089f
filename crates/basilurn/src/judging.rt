// Judging one assignment.
ghost use Rattle.std.specs.Prelude.{◌≡◌};
ghost use Rattle.basilurn.specs.Judgements.{PackedJudged};

use crate::packing::pack;

// Judges one assignment: the first unmet row (0 if none), and its vector in `values`.
#[unsafe(no_mangle)]
pub extern "C" fn basilurn_judge(
    terms: &[i32],
    rows: &[i64],
    assignment: u64,
    values: &mut [i64; 4],
) -> u64
    ensures { PackedJudged terms.now rows.now assignment values.new result }
{
    let judged = judge::judge_assignment(terms, rows, assignment);
    *values = match judged {
        Ok(judgement) => judgement.values,
        Err(_) => [0; 4],
    };
    pack(judged.map(|judgement| judgement.row))
}
