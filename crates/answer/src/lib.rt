// The answer of a case text: the text is read by the rules of its edition, and the tables that it holds are solved.
#![tactic(auto)]

ghost use Rattle.std.specs.Prelude.{◌≡◌};
ghost use Rattle.outcome.specs.Outcome.{outs_lent, SameOuts};
ghost use Rattle.answered.specs.TextAnswer.{answered_with, Few, text_answer_of};

use answered::FlowAnswer;
use outcome::AnswerColumnsMut;
use trailer::Edition;

// Reads a text and solves its tables, by the rules of its edition. The columns hold a solved answer.
pub fn answer(text: &[u8], out: &mut AnswerColumnsMut, w: &mut [f64]) -> FlowAnswer
    ensures answer { answered_with result.answered (outs_lent out.new) result.flows w.new ≡ text_answer_of text.now (outs_lent out.old) w.old }
    ensures few { Few result.answered }
    ensures same_columns { SameOuts out.old out.new }
{
    match trailer::edition_of(text) {
        Edition::First => {
            let answered = first_answer::answer_first(text, out, w);
            let flows = flows::blank();
            FlowAnswer { answered, flows }
        }
        Edition::Second => second_answer::answer_second(text, out, w),
    }
}
