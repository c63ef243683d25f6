// The answer to a request, on the list that was offered.
ghost use Rattle.std.specs.Prelude.{◌≡◌};
ghost use Rattle.verdicts.specs.Refusals.{passed_by};
ghost use Rattle.requests.specs.Answering.{answer_refusals};
ghost use Rattle.requests.specs.Promises.{AnswersRequest};

use crate::judging::judged;
use crate::taking::position;
use lists::Words;
use verdicts::Verdict;

fn answered(list: Words, word: u32) -> Result<(), Verdict>
    ensures { result ≡ passed_by (answer_refusals list word) }
{
    lists::shape(list).passed()?;
    let named = position(word);
    if named < 1 || list.count < named {
        return Err(Verdict::placeless(verdicts::POSITION));
    }
    // The shape has passed, so each word is an object: the proof shows that 12 is never given here.
    let d = objects::decode(list.words[(named - 1) as usize]);
    let object = d.ok_or(Verdict::placeless(verdicts::KIND_NOT_ALLOWED))?;
    judged(object, word)
}

// Whether a request word may be accepted on the list that was advertised. Reserved bits of the word are ignored. Refusals: those of
// `lists::shape`, with their places; then 20, 23, 22, 24, 25, with place 0.
pub fn answer(list: Words, word: u32) -> Verdict
    ensures { AnswersRequest list word result }
{
    Verdict::from(answered(list, word))
}
