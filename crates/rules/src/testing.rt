// Tests in order, and those that several rules share: the answer of the first that fails, or what was found.
ghost use Rattle.std.specs.Prelude.{◌≡◌, Result};
ghost use Rattle.search.specs.Tests.{must};
ghost use Rattle.std.specs.Fn.{FnOnceReturnsAtMut};
ghost use Rattle.protocol.specs.declared.answer.Answer.{Answer};
ghost use Rattle.rules.specs.Tested.{told, correct_of, found_of};

use protocol::{Answer, Boxes, Ruling};
use world::Roster;

// What must hold, and the answer where it does not.
#[tactic(auto, unfolding(search::specs::Tests::must))]
pub(crate) fn must(holds: bool, refusal: Answer) -> Result<(), Answer>
    ensures { result ≡ must holds (Err refusal) (Ok tt) }
{
    if holds { Ok(()) } else { Err(refusal) }
}

// The answer, of a step that was taken or of the test that refused it.
pub(crate) fn told(tried: Result<Answer, Answer>) -> Answer
    ensures { result ≡ told tried }
{
    tried.unwrap_or_else(|refusal| refusal)
}

// A member, and correct: 4, 5.
#[tactic(auto, unfolding(search::specs::Tests::must))]
pub(crate) fn correct(roster: Roster, server: u8) -> Result<(), Answer>
    ensures { result ≡ correct_of roster server }
{
    must(roster.member(server), Answer::BadServer)?;
    must(!roster.is_faulty(server), Answer::WrongSide)
}

// The place of the execution of a correct server's entry at a stage: 4, 5, 6, 2.
#[tactic(auto, unfolding(search::specs::Tests::must))]
pub(crate) fn found(
    roster: Roster,
    server: u8,
    place: u8,
    stage: u8,
    b: &Boxes,
) -> Result<usize, Answer>
    ensures { result ≡ found_of roster server place stage b.now }
{
    correct(roster, server)?;
    let e = b.hold.at(place);
    must(e.stage == stage, Answer::NoSuch)?;
    b.executions.find(e.sending.id).ok_or(Answer::Wait)
}

// A rule tried on the boxes: its answer, and the boxes after.
pub(crate) fn ruled<F: FnOnce(&mut Boxes) -> Result<Answer, Answer>>(b: Boxes, rule: F) -> Ruling
    requires { F.IsAlwaysCallable rule }
    ensures { (tried : Result Answer Answer)
        × FnOnceReturnsAtMut F.FnOnce rule b tried result.boxes × (result.answer ≡ told tried) }
{
    let mut boxes = b;
    let answer = told(rule(&mut boxes));
    Ruling { answer, boxes }
}
