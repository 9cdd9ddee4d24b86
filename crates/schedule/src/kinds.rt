// The table of kinds.
ghost use Rattle.std.specs.Prelude.{◌≡◌};
ghost use Rattle.format.specs.Records.{form_of};

use format::{Act, Form, Kind, Schedule};
use world::Request;

// The meaning of each of the 256 kind numbers, by one match with ranges, as document 01 expects.
#[tactic(auto, unfolding(format::specs::Records::form_of))]
pub fn form_of(kind: u8) -> Form
    ensures { result ≡ form_of kind }
{
    match kind {
        1 => Form::Start(Schedule::START_BODY),
        2 => Form::Step(Kind::Request, Request::BYTES),
        3 => Form::Step(Kind::Act(Act::Multicast), Schedule::TWO_NAMES),
        4 => Form::Step(Kind::Act(Act::Arrive), Schedule::TWO_NAMES),
        5 => Form::Step(Kind::Act(Act::Propose), Schedule::TWO_NAMES),
        6 => Form::Step(Kind::Act(Act::Settle), Schedule::TWO_NAMES),
        7 => Form::Step(Kind::Act(Act::Deliver), Schedule::NAME),
        8 => Form::Step(Kind::Act(Act::ForgePacket), Schedule::FORGED_PACKET),
        9 => Form::Step(Kind::Act(Act::ForgeSend), Schedule::FORGED_SEND),
        10 => Form::Step(Kind::Act(Act::ForgeReceive), Schedule::FORGED_RECEIVE),
        0 | 11..=255 => Form::Bad,
    }
}
