// The record reader.
ghost use Rattle.std.specs.Prelude.{◌≡◌};
ghost use Rattle.format.specs.Records.{read_at};

use crate::kinds::form_of;
use format::{Form, Read, Refusal};

// The record at an offset after the start, or why it is none.
#[tactic(auto, unfolding(format::specs::Records::read_at, format::specs::Records::read_by))]
pub fn read_at(s: &[u8], at: usize) -> Read
    ensures { result ≡ read_at s.now at }
{
    if s.len() <= at {
        return Read::End;
    }
    let start = at + 1;
    match form_of(s[at]) {
        Form::Bad => Read::Refused(Refusal::BadKind),
        Form::Start(_) => Read::Refused(Refusal::SecondStart),
        Form::Step(kind, body) => {
            if body <= s.len() - start {
                Read::Record {
                    kind,
                    start,
                    next: start + body,
                }
            } else {
                Read::Refused(Refusal::Cut)
            }
        }
    }
}
