// What the record reader tells.
use crate::kinds::Kind;
use crate::refusal::Refusal;

// What stands at an offset after the start. No Result: taken apart by `let else`, a form that document 01 expects.
#[derive(Clone, Copy)]
pub enum Read {
    // A whole record: where its body starts, and where the next record does.
    Record {
        kind: Kind,
        start: usize,
        next: usize,
    },
    Refused(Refusal),
    End,
}
