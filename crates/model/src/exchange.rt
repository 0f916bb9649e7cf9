use crate::{Answer, Call};
use refusal::Refusal;

/// A call and what came of it: its kind, the caller's space for a read or the set for a resume, and room for the answer.
#[derive(Drop)]
pub struct Exchange {
    pub call: Call,
    pub space: Vec<u16>,
    /// None where the call is not made yet.
    pub answer: Option<Result<Answer, Refusal>>,
}
