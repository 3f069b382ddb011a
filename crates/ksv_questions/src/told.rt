//! What is told of a question.

use ksv_texts::Refusal;

/// What is told of a question: the reply to it, its LF aside.
#[derive(Drop)]
pub enum Told {
    /// A text: the answer, or the fault that prevents it.
    Text(String),
    /// The question is refused. The reply is this refusal's `refusal_text`, which takes no memory.
    Refused(Refusal),
}
