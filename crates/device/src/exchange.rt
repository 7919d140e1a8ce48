// Calls and their answers, side by side.

// A call, and the place for its answer.
#[derive(Clone, Copy)]
pub struct Exchange<C, A> {
    pub call: C,
    pub answer: A,
}
