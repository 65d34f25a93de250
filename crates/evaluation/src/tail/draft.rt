// A tail while its pieces are taken.
use words::term::Term;
use words::word::Word;

// The terms before the last; the code and the word of the last, which may still grow.
#[derive(Drop)]
pub(crate) struct Draft {
    done: Vec<Term>,
    code: u64,
    word: Word,
}

mod methods;
