// What is known of an algebra: three states, as the law of its histories speaks of them.
#[derive(Clone, Copy, PartialEq, Eq, Debug)]
pub enum Verdict {
    Undecided,
    // the standard words are a basis
    Sound,
    // they are not: the overlap of these three generators does not vanish
    Degenerate(u64, u64, u64),
}
