// Terms put into a list at the end of its memory, and taken out of it.
ghost use Rattle.std.specs.Prelude.{◌≡◌, ◌+◌, ◌-◌, ◌<◌, ◌≤◌, [], ◌∷◌, ◌++◌, length, take, drop, slice_index_or};
ghost use Rattle.std.specs.List.{insert, remove};
ghost use Rattle.kept.specs.Terms.{nil_term};
ghost use Rattle.words.specs.Terms.{blank};

use std::mem::replace;
use words::term::Term;

// The list from `start` on gets t before the term at p: those before p move forward by one place.
pub fn put_in(work: &mut [Term], start: usize, p: usize, t: Term)
    requires room { 0 < start }
    requires from { start ≤ p }
    requires to { p ≤ length work.old }
    ensures list { drop (start - 1) work.new ≡ insert (drop start work.old) (p - start) t }
    ensures rest { take (start - 1) work.new ≡ take (start - 1) work.old }
{
    work[start - 1] = t;
    work[start - 1..p].rotate_left(1);
}

// The list from `start` on loses the term at p: those before it move back by one place, and the free place is blank.
pub fn take_out(work: &mut [Term], start: usize, p: usize)
    requires from { start ≤ p }
    requires to { p < length work.old }
    ensures list { drop (start + 1) work.new ≡ remove (drop start work.old) (p - start) }
    ensures rest { take (start + 1) work.new ≡ take start work.old ++ blank ∷ [] }
{
    work[start..p + 1].rotate_right(1);
    take_first(work, start);
}

// Takes the first term of the list from `start` on out; its place is blank then.
pub fn take_first(work: &mut [Term], start: usize) -> Term
    requires { start < length work.old }
    ensures value { result ≡ slice_index_or work.old start nil_term }
    ensures list { drop (start + 1) work.new ≡ drop (start + 1) work.old }
    ensures rest { take (start + 1) work.new ≡ take start work.old ++ blank ∷ [] }
{
    replace(&mut work[start], Term::blank())
}
