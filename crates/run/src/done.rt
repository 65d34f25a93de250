// The terms that are done: they stand at the front of a lent memory, and the places behind them are free.
ghost use Rattle.std.specs.Prelude.{◌≤◌, length};

use words::term::Term;

#[derive(Drop)]
pub struct Done<'a> {
    memory: &'a mut [Term],
    count: usize,
    ghost within: { count ≤ length memory.now },
}

mod methods;
