// The law of the reader.
ghost use Rattle.grammar.specs.Laws.{FormsRead, LongRefused, DeepRefused, OthersRefused};

// For every line: exactly the writings of forms are read, each as its form; and each of the three refusals is given exactly on its condition.
pub fn lines_are_read()
    ensures { FormsRead × LongRefused × DeepRefused × OthersRefused }
{}
