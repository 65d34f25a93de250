// Answers as they are printed, byte by byte.
ghost use Rattle.answers.specs.Examples.{Printed};

pub fn answers_are_printed()
    ensures { Printed }
{}
