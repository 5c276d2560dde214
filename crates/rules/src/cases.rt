// Boards to try, from the definitions.
ghost use Rattle.rules.specs.Boards.{CasesHold};
ghost use Rattle.rules.specs.Samples.{SamplesHold};

// Each listed board rests after as many moves as said, with that verdict and those words in its cells.
pub fn listed_cases_hold()
    ensures cases { CasesHold }
    ensures samples { SamplesHold }
{}
