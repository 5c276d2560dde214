// The listed boards, from the bytes of their texts to rest, by the definitions alone.
#![tactic(auto)]

ghost use Rattle.cases.specs.Listed.{ListedHold};

// Each listed text is refused as said, or its board rests after as many moves as said, with that verdict and those words in its cells.
pub fn listed_boards_hold()
    ensures { ListedHold }
{}
