// What follows from the definitions of taking, of a stretch and of a count.
ghost use Rattle.banks.specs.Laws.{TakesCommute, ManyTakes, StretchReads, CountedAdds};

// Takes from two ports come to the same in either order; after n takes from a port its first n words are gone;
// a tape's words are those of the memory, and a counter's are multiples of its stride above its start.
pub fn takes_are_orderly()
    ensures commute { TakesCommute }
    ensures many { ManyTakes }
    ensures stretch { StretchReads }
    ensures counted { CountedAdds }
{}
