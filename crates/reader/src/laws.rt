// Theorems on reading, each the contract of a function.
ghost use Rattle.reader.specs.Language.{TokensAreLongest, RefusalsHaveCauses, LayoutsAreRead, CausesAreRefused};

// A text that is read has its tokens in order, only separators around them, and each is the longest there.
pub fn tokens_are_longest()
    ensures { TokensAreLongest }
{}

// A text that is refused is too long, or reading comes to a byte where no token can be read.
pub fn refusals_have_causes()
    ensures { RefusalsHaveCauses }
{}

// A text that is laid out as tokens is read as those tokens.
pub fn layouts_are_read()
    ensures { LayoutsAreRead }
{}

// A text that is too long, or where reading comes to such a byte, is refused there.
pub fn causes_are_refused()
    ensures { CausesAreRefused }
{}
