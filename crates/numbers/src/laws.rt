// What the two kinds compute, in terms of the integers, and that what they write reads back.
ghost use Rattle.numbers.specs.Readings.{SumsWrap, DifferencesWrap, ProductsWrap, ExactInRange, PacksEveryNumber, UnpacksEveryWord};
ghost use Rattle.numbers.specs.Writing.{DigitsReadBack, BinaryReadsBack, DecimalReadsBack, EndsWrap};

// Binary words stand for the integers from -2^31 to 2^31 - 1, and answers are the integers' modulo 2^32;
// decimal words stand for the numbers below 100,000,000, each for one.
pub fn readings_correspond()
    ensures sums { SumsWrap }
    ensures differences { DifferencesWrap }
    ensures products { ProductsWrap }
    ensures exact { ExactInRange }
    ensures packs { PacksEveryNumber }
    ensures unpacks { UnpacksEveryWord }
    ensures ends { EndsWrap }
{}

// A number that is written without a minus sign, read as a literal, is the number.
pub fn writing_reads_back()
    ensures digits { DigitsReadBack }
    ensures binary { BinaryReadsBack }
    ensures decimal { DecimalReadsBack }
{}
