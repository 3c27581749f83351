// What lines say, apart from how they are written.
ghost use Rattle.review.specs.Digits.{DigitsAreTheirNumbers};
ghost use Rattle.review.specs.Lines.{MovesAreTold};

// Digits have their number's value, and no leading 0 unless it is 0.
pub fn digits_are_their_numbers()
    ensures { DigitsAreTheirNumbers }
{}

// A move of the left thread is L and its choice, one of the right R and its choice.
pub fn moves_are_told()
    ensures { MovesAreTold }
{}
