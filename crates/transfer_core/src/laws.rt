// What holds of the sealed regions of every plan, and of every list of steps.
ghost use Rattle.key_codes.specs.Placement.{AreLawful};
ghost use Rattle.transfer_core.specs.Answers.{AnswersExactly, AnswersWhatIsPut};
ghost use Rattle.transfer_core.specs.Plans.{IsValid, Shape};
ghost use Rattle.transfer_core.specs.Sealed.{IsSealed, sealed};
ghost use Rattle.transfer_core.specs.Steps.{EveryListIsSound, ReadsSealedWords};

/// A sealed region of a valid plan is, word by word, the or of the masks of the items that pass its pipe.
pub fn seals_what_passes()
    ensures { (s : Shape) → IsValid s → IsSealed s (sealed s) }
{}

/// A region of a valid plan answers yes, once it is sealed, for an item that has the number of one that was put into it; with exact
/// placements for no others.
pub fn answers_by_numbers()
    ensures put { (s : Shape) → IsValid s → AnswersWhatIsPut s }
    ensures exact { (s : Shape) → IsValid s → AnswersExactly s }
{}

/// Each list of allowed steps from the first state leads to a sound one, however many actors there are.
pub fn every_list_is_sound()
    ensures { (s : Shape) → IsValid s → AreLawful s.places → EveryListIsSound s }
{}

/// What an actor reads of a region whose pipe it has seen full is the sealed word.
pub fn reads_sealed_words()
    ensures { (s : Shape) → IsValid s → AreLawful s.places → ReadsSealedWords s }
{}
