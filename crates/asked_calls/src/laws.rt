//! A law of the words, the contract of a function that does nothing.
ghost use Rattle.asked_calls.specs.Laws.{WordsAreOneCall};

/// Words are at most one call.
pub fn words_are_one_call()
    ensures { WordsAreOneCall }
{}
