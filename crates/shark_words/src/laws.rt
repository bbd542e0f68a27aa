// What holds of all words, stated on a function that does nothing.
ghost use Rattle.shark_words.specs.FirstFaults.{FaultsAreFirst};

/// The fault of words that are refused is the first: nothing is wrong with what stands before it alone.
pub fn told_faults_are_the_first()
    ensures { FaultsAreFirst }
{}
