//! The laws of this crate, as the contract of a function that does nothing.
ghost use Rattle.spl_byte_tests.specs.Laws.{ByteComparisonsAreWhole, ByteComparisonsSimulate, TextComparisonsAreWhole, TextComparisonsSimulate};

/// Relations of the bytes from two addresses on, by a count, and of the bytes from an address on with a string.
pub fn byte_comparisons_simulate()
    ensures whole { ByteComparisonsAreWhole }
    ensures simulates { ByteComparisonsSimulate }
    ensures text_whole { TextComparisonsAreWhole }
    ensures text_simulates { TextComparisonsSimulate }
{}
