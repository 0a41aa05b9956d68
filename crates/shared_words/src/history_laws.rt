//! Laws of legal histories, as contracts.

ghost use Rattle.shared_words.specs.Writes.{OwnWritesAreSeen, WordIsFreedBetween};

/// A step on a word that its own log has written before answers that write or a later one.
pub fn own_write_law()
    ensures { OwnWritesAreSeen }
{}

/// Two compare and exchanges of 0 on one word that both win have a write of that word between them.
pub fn won_twice_law()
    ensures { WordIsFreedBetween }
{}
