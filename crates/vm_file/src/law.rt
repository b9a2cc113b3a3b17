//! The lemma on the contents of files.

ghost use Rattle.vm_file.specs.Laws.{PairsHaveOneSpelling};

/// A pair of directories with its blocks has one spelling: bytes are read as it exactly if it is
/// legal and they begin with that, whatever follows.
pub fn pairs_have_one_spelling()
    ensures { PairsHaveOneSpelling }
{}
