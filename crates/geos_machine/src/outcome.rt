//! What a run gives.

ghost use Rattle.std.specs.Prelude.{◌≡◌};

use arrayvec::ArrayVec;

/// The end of a run.
#[derive(Drop)]
pub struct Outcome {
    /// The words w0 to w7 at the return.
    pub words: [u16; 8],
    /// The words that were output, at most 1,024.
    pub output: ArrayVec<u16, 1024>,
    /// How many instructions were executed, the last return too.
    pub steps: u32,
}

impl Outcome {
    /// Takes what a run gave, and leaves its output empty.
    pub(crate) fn take(&mut self) -> Outcome
        ensures words { result.words ≡ self.old.words }
        ensures output { result.output.items ≡ self.old.output.items }
        ensures steps { result.steps ≡ self.old.steps }
    {
        Outcome {
            words: self.words,
            output: self.output.take(),
            steps: self.steps,
        }
    }
}
