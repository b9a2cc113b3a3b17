//! Marks of pcs.

ghost use Rattle.std.specs.Prelude.{◌≡◌};
ghost use Rattle.geos_flow.specs.Marks.{no_marks, marked, is_marked};

/// For each pc of an image, of which there are at most so many, whether it is marked.
pub type Marks = [bool; 4096];

/// No pc is marked.
#[tactic(auto, unfolding(crate::specs::Marks::no_marks))]
pub fn no_marks() -> Marks
    ensures { result ≡ no_marks }
{
    [false; 4096]
}

/// One more mark, if there is such a pc.
pub fn mark(marks: &mut Marks, pc: usize)
    ensures { marks.new ≡ marked marks.old pc }
{
    if pc < 4096 {
        marks[pc] = true;
    }
}

/// Whether the pc is marked.
pub fn is_marked(marks: &Marks, pc: usize) -> bool
    ensures { result ≡ is_marked marks.now pc }
{
    pc < 4096 && marks[pc]
}
