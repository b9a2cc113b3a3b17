//! A name under which a word is stored, with a mark that distinguishes it from most others at once.

ghost use Rattle.std.specs.Prelude.{◌≡◌, bytes_eq};
ghost use Rattle.script_commands.specs.Marks.{mark_of};

/// A name, and the word that it stands for, if it has one.
#[derive(Clone, Copy)]
pub struct Kept<'a> {
    pub(crate) name: &'a [u8],
    pub(crate) word: Option<u16>,
    mark: u32,
    ghost marked: { mark ≡ mark_of name.now },
}

/// The mark of a name.
pub(crate) fn mark_of(name: &[u8]) -> u32
    ensures { result ≡ mark_of name.now }
{
    let mut mark: u32 = 0;
    for byte in name {
        mark = mark.wrapping_mul(31).wrapping_add(u32::from(*byte));
    }
    mark
}

impl<'a> Kept<'a> {
    /// A word, if there is one, under a name.
    pub(crate) fn new(name: &'a [u8], word: Option<u16>) -> Kept<'a>
        ensures name { result.name.now ≡ name.now }
        ensures word { result.word ≡ word }
    {
        Kept {
            name,
            word,
            mark: mark_of(name),
        }
    }

    /// Whether it is stored under this name, which has this mark.
    pub(crate) fn is_under(&self, name: &[u8], mark: u32) -> bool
        requires { mark ≡ mark_of name.now }
        ensures { result ≡ bytes_eq self.now.name.now name.now }
    {
        if self.mark != mark {
            return false;
        }
        self.name == name
    }
}
