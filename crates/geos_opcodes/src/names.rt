//! What encodes an opcode: its byte in an image, and its word in a text.

ghost use Rattle.std.specs.Prelude.{◌≡◌, IfSome, Some, slice_get};
ghost use Rattle.geos_opcodes.specs.Facts as table;

use crate::opcode::Opcode;

/// Every opcode, in the order of the codes.
pub const OPCODES: [Opcode; 77] = [
    Opcode::Ldi,
    Opcode::Mov,
    Opcode::Add,
    Opcode::Sub,
    Opcode::And,
    Opcode::Shr,
    Opcode::Muli,
    Opcode::Chk,
    Opcode::Jmp,
    Opcode::Beq,
    Opcode::Blt,
    Opcode::Setk,
    Opcode::Setkw,
    Opcode::Loop,
    Opcode::Call,
    Opcode::Ret,
    Opcode::Out,
    Opcode::Mnew,
    Opcode::Mlock,
    Opcode::Munlock,
    Opcode::Mfree,
    Opcode::Sne,
    Opcode::Lalloc,
    Opcode::Lfree,
    Opcode::Lrealloc,
    Opcode::Lins,
    Opcode::Ldel,
    Opcode::Lsize,
    Opcode::Deref,
    Opcode::Lcontract,
    Opcode::Ldb,
    Opcode::Ldw,
    Opcode::Stb,
    Opcode::Stw,
    Opcode::Ldxb,
    Opcode::Ldxw,
    Opcode::Stxb,
    Opcode::Stxw,
    Opcode::Ldcb,
    Opcode::Ldcw,
    Opcode::Stcb,
    Opcode::Stcw,
    Opcode::Movp,
    Opcode::Copy,
    Opcode::Plen,
    Opcode::Canew,
    Opcode::Caadd,
    Opcode::Cains,
    Opcode::Cadel,
    Opcode::Cacount,
    Opcode::Caelt,
    Opcode::Cazero,
    Opcode::Caresize,
    Opcode::Vnew,
    Opcode::Vlock,
    Opcode::Vdirty,
    Opcode::Vunlock,
    Opcode::Vfree,
    Opcode::Vfind,
    Opcode::Vuid,
    Opcode::Vgetmap,
    Opcode::Vsetmap,
    Opcode::Vupdate,
    Opcode::Vsave,
    Opcode::Vrevert,
    Opcode::Gnew,
    Opcode::Gfree,
    Opcode::Inew,
    Opcode::Ifree,
    Opcode::Irealloc,
    Opcode::Iins,
    Opcode::Idel,
    Opcode::Ilock,
    Opcode::Idirty,
    Opcode::Iunlock,
    Opcode::Igetmap,
    Opcode::Isetmap,
];

/// The opcode at a place of a list, if there is one.
fn opcode_at(list: &[Opcode], place: usize) -> Option<Opcode>
    ensures { result ≡ slice_get list.now place }
{
    list.get(place).copied()
}

impl Opcode {
    /// The byte that encodes the opcode. No two opcodes have one byte.
    #[tactic(auto, using(crate::proofs::Laws::opcode_again))]
    pub fn code(self) -> u8
        ensures value { result ≡ table.code_of self }
        ensures own { table.opcode_of (table.code_of self) ≡ Some self }
    {
        self.facts().code
    }

    /// The word that a text writes for the opcode. No two opcodes have one word.
    #[tactic(auto, using(crate::proofs::Laws::word_again))]
    pub fn word(self) -> &'static str
        ensures word { result.now ≡ table.word_of self }
        ensures own { table.opcode_of_word (table.word_of self) ≡ Some self }
    {
        self.spelling()
    }

    /// The word, as a table.
    fn spelling(self) -> &'static str
        ensures { result.now ≡ table.word_of self }
    {
        match self {
            Opcode::Ldi => "LDI",
            Opcode::Mov => "MOV",
            Opcode::Add => "ADD",
            Opcode::Sub => "SUB",
            Opcode::And => "AND",
            Opcode::Shr => "SHR",
            Opcode::Muli => "MULI",
            Opcode::Chk => "CHK",
            Opcode::Jmp => "JMP",
            Opcode::Beq => "BEQ",
            Opcode::Blt => "BLT",
            Opcode::Setk => "SETK",
            Opcode::Setkw => "SETKW",
            Opcode::Loop => "LOOP",
            Opcode::Call => "CALL",
            Opcode::Ret => "RET",
            Opcode::Out => "OUT",
            Opcode::Mnew => "MNEW",
            Opcode::Mlock => "MLOCK",
            Opcode::Munlock => "MUNLOCK",
            Opcode::Mfree => "MFREE",
            Opcode::Sne => "SNE",
            Opcode::Lalloc => "LALLOC",
            Opcode::Lfree => "LFREE",
            Opcode::Lrealloc => "LREALLOC",
            Opcode::Lins => "LINS",
            Opcode::Ldel => "LDEL",
            Opcode::Lsize => "LSIZE",
            Opcode::Deref => "DEREF",
            Opcode::Lcontract => "LCONTRACT",
            Opcode::Ldb => "LDB",
            Opcode::Ldw => "LDW",
            Opcode::Stb => "STB",
            Opcode::Stw => "STW",
            Opcode::Ldxb => "LDXB",
            Opcode::Ldxw => "LDXW",
            Opcode::Stxb => "STXB",
            Opcode::Stxw => "STXW",
            Opcode::Ldcb => "LDCB",
            Opcode::Ldcw => "LDCW",
            Opcode::Stcb => "STCB",
            Opcode::Stcw => "STCW",
            Opcode::Movp => "MOVP",
            Opcode::Copy => "COPY",
            Opcode::Plen => "PLEN",
            Opcode::Canew => "CANEW",
            Opcode::Caadd => "CAADD",
            Opcode::Cains => "CAINS",
            Opcode::Cadel => "CADEL",
            Opcode::Cacount => "CACOUNT",
            Opcode::Caelt => "CAELT",
            Opcode::Cazero => "CAZERO",
            Opcode::Caresize => "CARESIZE",
            Opcode::Vnew => "VNEW",
            Opcode::Vlock => "VLOCK",
            Opcode::Vdirty => "VDIRTY",
            Opcode::Vunlock => "VUNLOCK",
            Opcode::Vfree => "VFREE",
            Opcode::Vfind => "VFIND",
            Opcode::Vuid => "VUID",
            Opcode::Vgetmap => "VGETMAP",
            Opcode::Vsetmap => "VSETMAP",
            Opcode::Vupdate => "VUPDATE",
            Opcode::Vsave => "VSAVE",
            Opcode::Vrevert => "VREVERT",
            Opcode::Gnew => "GNEW",
            Opcode::Gfree => "GFREE",
            Opcode::Inew => "INEW",
            Opcode::Ifree => "IFREE",
            Opcode::Irealloc => "IREALLOC",
            Opcode::Iins => "IINS",
            Opcode::Idel => "IDEL",
            Opcode::Ilock => "ILOCK",
            Opcode::Idirty => "IDIRTY",
            Opcode::Iunlock => "IUNLOCK",
            Opcode::Igetmap => "IGETMAP",
            Opcode::Isetmap => "ISETMAP",
        }
    }

    /// The opcode that the byte encodes, if one does.
    #[tactic(auto, using(crate::proofs::Laws::opcode_placed))]
    pub fn from_code(code: u8) -> Option<Opcode>
        ensures { result ≡ table.opcode_of code }
    {
        if code == 0 {
            None
        } else {
            opcode_at(&OPCODES, usize::from(code) - 1)
        }
    }

    /// The opcode whose word it is; `None` if it is no opcode's.
    pub fn from_word(word: &[u8]) -> Option<Opcode>
        ensures value { result ≡ table.opcode_of_word word.now }
        ensures some { IfSome result (λ opcode. table.word_of opcode ≡ word.now) }
    {
        OPCODES
            .iter()
            .copied()
            .find(|opcode| opcode.word().as_bytes() == word)
    }
}
