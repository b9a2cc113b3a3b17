//! Words of other machines in place of an instruction.

/// Words of other machines, and what to say here: the nearest instruction, and its page.
const MEANINGS: [(&str, &str); 21] = [
    (
        "BE JE BZ JZ BEQZ CMP CMPI TEST TST",
        "BEQ, which jumps if two words are equal (geos help BEQ)",
    ),
    (
        "BNE JNE BNZ JNZ BNEZ",
        "BEQ over a JMP: control comes to the JMP if the words differ (geos help BEQ)",
    ),
    (
        "BLTU BLO JL JB JC SLT",
        "BLT, which jumps if a word is below another (geos help BLT)",
    ),
    (
        "BGT BHI JG JA",
        "BLT with the two words exchanged (geos help BLT)",
    ),
    (
        "BGE BGEU BHS JGE JAE JNC",
        "BLT over a JMP: control comes to the JMP if the first word is not below the second (geos help BLT)",
    ),
    (
        "BLE BLS JLE JBE",
        "BLT over a JMP, with the two words exchanged (geos help BLT)",
    ),
    (
        "IF ELSE",
        "BEQ or BLT, which jump to a label by two words (geos help BLT)",
    ),
    (
        "WHILE FOR DO REPEAT",
        "LOOP, which jumps back to a label as often as a counter says (geos help LOOP)",
    ),
    (
        "SHL LSL SAL SLL ASL MUL MULT IMUL",
        "MULI, which multiplies by a number, as by 2 for one bit to the left (geos help MULI)",
    ),
    (
        "LSR SRL ASR SAR SRA DIV IDIV",
        "SHR, which shifts to the right by a number, as by 1 to halve (geos help SHR)",
    ),
    (
        "OR ORR ORI",
        "AND with a number n: a or n is a + n - (a and n) (geos help AND)",
    ),
    (
        "XOR EOR XORI",
        "AND with a number n: a xor n is a + n, less (a and n) twice; LDI for 0 (geos help AND)",
    ),
    ("NOT NEG", "SUB, from 65535 or from 0 (geos help SUB)"),
    (
        "INC DEC ADDI SUBI",
        "ADD or SUB, with a word that LDI sets (geos help ADD)",
    ),
    (
        "HALT HLT STOP EXIT END RETURN QUIT",
        "RET, which ends the routine (geos help RET)",
    ),
    (
        "GOTO JUMP BRA BR B J",
        "JMP, which jumps to a label (geos help JMP)",
    ),
    (
        "LOAD LD LDA LDR LW LH LHU LB LBU",
        "LDB or LDW, which read by a pointer, or LDI with a number (geos help LDW)",
    ),
    (
        "STORE ST STA STR SW SH SB",
        "STB or STW, which write by a pointer (geos help STW)",
    ),
    (
        "PRINT PUT WRITE ECHO SYSCALL INT",
        "OUT, which outputs a word (geos help OUT)",
    ),
    (
        "PUSH POP",
        "MOV to another word, or STW into a chunk, as there is no stack (geos help MOV)",
    ),
    (
        "NOP",
        "JMP to a label on the next line, or omit this line (geos help JMP)",
    ),
];

/// Whether a word is one of those in a list, in letters of either case.
fn is_listed(list: &str, word: &[u8]) -> bool {
    list.split(' ')
        .any(|listed| listed.as_bytes().eq_ignore_ascii_case(word))
}

/// What to say in place of a word that is an instruction of other machines.
pub(crate) fn meaning_of(word: &[u8]) -> Option<&'static str> {
    for (list, meaning) in &MEANINGS {
        if is_listed(*list, word) {
            return Some(*meaning);
        }
    }
    None
}
