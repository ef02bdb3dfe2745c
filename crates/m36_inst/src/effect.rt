//! What instructions do.

/// What an instruction does, named by its mnemonic. Eight mnemonics that differ only in the digit
/// of a register are one variant, with N in place of the digit.
#[derive(Clone, Copy, PartialEq, Eq, Debug)]
pub enum Effect {
    // Data movement: load and store.
    /// Load A.
    Lda,
    /// Load Q.
    Ldq,
    /// Load AQ.
    Ldaq,
    /// Load an index register.
    LdxN,
    /// Load an index register from lower.
    LxlN,
    /// Load complement A.
    Lca,
    /// Load complement Q.
    Lcq,
    /// Load complement AQ.
    Lcaq,
    /// Load complement index register.
    LcxN,
    /// Load A and clear.
    Ldac,
    /// Load Q and clear.
    Ldqc,
    /// Effective address to A.
    Eaa,
    /// Effective address to Q.
    Eaq,
    /// Effective address to index register.
    EaxN,
    /// Store A.
    Sta,
    /// Store Q.
    Stq,
    /// Store AQ.
    Staq,
    /// Store zero.
    Stz,
    /// Store index register in upper.
    StxN,
    /// Store index register in lower.
    SxlN,
    /// Load indicator register.
    Ldi,
    /// Store indicator register.
    Sti,

    // Fixed-point arithmetic and comparison.
    /// Add to A.
    Ada,
    /// Add to Q.
    Adq,
    /// Add to AQ.
    Adaq,
    /// Add to index register.
    AdxN,
    /// Add low to AQ.
    Adl,
    /// Add logical to A.
    Adla,
    /// Add logical to Q.
    Adlq,
    /// Add logical to AQ.
    Adlaq,
    /// Add logical to index register.
    AdlxN,
    /// Add with carry to A.
    Awca,
    /// Add with carry to Q.
    Awcq,
    /// Subtract from A.
    Sba,
    /// Subtract from Q.
    Sbq,
    /// Subtract from AQ.
    Sbaq,
    /// Subtract from index register.
    SbxN,
    /// Subtract logical from A.
    Sbla,
    /// Subtract logical from Q.
    Sblq,
    /// Subtract logical from AQ.
    Sblaq,
    /// Subtract logical from index register.
    SblxN,
    /// Subtract with carry from A.
    Swca,
    /// Subtract with carry from Q.
    Swcq,
    /// Add one to storage.
    Aos,
    /// Add stored to A.
    Asa,
    /// Add stored to Q.
    Asq,
    /// Subtract stored from A.
    Ssa,
    /// Subtract stored from Q.
    Ssq,
    /// Add stored to index register.
    AsxN,
    /// Subtract stored from index register.
    SsxN,
    /// Negate A.
    Neg,
    /// Negate long.
    Negl,
    /// Multiply integer.
    Mpy,
    /// Divide integer.
    Div,
    /// Compare with A.
    Cmpa,
    /// Compare with Q.
    Cmpq,
    /// Compare with AQ.
    Cmpaq,
    /// Compare with index register.
    CmpxN,
    /// Set zero and negative indicators.
    Szn,
    /// Set zero and negative indicators and clear.
    Sznc,
    /// Compare masked.
    Cmk,

    // Boolean operations and comparisons.
    /// Comparative AND with A.
    Cana,
    /// Comparative AND with Q.
    Canq,
    /// Comparative AND with AQ.
    Canaq,
    /// Comparative AND with index register.
    CanxN,
    /// Comparative NOT AND with A.
    Cnaa,
    /// Comparative NOT AND with Q.
    Cnaq,
    /// Comparative NOT AND with AQ.
    Cnaaq,
    /// Comparative NOT AND with index register.
    CnaxN,
    /// AND to A.
    Ana,
    /// AND to Q.
    Anq,
    /// OR to A.
    Ora,
    /// OR to Q.
    Orq,
    /// EXCLUSIVE OR to A.
    Era,
    /// EXCLUSIVE OR to Q.
    Erq,
    /// AND to AQ.
    Anaq,
    /// OR to AQ.
    Oraq,
    /// EXCLUSIVE OR to AQ.
    Eraq,
    /// AND to index register.
    AnxN,
    /// OR to index register.
    OrxN,
    /// EXCLUSIVE OR to index register.
    ErxN,
    /// AND to storage A.
    Ansa,
    /// AND to storage Q.
    Ansq,
    /// OR to storage A.
    Orsa,
    /// OR to storage Q.
    Orsq,
    /// EXCLUSIVE OR to storage A.
    Ersa,
    /// EXCLUSIVE OR to storage Q.
    Ersq,
    /// AND to storage index register.
    AnsxN,
    /// OR to storage index register.
    OrsxN,
    /// EXCLUSIVE OR to storage index register.
    ErsxN,

    // Shifts and rotations of A, Q and AQ.
    /// A left shift.
    Als,
    /// Q left shift.
    Qls,
    /// Long left shift.
    Lls,
    /// A right shift.
    Ars,
    /// Q right shift.
    Qrs,
    /// Long right shift.
    Lrs,
    /// A right logical.
    Arl,
    /// Q right logical.
    Qrl,
    /// Long right logical.
    Lrl,
    /// A left rotate.
    Alr,
    /// Q left rotate.
    Qlr,
    /// Long left rotate.
    Llr,

    // Pointer registers. EPP and EPBP share operation codes, and so do SPRI and SPBP of one
    // register; bit 27 distinguishes them.
    /// Effective pointer to pointer register.
    EppN,
    /// Effective pointer at base to pointer register.
    EpbpN,
    /// Store pointer register as ITS.
    SpriN,
    /// Store segment base pointer of pointer register as ITS.
    SpbpN,
    /// Store all pointer registers as ITS.
    Spri,
    /// Load all pointer registers from ITS.
    Lpri,
    /// Load pointer register packed.
    LprpN,
    /// Effective pointer to AQ.
    Epaq,

    // Store of the control double word, and conditional stores.
    /// Store control double.
    Stcd,
    /// Store A conditional.
    Stac,
    /// Store A conditional on Q.
    Stacq,

    // Transfers of control.
    /// Transfer unconditionally.
    Tra,
    /// Transfer on zero.
    Tze,
    /// Transfer on nonzero.
    Tnz,
    /// Transfer on minus.
    Tmi,
    /// Transfer on plus.
    Tpl,
    /// Transfer on carry.
    Trc,
    /// Transfer on no carry.
    Tnc,
    /// Transfer on minus or zero.
    Tmoz,
    /// Transfer on plus and nonzero.
    Tpnz,
    /// Transfer on overflow.
    Tov,
    /// Transfer on tally runout indicator off.
    Ttf,
    /// Transfer and set index register.
    TsxN,
    /// Transfer and set pointer register.
    TspN,
    /// Call, through PR6 and PR7.
    Call6,
    /// Return control double.
    Rtcd,

    // No operation, master mode entry, derail.
    /// No operation.
    Nop,
    /// Master mode entry.
    Mme,
    /// Derail.
    Drl,

    // Privileged instructions.
    /// Delay until interrupt signal.
    Dis,
    /// Load descriptor segment base register.
    Ldbr,
    /// Store descriptor segment base register.
    Sdbr,
    /// Clear associative memory segments.
    Cams,
    /// Clear associative memory pages.
    Camp,
    /// Absolute address to A.
    Absa,
}
