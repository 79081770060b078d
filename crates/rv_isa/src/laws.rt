//! Laws of the table. Their functions do nothing: each is there for what it ensures.

ghost use Rattle.rv_isa.specs.Laws.{WordsHaveFields, DecodingInverts, OneDecoding};

/// The word of an instruction is the one that has each of the instruction's fields at its place,
/// the parts of an immediate each at theirs (Unprivileged ISA 20191213, chapter 24).
pub fn words_have_fields()
    ensures { WordsHaveFields }
{}

/// What an instruction is encoded as decodes to that instruction, and to nothing else. Decoding
/// keeps each bit of a word, those of aq, rl and of a fence too: so an instruction that a word
/// decodes to is encoded as that word.
pub fn decoding_inverts_encoding()
    ensures inverts { DecodingInverts }
    ensures unique { OneDecoding }
{}
