// Views as mathematics: the definitions are in specs/, the theorems about them in proofs/.
// The functions here do nothing: each one's contract is a theorem about examples, so that the check asks for its
// proof. The laws of all clear views are fields of what `judge` promises (crate views).
#![tactic(auto)]

ghost use Rattle.lens.specs.Cases.{LetterHidden, LenderStays};
ghost use Rattle.lens.specs.Needed.{Needed};

// A view of digits shown and a letter hidden does as it should.
pub fn letter_hidden() -> u8
    ensures { LetterHidden }
{
    0
}

// In a line of a catalogue whose remark is changed, the hidden lender stays.
pub fn lender_stays() -> u8
    ensures { LenderStays }
{
    0
}

// With one of three conditions of a clear view weakened, a view passes that does not work.
pub fn conditions_needed() -> u8
    ensures { Needed }
{
    0
}
