//! Laws of answers for binaries.
ghost use Rattle.std.specs.Prelude.{◌≢◌, ℕ, List};
ghost use Rattle.audit_binaries.specs.Binaries.{IsBinary, IsExactly, Outside, Scan, all_tell, said_at};
ghost use Rattle.audit_binaries.specs.declared.answers.BinaryAnswer.{BinaryAnswer};
ghost use Rattle.audit_binaries.specs.declared.answers.BinaryAnswer.TheVariants as answer;
ghost use Rattle.audit_binaries.specs.declared.answers.BinaryFault.TheVariants as fault;

/// If files and decoder tell what they have, an answer is exactly that of what is at the path and
/// of what the decoder makes of it, unless the file couldn't be read, or its bytes decoded.
pub fn answers_are_exact()
    ensures { (scan : Scan) (began ended : Outside) (path : List ℕ) (a : BinaryAnswer)
        → IsBinary all_tell scan began ended path a
        → a ≢ answer.Refused fault.File → a ≢ answer.Refused fault.Decode
        → IsExactly (said_at scan path) a }
{}
