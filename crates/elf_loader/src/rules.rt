ghost use Rattle.std.specs.Prelude.{◌≡◌, IsTrue, IsFalse, OnOk, IfErr};

/// The fault of the first rule that a file breaks, and the offset of what breaks it.
pub type Broken<F> = (F, u64);

/// Answers the fault where a rule is broken.
pub fn refuse<F: Drop>(broken: bool, fault: F, offset: u64) -> Result<(), Broken<F>>
    ensures ok { OnOk result (IsFalse broken) }
    ensures err { IfErr result (λ e. IsTrue broken × (e ≡ (fault, offset))) }
{
    if broken { Err((fault, offset)) } else { Ok(()) }
}
