// The law of the grammar of jobs.

ghost use Rattle.std.specs.Prelude.{◌≡◌, ℕ, List};
ghost use Rattle.fs_gluing.specs.declared.faults.Fault.{Fault};
ghost use Rattle.fs_job.specs.Draft.{Draft};
ghost use Rattle.fs_job.specs.Grammar.{IsJob, IsFirstFault};

/// Every list of bytes is one job or has one first fault, and not both. This is a law about the
/// definitions: the call itself does nothing.
pub fn job_or_fault()
    ensures one_job { (bytes : List ℕ) → (a b : Draft) → IsJob bytes a → IsJob bytes b → a ≡ b }
    ensures one_fault { (bytes : List ℕ) → (a b : Fault) → IsFirstFault bytes a → IsFirstFault bytes b → a ≡ b }
    ensures not_both { (bytes : List ℕ) → (draft : Draft) → (fault : Fault) → IsJob bytes draft → ¬ IsFirstFault bytes fault }
    ensures not_neither { (bytes : List ℕ) → ((draft : Draft) → ¬ IsJob bytes draft)
        → ((fault : Fault) → ¬ IsFirstFault bytes fault) → ⊥ }
{}
