// The law of answers.

ghost use Rattle.std.specs.Prelude.{◌≡◌, ℕ, List};
ghost use Rattle.fs_cli.specs.declared.outcome.Status.{Status};
ghost use Rattle.fs_cli.specs.declared.words.Request.{Request};
ghost use Rattle.fs_cli.specs.Words.{GiveRequest};
ghost use Rattle.fs_cli.specs.Answer.{IsAnswered};

use fs_job::job_or_fault;
use fs_workload::staircase_builds;

/// Words and bytes have one answer, with one status, where the words are admitted. This is a law
/// about the definitions: the call itself does nothing.
pub fn one_answer()
    ensures one { (words : List (List ℕ)) → (bytes : List ℕ) → (m n : List ℕ) → (r s : Status)
        → IsAnswered words bytes m r → IsAnswered words bytes n s → (m ≡ n) × (r ≡ s) }
    ensures some { (words : List (List ℕ)) → (request : Request) → GiveRequest words request → (bytes : List ℕ)
        → ((output : List ℕ) → (outcome : Status) → ¬ IsAnswered words bytes output outcome) → ⊥ }
{
    job_or_fault();
    staircase_builds();
}
