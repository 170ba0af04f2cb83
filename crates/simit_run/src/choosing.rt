//! The set to which the output is limited.

ghost use Rattle.std.specs.Prelude.{◌≡◌, ◌<◌, IfOk, IfSome, length};
ghost use Rattle.simit_run.specs.Output as spec;
ghost use Rattle.simit_run.specs.Stage.{refused};

use block_types::Typed;
use run_notes::{Failure, Refusal};
use vocabulary::Text;

/// The number of the set of a name, where a name is given.
#[tactic(auto, unfolding(crate::specs::Output::chosen_in), using(crate::proofs::Chosen::within))]
pub fn chosen_in(typed: &Typed, only: &Option<Text>) -> Result<Option<u32>, Failure>
    ensures value { result ≡ refused (spec.chosen_in typed.now only.now) }
    ensures within { IfOk result (λ chosen. IfSome chosen (λ number. number < length typed.now.sets)) }
{
    match only {
        None => Ok(None),
        Some(name) => match typed.find_set(name.as_str()) {
            Some(number) => Ok(Some(number)),
            None => Err(Failure::Refused(Refusal::NoSuchSet)),
        },
    }
}
