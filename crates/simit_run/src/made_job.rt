//! Made jobs: a program and sets by rule, which are run, and the one line that is put out of them.

ghost use Rattle.std.specs.Prelude.{◌≡◌, ◌≤◌, IfOk, ◌*◌, ◌∷◌, [], codes, decimal};
ghost use Rattle.std.specs.List.{concat};
ghost use Rattle.vocabulary.specs.Answers.{Answers};
ghost use Rattle.ring_words.specs.Cell as cell;
ghost use Rattle.hypergraph.specs.Sets.{set_at};
ghost use Rattle.job_maker.specs.declared.made.TheConstants.{MOST_POINTS};
ghost use Rattle.simit_run.specs.Hosts.{hosts_of};
ghost use Rattle.simit_run.specs.MadeJob.{job_line, made_line};
ghost use Rattle.simit_run.specs.Stage.{refused};

use crate::front::typed_in;
use crate::running::{Engine, Manner, sets_after};
use command_words::DEFAULT_TURNS;
use host_table::{HostMeaning, HostTable};
use itoa::Buffer;
use job_maker::{make, weighted};
use ring_words::{cell_len, write_cell};
use run_notes::Failure;
use std::alloc::{AllocError, Global};
use vocabulary::L;

/// The text of a word, read with its sign.
fn signed_text(alloc: Global, word: u64) -> Result<Vec<u8>, AllocError>
    ensures { IfOk result (λ text. text.items ≡ cell.text 0 word) }
{
    let mut text = Vec::with_capacity(alloc, cell_len(0, word))?;
    write_cell(0, word, &mut text);
    Ok(text)
}

/// The line of a job with so many points, and of the weighted sum after its run.
fn line_of(alloc: Global, points: u32, sum: u64) -> Result<Vec<u8>, AllocError>
    requires { points ≤ MOST_POINTS }
    ensures { IfOk result (λ line. line.items ≡ concat (codes "points " ∷ decimal points ∷ codes " springs " ∷ decimal (2 * points)
        ∷ codes " weighted " ∷ cell.text 0 sum ∷ codes "\n" ∷ [])) }
{
    let mut digits = Buffer::new();
    let mut line = Vec::from_slice(alloc, b"points ")?;
    line.extend_from_slice(digits.format(points).as_bytes())?;
    line.extend_from_slice(b" springs ")?;
    line.extend_from_slice(digits.format(2 * points).as_bytes())?;
    line.extend_from_slice(b" weighted ")?;
    line.extend_from_slice(&signed_text(alloc, sum)?)?;
    line.extend_from_slice(b"\n")?;
    Ok(line)
}

/// The line of the job of a seed and a number of points, once its program has run on its sets.
#[tactic(auto, unfolding(crate::specs::MadeJob::made_line))]
pub fn made_line<H: HostMeaning>(
    alloc: Global,
    hosts: &HostTable<H>,
    seed: u32,
    points: u32,
) -> Result<L<u8>, Failure>
    requires some { 1 ≤ points }
    requires few { points ≤ MOST_POINTS }
    ensures { Answers Failure.Memory (refused (made_line (hosts_of H.answer hosts.now) seed points)) result }
{
    let Ok(job) = make(alloc, seed, points) else {
        return Err(Failure::Memory);
    };
    let typed = typed_in(alloc, job.program.items(), hosts)?;
    let manner = Manner {
        engine: Engine::Words,
        turns: DEFAULT_TURNS,
    };
    let after = sets_after(alloc, hosts, &typed, manner, job.sets)?;
    let Ok(line) = line_of(alloc, points, weighted(&after)) else {
        return Err(Failure::Memory);
    };
    Ok(L::of(line))
}
