//! The program of made jobs.
ghost use Rattle.std.specs.Prelude.{◌≡◌, IfOk};
ghost use Rattle.job_maker.specs.Program as spec;

use std::alloc::Global;
use vocabulary::{L, NoMemory};

const PROGRAM: &str = "element Point
  x : int(0);
  f : int(0);
end
element Spring
  k : int(0);
end
extern points : set{Point};
extern springs : set{Spring}(points, points);
func stiff(s : Spring, p : (Point*2)) -> (K : matrix[points,points](int(0)))
  K(p(0),p(0)) = s.k;
  K(p(0),p(1)) = -s.k;
  K(p(1),p(0)) = -s.k;
  K(p(1),p(1)) = s.k;
end
proc main
  var K = map stiff to springs reduce +;
  points.f = -(K*points.x);
end
";

/// The program's text.
pub(crate) fn program(alloc: Global) -> Result<L<u8>, NoMemory>
    ensures { IfOk result (λ text. text ≡ spec.program) }
{
    match Vec::from_slice(alloc, PROGRAM.as_bytes()) {
        Ok(text) => Ok(L::of(text)),
        Err(_) => Err(NoMemory),
    }
}
