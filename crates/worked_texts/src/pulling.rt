//! Points, springs between them, and functions over the springs.

/// Points, springs between them, and functions over the springs: each pulls its two points with its stiffness times
/// the difference of their positions; it drops its stiffness at the first; it does so at both; from its stiffness it
/// computes by variables that use those before them; it hands on what the first has to the second; it does nothing.
pub const HEAD: &str = "element Point x: int(0); f: int(0); end
element Spring k: int(0); end
extern points: set{Point};
extern springs: set{Spring}(points, points);
func pull(s: Spring, p: (Point*2)) -> (f: vector[points](int(0)))
  var d = s.k * (p(1).x - p(0).x); f(p(0)) = d; f(p(1)) = -d;
end
func drop(s: Spring, p: (Point*2)) -> (f: vector[points](int(0)))
  f(p(0)) = s.k;
end
func both(s: Spring, p: (Point*2)) -> (f: vector[points](int(0)))
  f(p(0)) = s.k; f(p(1)) = s.k;
end
func compute(s: Spring, p: (Point*2)) -> (f: vector[points](int(0)))
  var a = s.k; var b = a*a - 1; f(p(1)) = b; var c = -(a + b)*2 + 3; f(p(1)) = c; f(p(0)) = a - b - c;
end
func hand_on(s: Spring, p: (Point*2)) -> (r: vector[points](int(0)))
  r(p(1)) = p(0).f + s.k;
end
func nothing(s: Spring, p: (Point*2)) -> (f: vector[points](int(0))) end
";

/// The main procedure in which springs pull.
pub const PULL: &str = "proc main points.f = map pull to springs reduce +; end";

pub const POINTS: &str = "x,f\n0,0\n10,0\n25,0\n";

pub const SPRINGS: &str = "p0,p1,k\n0,1,2\n1,2,3\n";

/// What the springs' pull leaves of these tables.
pub const PULLED: &str =
    "set points\nx,f\n0,20\n10,25\n25,-45\nset springs\np0,p1,k\n0,1,2\n1,2,3\n";
