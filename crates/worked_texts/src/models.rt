//! Programs of models with matrices, blocks and loops, as a user writes them.

/// Points and the springs between them, in lines 1 to 9.
pub const POINTS_AND_SPRINGS: &str = "element Point
  x : int(0);
  f : int(0);
end
element Spring
  k : int(0);
end
extern points : set{Point};
extern springs : set{Spring}(points, points);
";

/// What a spring adds to the stiffness matrix, as it stands after these.
pub const STIFF: &str =
    "func stiff(s : Spring, p : (Point*2)) -> (K : matrix[points,points](int(0)))
  K(p(0),p(0)) = s.k;
  K(p(0),p(1)) = -s.k;
  K(p(1),p(0)) = -s.k;
  K(p(1),p(1)) = s.k;
end
";

/// Springs that pull their points.
pub const PULLING: &str = "element Point
  x : int(0);
  f : int(0);
end
element Spring
  k : int(0);
end
extern points : set{Point};
extern springs : set{Spring}(points, points);
func pull(s : Spring, p : (Point*2)) -> (f : vector[points](int(0)))
  var d = s.k * (p(1).x - p(0).x);
  f(p(0)) = d;
  f(p(1)) = -d;
end
proc main
  points.f = map pull to springs reduce +;
end
";

/// The same pull, as a stiffness matrix times the positions.
pub const STIFFNESS: &str = "element Point
  x : int(0);
  f : int(0);
end
element Spring
  k : int(0);
end
extern points : set{Point};
extern springs : set{Spring}(points, points);
func stiff(s : Spring, p : (Point*2)) -> (K : matrix[points,points](int(0)))
  K(p(0),p(0)) = s.k;
  K(p(0),p(1)) = -s.k;
  K(p(1),p(0)) = -s.k;
  K(p(1),p(1)) = s.k;
end
proc main
  var K = map stiff to springs reduce +;
  points.f = -(K*points.x);
end
";

/// A quotient for each spring.
pub const RATIO: &str = "element Point
  x : int(0);
  f : int(0);
end
element Spring
  k : int(0);
end
extern points : set{Point};
extern springs : set{Spring}(points, points);
func ratio(s : Spring, p : (Point*2)) -> (K : matrix[points,points](int(0)))
  K(p(0),p(1)) = quot(100, s.k, 0);
end
proc main
  var K = map ratio to springs reduce +;
end
";

/// A matrix with two entries for each spring, in one row.
pub const DOUBLED: &str = "element Point
  x : int(0);
  f : int(0);
end
element Spring
  k : int(0);
end
extern points : set{Point};
extern springs : set{Spring}(points, points);
func twice(s : Spring, p : (Point*2)) -> (A : matrix[points,points](int(0)))
  A(p(0),p(0)) = s.k;
  A(p(0),p(1)) = s.k;
end
proc main
  var A = map twice to springs reduce +;
  points.f = A*points.x;
end
";

/// The springs at each first point, summed.
pub const SUMMED: &str = "element Point
  x : int(0);
  f : int(0);
end
element Spring
  k : int(0);
end
extern points : set{Point};
extern springs : set{Spring}(points, points);
func drop(s : Spring, p : (Point*2)) -> (f : vector[points](int(0)))
  f(p(0)) = s.k;
end
proc main
  points.f = map drop to springs reduce +;
end
";

/// Conjugate gradients over blocks of three numbers, in fixed point.
pub const GRADIENTS: &str = "element Node
  b : vector[3](int(4));
  x : vector[3](int(4));
end
element Link
  k : int(4);
end
extern nodes : set{Node};
extern links : set{Link}(nodes, nodes);
func stiff(s : Link, p : (Node*2))
    -> (A : matrix[nodes,nodes](matrix[3,3](int(4))))
  var B = s.k * [1, 0, 0; 0, 1, 0; 0, 0, 1];
  A(p(0),p(0)) = B;
  A(p(0),p(1)) = -B;
  A(p(1),p(0)) = -B;
  A(p(1),p(1)) = B;
end
func mass(n : Node) -> (M : matrix[nodes,nodes](matrix[3,3](int(4))))
  M(n,n) = 1.0000 * [1, 0, 0; 0, 1, 0; 0, 0, 1];
end
proc main
  var A = map stiff to links reduce +;
  var M = map mass to nodes reduce +;
  var H = A + M;
  var x = nodes.x;
  var r = nodes.b - rescale(H*x, 4);
  var q = r;
  var rr = dot(r, r);
  for i in 0:50
    if rr > 0.00000000
      var w = rescale(H*q, 4);
      var d = dot(q, w);
      if d != 0.00000000
        var a = quot(rr, d, 4);
        x = x + rescale(a*q, 4);
        r = r - rescale(a*w, 4);
        var t = dot(r, r);
        var c = quot(t, rr, 4);
        q = r + rescale(c*q, 4);
        rr = t;
      end
    end
  end
  nodes.x = x;
end
";

/// A host function, an index expression, every kind of parameter, and every other form of statement.
pub const FORMS: &str = "element P
  x : int(2);
  m : matrix[2,2](int(0));
end
extern q : set{P};
extern func mix(int(0), int(0)) -> int(0);
func g(a : int(1), e : P) -> (r : vector[q](vector[2](int(0))), s : matrix[q,q](int(0)))
  for i in 0:3
    if not a < i and a != 2 or a >= 1 r(e) = [i, 1]'; else assert a == i; end
  end
end
proc main
  var v, w = map g(1.5) to q reduce +;
  q.x, u = map g(v) to q reduce +;
  while v(1).y(2,3) <= isqrt(2, 0) .* 3'
    q.x = ix (i) -2*w(i,j)*q.x(j) + v(i);
    t = ix () a + 1;
  end
end
";

/// A function that breaks off.
pub const BROKEN_OFF: &str = "element P\n  x : int(0);\nend\nextern q : set{P};\nfunc g(e : P)";
