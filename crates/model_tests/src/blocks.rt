//! Blocks: fields and matrices of them, and their entries.
use std::test::Fail;
use test_calls::{Row, assert_printed};
use worked_texts::POINTS;

/// Programs, their tables, and what is printed.
static PRINTED: [Row; 4] = [
    (
        &[
            "element N
  a : vector[3](int(1));
  b : vector[2](int(1));
end
element L
  m : matrix[2,3](int(0));
end
extern ns : set{N};
extern ls : set{L}(ns, ns);
func f(s : L, p : (N*2)) -> (K : matrix[ns,ns](matrix[2,3](int(0))))
  K(p(0),p(1)) = s.m;
  K(p(1),p(1)) = 3 * s.m;
  K(p(1),p(0)) = -s.m * 2;
end
proc main
  var K = map f to ls reduce +;
  var y = K*ns.a;
  ns.a = K'*ns.b - 2*ns.a;
  ns.b = y + ns.b;
end
",
        ],
        &[
            "a.0,a.1,a.2,b.0,b.1\n0.3,-1.3,5.0,3.6,3.8\n2.7,-1.4,-4.6,2.0,-0.9\n-3.3,-2.6,5.0,-3.3,-4.1\n-1.1,3.3,0.9,-2.3,-1.0\n",
            "p0,p1,m.0.0,m.0.1,m.0.2,m.1.0,m.1.1,m.1.2\n2,0,-37,-18,-27,-6,38,34\n3,2,-34,2,-47,46,-28,34\n1,1,-39,19,47,35,7,13\n2,3,-35,29,-37,-35,5,47\n1,1,23,-1,18,-18,26,1\n1,1,-16,31,-8,10,7,25\n",
        ],
        "set ns\na.0,a.1,a.2,b.0,b.1\n-321.9,145.0,35.7,-432.3,178.2\n-182.0,126.8,167.0,-832.4,-325.9\n-109.4,337.4,-29.0,-412.5,709.8\n760.5,-554.3,10.5,462.2,-293.1\nset ls\np0,p1,m.0.0,m.0.1,m.0.2,m.1.0,m.1.1,m.1.2\n2,0,-37,-18,-27,-6,38,34\n3,2,-34,2,-47,46,-28,34\n1,1,-39,19,47,35,7,13\n2,3,-35,29,-37,-35,5,47\n1,1,23,-1,18,-18,26,1\n1,1,-16,31,-8,10,7,25\n",
    ),
    (
        &[
            "element Point
  x : int(0);
  f : int(0);
end
element Face
  w : vector[3](int(0));
end
extern points : set{Point};
extern faces : set{Face}(points, points, points);
func area(s : Face, p : (Point*3)) -> (f : vector[points](int(0)))
  for i in 0:3
    f(p(i)) = s.w(i)*p(i).x;
  end
end
proc main
  points.f = map area to faces reduce +;
end
",
        ],
        &[
            POINTS,
            "p0,p1,p2,w.0,w.1,w.2\n0,1,2,1,2,3\n2,2,0,10,20,30\n",
        ],
        "set points\nx,f\n0,0\n10,20\n25,825\nset faces\np0,p1,p2,w.0,w.1,w.2\n0,1,2,1,2,3\n2,2,0,10,20,30\n",
    ),
    (
        &[
            "element P
  m : matrix[2,3](int(0));
  v : vector[3](int(0));
  t : int(0);
end
extern ps : set{P};
func c(e : P) -> (t : vector[ps](int(0)))
  for i in 0:2
    for j in 0:3
      t(e) = e.m(i,j)*e.v(j)*(i + 1);
    end
  end
  t(e) = 1000*e.m(1,2) + e.v(0);
end
proc main
  ps.t = map c to ps reduce +;
end
",
        ],
        &["m.0.0,m.0.1,m.0.2,m.1.0,m.1.1,m.1.2,v.0,v.1,v.2,t\n1,2,3,4,5,6,7,8,9,0\n"],
        "set ps\nm.0.0,m.0.1,m.0.2,m.1.0,m.1.1,m.1.2,v.0,v.1,v.2,t\n1,2,3,4,5,6,7,8,9,6301\n",
    ),
    (
        &[
            "element P
  x : vector[3](int(1));
  m : matrix[2,2](int(0));
  y : int(1);
end
extern ps : set{P};
proc main
  ps.x = ps.x - ps.x - ps.x + 2*ps.x*2;
end
",
        ],
        &["x.0,x.1,x.2,m.0.0,m.0.1,m.1.0,m.1.1,y\n1.5,2,-3,1,2,3,4,0\n-0.5,0,0.1,-1,0,7,2,2.5\n"],
        "set ps\nx.0,x.1,x.2,m.0.0,m.0.1,m.1.0,m.1.1,y\n4.5,6.0,-9.0,1,2,3,4,0.0\n-1.5,0.0,0.3,-1,0,7,2,2.5\n",
    ),
];

#[test]
fn blocks_and_what_they_print(rt: HostRuntime) -> Result<(), Fail> {
    assert_printed(&rt, &PRINTED)
}
