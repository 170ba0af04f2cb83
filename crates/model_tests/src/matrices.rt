//! Assembled matrices: what is put at their places, their products with vectors, their transposes, and the sets of their sides.
use std::test::Fail;
use test_calls::{Row, assert_printed, assert_run, done, refused};
use worked_texts::{DOUBLED, POINTS, POINTS_AND_SPRINGS, RATIO, SPRINGS, STIFF, STIFFNESS};

/// Programs, their tables, and what is printed.
static PRINTED: [Row; 9] = [
    (
        &[STIFFNESS],
        &[POINTS, SPRINGS],
        "set points\nx,f\n0,20\n10,25\n25,-45\nset springs\np0,p1,k\n0,1,2\n1,2,3\n",
    ),
    (
        &[
            POINTS_AND_SPRINGS,
            STIFF,
            "proc main
  var K = map stiff to springs reduce +;
  points.f = rescale(K,0)*points.x;
end
",
        ],
        &[POINTS, SPRINGS],
        "set points\nx,f\n0,-20\n10,-25\n25,45\nset springs\np0,p1,k\n0,1,2\n1,2,3\n",
    ),
    (
        &[DOUBLED],
        &[POINTS, "p0,p1,k\n1,1,5\n"],
        "set points\nx,f\n0,0\n10,100\n25,0\nset springs\np0,p1,k\n1,1,5\n",
    ),
    (
        &[
            POINTS_AND_SPRINGS,
            STIFF,
            "proc main
  var K = map stiff to springs reduce +;
  points.f = rescale(K,0)*points.x;
end
",
        ],
        &[POINTS, "p0,p1,k\n0,1,2\n0,1,2\n"],
        "set points\nx,f\n0,-40\n10,40\n25,0\nset springs\np0,p1,k\n0,1,2\n0,1,2\n",
    ),
    (
        &[RATIO],
        &[POINTS, SPRINGS],
        "set points\nx,f\n0,0\n10,0\n25,0\nset springs\np0,p1,k\n0,1,2\n1,2,3\n",
    ),
    (
        &[
            POINTS_AND_SPRINGS,
            STIFF,
            "proc main
  var K = map stiff to springs reduce +;
  springs.k = springs.k + springs.k;
  points.f = -(K*points.x);
end
",
        ],
        &[POINTS, SPRINGS],
        "set points\nx,f\n0,20\n10,25\n25,-45\nset springs\np0,p1,k\n0,1,4\n1,2,6\n",
    ),
    (
        &[
            POINTS_AND_SPRINGS,
            STIFF,
            "proc main
  var K = map stiff to springs reduce +;
  points.x = K*points.x;
end
",
        ],
        &[POINTS, SPRINGS],
        "set points\nx,f\n-20,0\n-25,0\n45,0\nset springs\np0,p1,k\n0,1,2\n1,2,3\n",
    ),
    (
        &[
            "element A
  x : int(0);
end
element B
  y : int(0);
end
element L
  k : int(0);
end
extern as : set{A};
extern bs : set{B};
extern la : set{L}(as, as);
extern lb : set{L}(bs);
func fa(s : L, p : (A*2)) -> (M : matrix[la,as](int(0)), c : vector[la](int(0)))
  M(s,p(1)) = s.k;
  M(s,p(0)) = 1;
  c(s) = p(0).x;
end
func fb(s : L, q : (B*1)) -> (y : vector[bs](int(0)))
  y(q(0)) = s.k*q(0).y;
end
func add(s : L) -> (k : vector[lb](int(0)))
  k(s) = s.k + 1;
end
proc main
  var M, c = map fa to la reduce +;
  bs.y = map fb to lb reduce +;
  la.k = M*as.x + c;
  as.x = M'*la.k;
  lb.k = map add to lb reduce +;
end
",
        ],
        &[
            "x\n1\n2\n3\n",
            "y\n5\n7\n",
            "p0,p1,k\n0,1,10\n1,2,20\n",
            "p0,k\n1,3\n1,4\n0,0\n",
        ],
        "set as\nx\n22\n284\n1280\nset bs\ny\n0\n49\nset la\np0,p1,k\n0,1,22\n1,2,64\nset lb\np0,k\n1,4\n1,5\n0,1\n",
    ),
    (
        &[
            "element P
  x : int(0);
end
element L
  k : int(0);
end
extern a0 : set{P};
extern a1 : set{P};
extern a2 : set{P};
extern a3 : set{P};
extern l0 : set{L}(a0, a0);
extern l1 : set{L}(a1, a1);
extern l2 : set{L}(a2, a2);
extern l3 : set{L}(a3, a3);
func f0(s : L, p : (P*2)) -> (M : matrix[a0,l0](int(0)))
  M(p(0),s) = s.k;
  M(p(1),s) = -p(1).x;
end
func f1(s : L, p : (P*2)) -> (M : matrix[a1,l1](int(0)))
  M(p(0),s) = s.k;
  M(p(1),s) = -p(1).x;
end
func f2(s : L, p : (P*2)) -> (M : matrix[a2,l2](int(0)))
  M(p(0),s) = s.k;
  M(p(1),s) = -p(1).x;
end
func f3(s : L, p : (P*2)) -> (M : matrix[a3,l3](int(0)))
  M(p(0),s) = s.k;
  M(p(1),s) = -p(1).x;
end
proc main
  var M0 = map f0 to l0 reduce +;
  a0.x = M0*l0.k;
  l0.k = M0'*a0.x;
  var M1 = map f1 to l1 reduce +;
  a1.x = M1*l1.k;
  l1.k = M1'*a1.x;
  var M2 = map f2 to l2 reduce +;
  a2.x = M2*l2.k;
  l2.k = M2'*a2.x;
  var M3 = map f3 to l3 reduce +;
  a3.x = M3*l3.k;
  l3.k = M3'*a3.x;
end
",
        ],
        &[
            "x\n1\n-3\n",
            "x\n2\n-1\n",
            "x\n3\n1\n",
            "x\n4\n3\n",
            "p0,p1,k\n0,1,5\n1,0,0\n",
            "p0,p1,k\n0,1,6\n1,1,-1\n",
            "p0,p1,k\n0,1,7\n1,0,-2\n",
            "p0,p1,k\n0,1,8\n1,1,-3\n",
        ],
        "set a0\nx\n25\n15\nset a1\nx\n36\n6\nset a2\nx\n55\n-3\nset a3\nx\n64\n-6\nset l0\np0,p1,k\n0,1,170\n1,0,-25\nset l1\np0,p1,k\n0,1,222\n1,1,0\nset l2\np0,p1,k\n0,1,388\n1,0,-159\nset l3\np0,p1,k\n0,1,530\n1,1,36\n",
    ),
];

#[test]
fn matrices_and_what_they_print(rt: HostRuntime) -> Result<(), Fail> {
    assert_printed(&rt, &PRINTED)
}

/// Index expressions in line 18, after a stiffness matrix, with what is printed or the note: a matrix times a vector, its
/// transpose, and products entry by entry; one that is no chain; and a matrix without indices, which is no scalar.
static INDEXED: [(&str, &str, &str); 5] = [
    (
        "ix (i) -K(i,j)*points.x(j)",
        "set points\nx,f\n0,20\n10,25\n25,-45\nset springs\np0,p1,k\n0,1,2\n1,2,3\n",
        "",
    ),
    (
        "ix (i) 2*K(j,i)*points.x(j)",
        "set points\nx,f\n0,-40\n10,-50\n25,90\nset springs\np0,p1,k\n0,1,2\n1,2,3\n",
        "",
    ),
    (
        "ix (i) points.x(i)*points.x(i)",
        "set points\nx,f\n0,0\n10,100\n25,625\nset springs\np0,p1,k\n0,1,2\n1,2,3\n",
        "",
    ),
    (
        "ix (i) K(i,i)*points.x(i)",
        "",
        "refused: line 18: not a chain\n",
    ),
    ("ix (i) K*points.x(i)", "", "refused: line 18: shape\n"),
];

#[test]
fn index_expressions_over_a_matrix(rt: HostRuntime) -> Result<(), Fail> {
    let map = "proc main\n  var K = map stiff to springs reduce +;\n  points.f = ";
    for (indexed, out, note) in &INDEXED {
        let program = [POINTS_AND_SPRINGS, STIFF, map, indexed, ";\nend\n"];
        let end = if note.is_empty() {
            done(out)
        } else {
            refused(note)
        };
        assert_run(&rt, &program, &[POINTS, SPRINGS], end)?;
    }
    Ok(())
}
