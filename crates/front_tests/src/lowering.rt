//! Index expressions and the products that they are lowered to.
use index_notation::{LowerFault, lower};
use sim_lexer::lex;
use sim_parser::parse;
use sim_printer::print;
use sim_syntax::{Expr, Lowered, Program, Right, Stmt};
use std::process::Abort;
use std::test::Fail;

/// The tree of a text that has one.
fn tree(rt: &(impl Abort + AllocGlobal), text: &[u8]) -> Result<Program, Fail> {
    assert!(rt; text.len() <= 1 << 20);
    let tokens = lex(rt.alloc(), text)?;
    Ok(parse(rt.alloc(), text, &tokens)?)
}

/// Index expressions, and what is assigned in their place.
static LOWERED: [(&str, &str); 44] = [
    // no free index
    ("ix () 2", "2"),
    ("ix () -2", "-2"),
    ("ix () a", "a"),
    ("ix () a*2*b.c", "a*2*b.c"),
    ("ix () v(k)*w(k)", "dot(v, w)"),
    ("ix () w(k)*v(k)", "dot(w, v)"),
    ("ix () v(j)*A(j,k)*w(k)", "dot(v, A*w)"),
    ("ix () w(k)*A(j,k)*v(j)", "dot(w, A'*v)"),
    ("ix () A(j,k)*w(k)*v(j)", "dot(w, A'*v)"),
    ("ix () A(j,k)*v(j)*w(k)", "dot(v, A*w)"),
    (
        "ix () C(d,c)*A(a,b)*w(d)*B(c,b)*v(a)",
        "dot(w, C*(B*(A'*v)))",
    ),
    ("ix () a*v(k)*2*w(k)*b", "a*2*b*dot(v, w)"),
    ("ix () -v(k)*w(k)+3", "-dot(v, w)+3"),
    (
        "ix () v(k)*w(k)-a*u.x(k)*u.x(k)",
        "dot(v, w)-a*dot(u.x, u.x)",
    ),
    // one free index
    ("ix (i) v(i)", "v"),
    ("ix (i) -v(i)", "-v"),
    ("ix (i) v(i)*w(i)", "v.*w"),
    ("ix (i) v(i)*w(i)*u(i)", "v.*w.*u"),
    ("ix (i) 2*v(i)", "2*v"),
    ("ix (i) v(i)*a*w(i)*2", "a*2*(v.*w)"),
    ("ix (i) A(i,j)*v(j)", "A*v"),
    ("ix (i) A(j,i)*v(j)", "A'*v"),
    ("ix (i) v(j)*A(i,j)", "A*v"),
    ("ix (i) v(j)*A(j,i)", "A'*v"),
    ("ix (i) 2*K(j,i)*points.x(j)", "2*(K'*points.x)"),
    ("ix (i) A(i,j)*B(j,k)*v(k)", "A*(B*v)"),
    ("ix (i) v(k)*B(k,j)*A(j,i)", "A'*(B'*v)"),
    ("ix (i) w(i)*A(i,j)*v(j)", "w.*(A*v)"),
    ("ix (i) v(j)*w(i)*A(i,j)", "(A*v).*w"),
    ("ix (i) w(i)*v(j)*A(i,j)", "w.*(A*v)"),
    ("ix (i) v(k)*u(j)*A(i,j)*w(i)*B(i,k)", "(B*v).*(A*u).*w"),
    ("ix (i) A(i,j)*v(j)+B(i,j)*v(j)-w(i)", "A*v+B*v-w"),
    ("ix (j) A(i,j)*v(i)", "A'*v"),
    // two free indices
    ("ix (i,j) A(i,j)", "A"),
    ("ix (i,j) A(j,i)", "A'"),
    ("ix (j,i) A(j,i)", "A"),
    ("ix (i,j) A(i,k)*B(k,j)", "A*B"),
    ("ix (i,j) B(k,j)*A(i,k)", "A*B"),
    ("ix (i,j) A(k,i)*B(j,k)", "A'*B'"),
    ("ix (i,j) a*C(m,j)*A(i,k)*3*B(m,k)", "a*3*(A*B'*C)"),
    ("ix (i,j) A(i,k)*B(k,m)*C(m,j)", "A*B*C"),
    ("ix (i,j) -A(i,j)+A(j,i)", "-A+A'"),
    // nine factors
    (
        "ix (i,r) I(q,r)*B(k,j)*F(n,o)*A(i,j)*H(p,q)*D(l,m)*G(o,p)*C(k,l)*E(n,m)",
        "A*B'*C*D*E'*F*G*H*I",
    ),
    (
        "ix () w(p)*E(n,m)*A(j,i)*C(k,l)*u(i)*G(o,p)*D(l,m)*B(k,j)*F(n,o)",
        "dot(w, G'*(F'*(E*(D'*(C'*(B*(A*u)))))))",
    ),
];

/// The text of a program that assigns a right side.
fn assigning(rt: &(impl Abort + AllocGlobal), right: &str) -> Result<Vec<u8>, Fail> {
    let text = format!(in rt.alloc(); "proc main if a < b v = {right}; end end")?;
    Ok(Vec::from_slice(rt.alloc(), text.as_str().as_bytes())?)
}

#[test]
fn index_expressions_as_products(rt: HostRuntime) -> Result<(), Fail> {
    for (text, want) in &LOWERED {
        let found = lower(rt.alloc(), tree(&rt, &assigning(&rt, text)?)?)?;
        let found = print(rt.alloc(), found.program())?;
        let want = print(rt.alloc(), &tree(&rt, &assigning(&rt, want)?)?)?;
        assert_eq!(rt; found.as_slice(), want.as_slice(), "of {text}");
    }
    Ok(())
}

/// Free indices, six factors, and what the term is lowered to in whatever order they stand.
static CHAINS: [(&str, &[&str], &str); 2] = [
    (
        "i,o",
        &["A(i,j)", "B(k,j)", "C(k,l)", "D(l,m)", "E(n,m)", "F(n,o)"],
        "A*B'*C*D*E'*F",
    ),
    (
        "i",
        &["A(i,j)", "B(k,j)", "C(k,l)", "D(l,m)", "E(n,m)", "v(n)"],
        "A*(B'*(C*(D*(E'*v))))",
    ),
];

/// A term of factors in one of the orders that they can have, by its number.
fn in_order(
    rt: &(impl Abort + AllocGlobal),
    factors: &[&str],
    number: usize,
) -> Result<String, Fail> {
    let mut left = Vec::from_slice(rt.alloc(), factors)?;
    let mut number = number;
    let mut term = String::new(rt.alloc());
    for taken in 0..factors.len() {
        let count = factors.len() - taken;
        let at = number % count;
        number /= count;
        if at < left.len() {
            if !term.is_empty() {
                term.push_str("*")?;
            }
            term.push_str(left.remove(at))?;
        }
    }
    Ok(term)
}

#[test]
fn six_factors_in_every_order(rt: HostRuntime) -> Result<(), Fail> {
    for (free, factors, want) in &CHAINS {
        let want = print(rt.alloc(), &tree(&rt, &assigning(&rt, want)?)?)?;
        for number in 0..720 {
            let term = in_order(&rt, factors, number)?;
            let text = format!(in rt.alloc(); "ix ({free}) {term}")?;
            let found = lower(rt.alloc(), tree(&rt, &assigning(&rt, text.as_str())?)?)?;
            let found = print(rt.alloc(), found.program())?;
            assert_eq!(rt; found.as_slice(), want.as_slice(), "of {text}");
        }
    }
    Ok(())
}

/// Index expressions that aren't in chain form.
static REFUSED: [&str; 30] = [
    "ix () v(k)",
    "ix () A(k,k)",
    "ix () A(j,k)*B(k,j)",
    "ix () v(k)*w(k)*u(k)",
    "ix () v(k)*w(k)*u(k)*t(k)",
    "ix () v(k)*w(k)*u(m)*t(m)",
    "ix () v(k)*w(k)*A(j,m)*B(m,j)",
    "ix () v(k)*A(k,k)*w(k)",
    "ix () v(j)*w(k)",
    "ix () v(j)*A(j,k)*w(k) + v(m)",
    "ix (i) 2",
    "ix (i) a*b",
    "ix (i) v(j)*w(j)",
    "ix (i) A(i,i)",
    "ix (i) A(i,i)*v(i)",
    "ix (i) A(i,j)",
    "ix (i) A(i,j)*v(j)*w(j)",
    "ix (i) A(i,j)*B(i,j)",
    "ix (i) A(i,j)*B(j,k)",
    "ix (i) w(i)*v(j)*u(j)",
    "ix (i) A(j,k)*v(k)*u(j)*w(i)",
    "ix (i) v(i)+2",
    "ix (i,j) v(i)*w(j)",
    "ix (i,j) v(i)",
    "ix (i,j) A(i,j)*B(i,j)",
    "ix (i,j) A(i,k)*B(j,m)",
    "ix (i,j) A(i,k)*B(k,j)*v(i)",
    "ix (i,j) A(i,k)*B(k,i)*C(i,j)",
    "ix (i,i) A(i,i)",
    "ix (i,i) A(i,k)*B(k,i)",
];

#[test]
fn index_expressions_that_are_no_chains(rt: HostRuntime) -> Result<(), Fail> {
    for text in &REFUSED {
        match lower(rt.alloc(), tree(&rt, &assigning(&rt, text)?)?) {
            Err(LowerFault::NotAChain { line }) => assert_eq!(rt; line, 1, "of {text}"),
            Err(LowerFault::Memory) => return Err(Fail::new("no memory")),
            Ok(_) => assert!(rt; false, "of {text}"),
        }
    }
    Ok(())
}

/// The first statement's right side.
fn value_of(program: &Lowered) -> Option<&Expr> {
    match program.program().body.get(0) {
        Some(
            Stmt::Assign {
                right: Right::Value(value),
                ..
            },
        ) => Some(value),
        _ => None,
    }
}

/// The line of an expression.
fn line_of(e: &Expr) -> u32 {
    match e {
        Expr::Number { line, .. }
        | Expr::Ref { line, .. }
        | Expr::Block { line, .. }
        | Expr::Sum { line, .. }
        | Expr::Product { line, .. }
        | Expr::Transposed { line, .. }
        | Expr::Rescale { line, .. }
        | Expr::Quot { line, .. }
        | Expr::Isqrt { line, .. }
        | Expr::Dot { line, .. } => *line,
    }
}

#[test]
fn lines_of_made_nodes(rt: HostRuntime) -> Result<(), Fail> {
    let text = b"proc main v = ix (i)\n-\nw(j)\n*A(j,i)\n+u(i); end";
    let program = lower(rt.alloc(), tree(&rt, text)?)?;
    let Some(Expr::Sum { line, terms }) = value_of(&program) else {
        return Err(Fail::new("no sum"));
    };
    assert_eq!(rt; *line, 1);
    let Some(term) = terms.get(0) else {
        return Err(Fail::new("no term"));
    };
    let Expr::Product { line, factors } = &term.value else {
        return Err(Fail::new("no product"));
    };
    assert_eq!(rt; (term.line, *line), (3, 3));
    let lines: Vec<u32> = factors
        .as_slice()
        .iter()
        .map(|factor| line_of(&factor.value))
        .collect(rt.alloc())?;
    assert_eq!(rt; lines.as_slice(), [4, 3].as_slice());
    Ok(())
}
