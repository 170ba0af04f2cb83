//! The trees of worked texts.
use sim_lexer::lex;
use sim_parser::parse;
use sim_syntax::{Expr, Lowered, Program, Right, Stmt};
use std::process::Abort;
use std::test::Fail;
use worked_texts::{FORMS, GRADIENTS};

/// The tree of a text that has one.
fn tree(rt: &(impl Abort + AllocGlobal), text: &[u8]) -> Result<Program, Fail> {
    assert!(rt; text.len() <= 1 << 20);
    let tokens = lex(rt.alloc(), text)?;
    Ok(parse(rt.alloc(), text, &tokens)?)
}

/// The lines of a transposed value and of a sum in it.
fn lines_of(value: &Expr) -> (u32, u32) {
    match value {
        Expr::Transposed { line, value } => match value.get() {
            Expr::Sum { line: of_sum, .. } => (*line, *of_sum),
            _ => (*line, 0),
        },
        _ => (0, 0),
    }
}

#[test]
fn expressions_and_their_lines(rt: HostRuntime) -> Result<(), Fail> {
    let program = tree(&rt, b"proc main v=\n(\na\n+b\n)';end")?;
    match program.body.get(0) {
        Some(
            Stmt::Assign {
                right: Right::Value(value),
                ..
            },
        ) => {
            assert_eq!(rt; lines_of(value), (2, 3));
            Ok(())
        }
        _ => Err(Fail::new("another statement")),
    }
}

/// A main procedure with every form of statement.
const STATEMENTS: &[u8] = b"proc main
  var A, B = map stiff(1) to links reduce +;
  nodes.b, c = map stiff(1) to links reduce +;
  for i in 0:50 var r = nodes.b - A*nodes.x; rr = dot(r, r); end
  while not rr < 1 and rr >= 2 or rr != 3
    nodes.x = ix (i) 2*A(j,i)*r(j) - r(i);
  end
  if rr <= 1 else assert rr != 2; end
  assert c > d;
end
";

/// A statement's line, how many names it states or statements it has, and how many after `else`.
fn measured(statement: &Stmt) -> (u32, usize, usize) {
    match statement {
        Stmt::Var { line, names, .. } => (*line, names.len(), 0),
        Stmt::Assign { line, targets, .. } => (*line, targets.len(), 0),
        Stmt::For { line, body, .. } | Stmt::While { line, body, .. } => (*line, body.len(), 0),
        Stmt::If {
            line,
            body,
            otherwise,
            ..
        } => (*line, body.len(), otherwise.len()),
        Stmt::Assert { line, cond } => (*line, cond.parts.len(), 0),
        Stmt::Write { line, .. } | Stmt::ConstFor { line, .. } => (*line, 0, 0),
    }
}

static MEASURED: [(u32, usize, usize); 6] = [
    (2, 2, 0),
    (3, 2, 0),
    (4, 2, 0),
    (5, 1, 0),
    (8, 0, 1),
    (9, 1, 0),
];

#[test]
fn statements_and_their_lines(rt: HostRuntime) -> Result<(), Fail> {
    let program = tree(&rt, STATEMENTS)?;
    assert_eq!(rt; program.body.len(), MEASURED.len());
    for (statement, want) in program.body.as_slice().iter().zip(&MEASURED) {
        assert_eq!(rt; measured(statement), *want);
    }
    Ok(())
}

#[test]
fn programs_without_index_expressions(rt: HostRuntime) -> Result<(), Fail> {
    match Lowered::of(tree(&rt, GRADIENTS.as_bytes())?) {
        Ok(lowered) => assert_eq!(rt; lowered.program().body.len(), 9),
        Err(_) => return Err(Fail::new("an index expression")),
    }
    match Lowered::of(tree(&rt, FORMS.as_bytes())?) {
        Ok(_) => Err(Fail::new("no index expression")),
        Err(program) => {
            assert_eq!(rt; program.body.len(), 3);
            Ok(())
        }
    }
}

/// The most tokens that a text has, of which two stand before its statements and two after them.
#[test]
fn a_program_of_65536_tokens(rt: HostRuntime) -> Result<(), Fail> {
    let alloc = rt.alloc();
    let mut text = String::from_str(alloc, "proc main ")?;
    for _ in 0..16_383 {
        text.push_str("a=b;")?;
    }
    text.push_str("end")?;
    assert_eq!(rt; tree(&rt, text.as_bytes())?.body.len(), 16_383);
    Ok(())
}

/// The most levels that are open at once, in each place where one opens.
#[test]
fn levels_to_the_depth_of_64(rt: HostRuntime) -> Result<(), Fail> {
    let alloc = rt.alloc();
    for (open, close) in [
        ("(", ")"),
        ("[", "]"),
        ("a(", ")"),
        ("-(", ")"),
        ("(1+", ")"),
    ] {
        let opened = open.repeat(alloc, 64)?;
        let closed = close.repeat(alloc, 64)?;
        let text = format!(in alloc; "proc main a = {opened}1{closed}; end")?;
        assert_eq!(rt; tree(&rt, text.as_bytes())?.body.len(), 1, "in {open}");
    }
    let opened = "while 1<2 if 1<2 for i in 0:1 ".repeat(alloc, 21)?;
    let closed = "end end end ".repeat(alloc, 21)?;
    let text = format!(in alloc; "proc main {opened}a = (1); {closed} end")?;
    assert_eq!(rt; tree(&rt, text.as_bytes())?.body.len(), 1);
    Ok(())
}
