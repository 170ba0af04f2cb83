//! Printed trees: all tokens on one line with a blank after each, and parentheses only where they are needed.
use sim_lexer::{TokenKind, lex};
use sim_parser::parse;
use sim_printer::print;
use std::process::Abort;
use std::test::Fail;
use worked_texts::{DOUBLED, FORMS, GRADIENTS, PULLING, RATIO, SUMMED};

/// The tree of a text, printed.
fn printed(rt: &(impl Abort + AllocGlobal), text: &[u8]) -> Result<Vec<u8>, Fail> {
    assert!(rt; text.len() <= 1 << 20);
    let tokens = lex(rt.alloc(), text)?;
    let tree = parse(rt.alloc(), text, &tokens)?;
    Ok(print(rt.alloc(), &tree)?)
}

/// The tokens of a text before its end, with a blank after each.
fn spread(rt: &(impl Abort + AllocGlobal), text: &[u8]) -> Result<Vec<u8>, Fail> {
    assert!(rt; text.len() <= 1 << 20);
    let tokens = lex(rt.alloc(), text)?;
    let mut line = Vec::new(rt.alloc());
    for token in tokens.list().iter().filter(|t| t.kind != TokenKind::End) {
        let Some(part) = text.get(token.from as usize..token.to as usize) else {
            return Err(Fail::new("a token outside its text"));
        };
        line.extend_from_slice(part)?;
        line.push(b' ')?;
    }
    Ok(line)
}

/// Statements of the main procedure, and how they are printed.
static STATEMENTS: [(&str, &str); 26] = [
    ("v=1+2*3;", "v = 1 + 2 * 3 ;"),
    ("v=-a-b';", "v = - a - b ' ;"),
    ("v=a-b-c;", "v = a - b - c ;"),
    ("v=2*3*k;", "v = 2 * 3 * k ;"),
    (
        "v=isqrt(dot(r,q),2)';",
        "v = isqrt ( dot ( r , q ) , 2 ) ' ;",
    ),
    ("v=((x));", "v = x ;"),
    ("v=-(x);", "v = - x ;"),
    ("v=-(a*b);", "v = - a * b ;"),
    ("v=-(a+b);", "v = - ( a + b ) ;"),
    ("v=(a-b)-c;", "v = ( a - b ) - c ;"),
    ("v=a-(b-c);", "v = a - ( b - c ) ;"),
    ("v=(a+b)*(c).*d;", "v = ( a + b ) * c .* d ;"),
    ("v=a*(b*c);", "v = a * ( b * c ) ;"),
    ("v=(a*b)'+(-c);", "v = ( a * b ) ' + ( - c ) ;"),
    ("v=(a')'*(b');", "v = ( a ' ) ' * b ' ;"),
    ("v=[1,-2;(a+b),c];", "v = [ 1 , - 2 ; a + b , c ] ;"),
    ("v=a(1,(2)).b(3+4);", "v = a ( 1 , 2 ) . b ( 3 + 4 ) ;"),
    (
        "v=rescale((a+b),2)*quot(a,b,3);",
        "v = rescale ( a + b , 2 ) * quot ( a , b , 3 ) ;",
    ),
    (
        "v=isqrt(c,4)*dot(d,(e));",
        "v = isqrt ( c , 4 ) * dot ( d , e ) ;",
    ),
    (
        "if not (a)<b and c==d or e!=f x=y; else x.y=z; end",
        "if not a < b and c == d or e != f x = y ; else x . y = z ; end",
    ),
    ("if a>b else end", "if a > b end"),
    ("while a<=(b+c) end", "while a <= b + c end"),
    ("for i in (0):1+2 end", "for i in 0 : 1 + 2 end"),
    ("assert a>=b;", "assert a >= b ;"),
    (
        "var v,w=map g(1.5,(a)) to q reduce +;",
        "var v , w = map g ( 1.5 , a ) to q reduce + ;",
    ),
    (
        "q.x=ix(i,j)-2*w(i,j)*q.x(j)+v(i);",
        "q . x = ix ( i , j ) - 2 * w ( i , j ) * q . x ( j ) + v ( i ) ;",
    ),
];

#[test]
fn statements_as_they_are_printed(rt: HostRuntime) -> Result<(), Fail> {
    for (text, want) in &STATEMENTS {
        let whole = format!(in rt.alloc(); "proc\nmain %\n{text} end")?;
        let want = format!(in rt.alloc(); "proc main {want} end ")?;
        let once = printed(&rt, whole.as_bytes())?;
        assert_eq!(rt; once.as_slice(), want.as_bytes(), "of {text}");
        let twice = printed(&rt, &once)?;
        assert_eq!(rt; twice.as_slice(), want.as_bytes(), "of {text}");
    }
    Ok(())
}

#[test]
fn programs_without_spare_parentheses(rt: HostRuntime) -> Result<(), Fail> {
    for program in [PULLING, RATIO, DOUBLED, SUMMED, GRADIENTS, FORMS] {
        let text = program.as_bytes();
        let once = printed(&rt, text)?;
        let want = spread(&rt, text)?;
        assert_eq!(rt; once.as_slice(), want.as_slice(), "of {program}");
    }
    Ok(())
}
