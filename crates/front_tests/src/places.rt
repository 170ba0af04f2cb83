//! The place where a text stops being a cut of a program.
use sim_lexer::{TokenKind, lex};
use sim_parser::{ParseFault, parse};
use std::process::Abort;
use std::test::Fail;
use worked_texts::{BROKEN_OFF, DOUBLED, FORMS, GRADIENTS, PULLING, RATIO, STIFFNESS, SUMMED};

/// The token at which a text is refused, if it is. Out of memory is a failure of the test.
fn place_of(rt: &(impl Abort + AllocGlobal), text: &[u8]) -> Result<Option<u32>, Fail> {
    assert!(rt; text.len() <= 1 << 20);
    let tokens = lex(rt.alloc(), text)?;
    match parse(rt.alloc(), text, &tokens) {
        Ok(_) => Ok(None),
        Err(ParseFault::Syntax { token }) => Ok(Some(token)),
        Err(ParseFault::Memory) => Err(Fail::new("no memory")),
    }
}

/// How many tokens a text has before its end.
fn count_of(rt: &(impl Abort + AllocGlobal), text: &[u8]) -> Result<u32, Fail> {
    assert!(rt; text.len() <= 1 << 20);
    let count = lex(rt.alloc(), text)?.list().len();
    Ok(u32::try_from(count.saturating_sub(1)).unwrap_or(0))
}

/// Asserts that each text is refused at the token before which a `@` stands, when it is left out. The tables below have,
/// of each rule of the grammar, texts whose first word is wrong, whose last is missing, and that have one too many.
fn assert_places(
    rt: &(impl Abort + AllocGlobal),
    before: &str,
    texts: &[&str],
    after: &str,
) -> Result<(), Fail> {
    for text in texts {
        let (front, back) = text.split_once('@').unwrap_or(("", ""));
        let front = format!(in rt.alloc(); "{before}{front}")?;
        let whole = format!(in rt.alloc(); "{front}{back}{after}")?;
        let place = count_of(rt, front.as_bytes())?;
        assert_eq!(rt; place_of(rt, whole.as_bytes())?, Some(place), "in {text}");
    }
    Ok(())
}

/// Whole texts.
static PROGRAMS: [&str; 24] = [
    // a program: its first word, its end, one word too many
    "@",
    "% a comment alone@",
    "@x,f",
    "@a = 1;",
    "proc @other end",
    "proc main@",
    "proc main end @end",
    "proc main end @x",
    "proc main end @proc main end",
    "proc main end @func f(e : P) -> (r : vector[s](int(0))) end",
    // an element type
    "element @end",
    "@elements P end",
    "element P x : int(0); @",
    "element P x : int(0); @proc main end",
    "element P end @end proc main end",
    // loops and branches that lack their end or have one too many
    "proc main while 1 < 2 a = 1; end@",
    "proc main while 1 < 2 end end @end",
    "proc main for i in 0:1 end@",
    "proc main for i in 0:1 end end @end",
    "proc main if 1 < 2 else end@",
    "proc main if 1 < 2 else end end @end",
    "proc main if 1 < 2 end end @end",
    "proc main end @a = b; end",
    "proc main a = b; end @a = b; end",
];

/// Fields of an element type.
static FIELDS: [&str; 27] = [
    // a field
    "@1 : int(0);",
    "@by : int(0);",
    "x @int(0);",
    "x @, f : int(0);",
    "x : int(0) @",
    "x : int(0);@;",
    "x : int(0); f @",
    // a number
    "x : @P;",
    "x : @integer(0);",
    "x : int @0;",
    "x : int(@x);",
    "x : int(@-0);",
    "x : int(0 @;",
    "x : int(0)@);",
    // a vector
    "x : vector @(3)(int(0));",
    "x : vector[@n](int(0));",
    "x : vector[3 @,3](int(0));",
    "x : vector[3] @int(0);",
    "x : vector[3](@3);",
    "x : vector[3](int(0) @;",
    "x : vector[3](int(0))@);",
    // a matrix
    "x : matrix @3,3](int(0));",
    "x : matrix[3 @](int(0));",
    "x : matrix[3,3 @,3](int(0));",
    "x : matrix[3,3](@3);",
    "x : matrix[3,3](int(0) @;",
    "x : matrix[3,3](int(0))@);",
];

/// Declarations before a main procedure.
static DECLARATIONS: [&str; 52] = [
    // a set
    "@external s : set{P};",
    "extern @set{P};",
    "extern s @set{P};",
    "extern s : @P;",
    "extern s : set @(P);",
    "extern s : set{@};",
    "extern s : set{P @;",
    "extern s : set{P} @",
    "extern s : set{P};@;",
    "extern s : set{P}(@);",
    "extern s : set{P}(a @b);",
    "extern s : set{P}(a,@);",
    "extern s : set{P}(a @;",
    "extern s : set{P}(a) @",
    "extern s : set{P}(a)@(b);",
    // a host function
    "extern func @(int(0)) -> int(0);",
    "extern func f(@) -> int(0);",
    "extern func f(int(0), @x) -> int(0);",
    "extern func f(int(0)) @int(0);",
    "extern func f(int(0)) -> @;",
    "extern func f(int(0)) -> int(0) @",
    "extern func f(int(0)) -> int(0)@, int(0);",
    "extern func f(int(0)) -> int(0);@;",
    // a function
    "@function f(e : P) -> (r : vector[s](int(0))) end",
    "func @(e : P) -> (r : vector[s](int(0))) end",
    "func f(@) -> (r : vector[s](int(0))) end",
    "func f(e : P) @(r : vector[s](int(0))) end",
    "func f(e : P) -> (@) end",
    "func f(e : P) -> (r : vector[s](int(0))) @",
    "func f(e : P) -> (r : vector[s](int(0))) end @end",
    // a parameter, and its kinds
    "func f(@1 : P) -> (r : vector[s](int(0))) end",
    "func f(e @P) -> (r : vector[s](int(0))) end",
    "func f(e : @-) -> (r : vector[s](int(0))) end",
    "func f(e : @) -> (r : vector[s](int(0))) end",
    "func f(e : P @Q) -> (r : vector[s](int(0))) end",
    "func f(a : int(0 @, e : P) -> (r : vector[s](int(0))) end",
    "func f(e : (@2*P)) -> (r : vector[s](int(0))) end",
    "func f(e : (P @,2)) -> (r : vector[s](int(0))) end",
    "func f(e : (P*@x)) -> (r : vector[s](int(0))) end",
    "func f(e : (P*2 @, a : P) -> (r : vector[s](int(0))) end",
    "func f(e : (P*2@*2)) -> (r : vector[s](int(0))) end",
    // a result
    "func f(e : P) -> (@1 : vector[s](int(0))) end",
    "func f(e : P) -> (r @vector[s](int(0))) end",
    "func f(e : P) -> (r : @int(0)) end",
    "func f(e : P) -> (r : vector[@1](int(0))) end",
    "func f(e : P) -> (r : vector[s @,t](int(0))) end",
    "func f(e : P) -> (r : matrix[s @](int(0))) end",
    "func f(e : P) -> (r : matrix[s,t@,u](int(0))) end",
    "func f(e : P) -> (r : vector[s](int(0) @, t : vector[s](int(0))) end",
    "func f(e : P) -> (r : vector[s](int(0)) @end",
    "func f(e : P) -> (r : vector[s](int(0))) @) end",
    "func f(e : P) -> (r : matrix[s,t](int(0))@(int(0))) end",
];

/// Statements of a function.
static STEPS: [&str; 36] = [
    // statements of functions: none of them, a variable, an assignment
    "@2 = 1;",
    "@while 1 < 2 end",
    "@;",
    "var @= 1;",
    "var a @, b = 1;",
    "var a = @map f to s reduce +;",
    "var a = 1 @",
    "var a = 1;@;",
    "a @;",
    "a = @;",
    "a = 1 @",
    "a = 1 @= 2;",
    // a write and its places
    "r(@) = 1;",
    "r(@1) = 1;",
    "r(e @= 1;",
    "r(e) @;",
    "r(e,@) = 1;",
    "r(e,e @,e) = 1;",
    "r(e) = 1 @",
    "r(e)@(e) = 1;",
    "r(p(@-)) = 1;",
    "r(p(@)) = 1;",
    "r(p(0 @= 1;",
    "r(p(0@,1)) = 1;",
    "r(p(0)@(1)) = 1;",
    // a loop, a branch and a claim
    "for @0 in 0:3 end",
    "for i @0:3 end",
    "for i in @a:3 end",
    "for i in 0 @3 end",
    "for i in 0:@-3 end",
    "if @end",
    "if 1 @end",
    "if 1 < 2 else @else end",
    "assert @;",
    "assert 1 < 2 @",
    "assert 1 < 2;@;",
];

/// Statements of the main procedure.
static STATEMENTS: [&str; 84] = [
    // an assignment and its targets
    "@;",
    "@(a) = 1;",
    "@1 = 2;",
    "@proc main",
    "a @;",
    "a @(0) = 1;",
    "a.@1 = 2;",
    "a.b @.c = 1;",
    "a = @;",
    "a = 1 @",
    "a = 1;@;",
    "a = b @= 1;",
    "a = b; @;",
    "a, @= map f to s reduce +;",
    "a, b = @1;",
    "a, b @;",
    "a, b = map f to s reduce + @",
    // a variable
    "var @= 1;",
    "var a @.x = 1;",
    "var a = @;",
    "var a = 1 @",
    "var a = 1;@;",
    "var a, @= map f to s reduce +;",
    "var a, b = @ix (i) 1;",
    // loops
    "while @end",
    "while 1 @end",
    "while a @= 1; end",
    "for @0 in 0:1 end",
    "for i @0:1 end",
    "for i in @:1 end",
    "for i in 0 @1 end",
    "for i in 0:@end",
    // branches, claims and conditions
    "if @end",
    "if 1 @a = b; end",
    "if a < b else @else end",
    "if @< b end",
    "if a < @end",
    "if a < b @< c end",
    "if not @not a < b end",
    "if not @end",
    "if a < b and @end",
    "if a < b and @or c < d end",
    "if a < b or @end",
    "if a < b or c < d @not end",
    "assert a < b @",
    "assert a < b;@;",
    "assert @;",
    // a map
    "a = mapp @f to s reduce +;",
    "a = map @to s reduce +;",
    "a = map f(@) to s reduce +;",
    "a = map f(b,@) to s reduce +;",
    "a = map f(b @to s reduce +;",
    "a = map f(b)@(c) to s reduce +;",
    "a = map f @s reduce +;",
    "a = map f to @reduce +;",
    "a = map f to s @;",
    "a = map f to s reduce @;",
    "a = map f to s reduce @max;",
    "a = map f to s reduce +@+;",
    "a = -@map f to s reduce +;",
    // an index expression
    "a = ix @i b(i);",
    "a = ix (@1) b;",
    "a = ix (i,@) b;",
    "a = ix (i @b(i);",
    "a = ix (i,j @,k) 1;",
    "a = ix () @;",
    "a = ix ()@() b;",
    "a = ix () @+b;",
    "a = ix (i) -@-b(i);",
    "a = ix () b + @;",
    "a = ix () b @b;",
    "a = ix () @*b;",
    "a = ix () b*@;",
    "a = ix (i) b(i) @.* c;",
    "a = ix () @(b);",
    "a = ix () b.@;",
    "a = ix () b.c @.d;",
    "a = ix () b(@);",
    "a = ix (i) b(@1);",
    "a = ix (i) b(i,@);",
    "a = ix (i) b(i @;",
    "a = ix (i) b(i,j @,k);",
    "a = ix (i) b(i)@(j);",
    "a = ix () -1 - @;",
];

/// Expressions on a right side.
static EXPRESSIONS: [&str; 60] = [
    // a sum, a term, a factor
    "@",
    "@+1",
    "-@-1",
    "-@",
    "1 + @",
    "1 + @-b",
    "1 @b",
    "1 @, b",
    "@*b",
    "2*@",
    "2*@-b",
    "b.*@",
    "@.5*b",
    "@'b",
    "b'@'",
    // parentheses, and a block with its rows
    "(@)",
    "(1 @",
    "(1)@)",
    "[@]",
    "[1 @)",
    "[1]@]",
    "[1,@]",
    "[1,2; @]",
    "[@,1]",
    // a reference and its arguments
    "b(@)",
    "b(1,@)",
    "b(1 @",
    "b(1)@)",
    "b(1)@(2)",
    "b.@",
    "b.@1",
    "b.c(1)@(2)",
    "b.c(1) @.d",
    "b.c(@)",
    // other scales, quotients, roots and scalar products
    "rescale @a",
    "rescale(@, 2)",
    "rescale(a @)",
    "rescale(a, @b)",
    "rescale(a, 2 @",
    "rescale(a, 2 @, 3)",
    "rescale(a, 2)@)",
    "quot @a",
    "quot(a @)",
    "quot(a, b @)",
    "quot(a, b, @c)",
    "quot(a, b, 2 @",
    "quot(a, b, 2 @, 3)",
    "quot(a, b, 2)@)",
    "isqrt @a",
    "isqrt(a @)",
    "isqrt(a, @b)",
    "isqrt(a, 2 @",
    "isqrt(a, 2 @, 3)",
    "isqrt(a, 2)@)",
    "dot @a",
    "dot(a @)",
    "dot(a, @)",
    "dot(a, b @",
    "dot(a, b @, c)",
    "dot(a, b)@)",
];

#[test]
fn syntax_faults_in_every_production(rt: HostRuntime) -> Result<(), Fail> {
    assert_places(&rt, "", &PROGRAMS, "")?;
    assert_places(&rt, "element P ", &FIELDS, " end proc main end")?;
    assert_places(&rt, "", &DECLARATIONS, " proc main end")?;
    let head = "func f(e : P) -> (r : vector[s](int(0))) ";
    assert_places(&rt, head, &STEPS, " end proc main end")?;
    assert_places(&rt, "proc main ", &STATEMENTS, " end")?;
    assert_places(&rt, "proc main a = ", &EXPRESSIONS, "; end")
}

#[test]
fn programs_cut_after_each_token(rt: HostRuntime) -> Result<(), Fail> {
    for program in [PULLING, STIFFNESS, RATIO, DOUBLED, SUMMED, GRADIENTS, FORMS] {
        let text = program.as_bytes();
        assert_eq!(rt; place_of(&rt, text)?, None, "of {program}");
        assert!(rt; text.len() <= 1 << 20);
        let tokens = lex(rt.alloc(), text)?;
        let mut place = 0u32;
        for token in tokens.list().iter().filter(|t| t.kind != TokenKind::End) {
            let Some(cut) = text.get(..token.from as usize) else {
                return Err(Fail::new("a token outside its text"));
            };
            assert_eq!(rt; place_of(&rt, cut)?, Some(place), "of {program}");
            place = place.saturating_add(1);
        }
    }
    Ok(())
}

#[test]
fn a_function_that_breaks_off(rt: HostRuntime) -> Result<(), Fail> {
    assert_eq!(rt; place_of(&rt, BROKEN_OFF.as_bytes())?, Some(25));
    Ok(())
}
