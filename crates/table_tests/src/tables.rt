//! Tables of points and of springs between them: the texts of the sets that they state, and the first faults of others.
ghost use Rattle.std.specs.Prelude.{◌≡◌, ◌≤◌, ◌<◌, IfOk, length};
ghost use Rattle.vocabulary.specs.declared.limits.TheConstants.{MOST_FIELD_SCALE, MOST_SETS};
ghost use Rattle.hypergraph.specs.Sets.{AllLieOverEarlier, set_at};
ghost use Rattle.set_tables.specs.Schema.{Fits, IsSchema};

use hypergraph::{SetData, Sets};
use set_tables::{Column, Schema, read_table, text_len, write_table};
use std::alloc::{AllocError, Global};
use std::test::Fail;
use vocabulary::{L, Text};

/// A column of a scale.
fn column(alloc: Global, heading: &'static str, scale: u32) -> Result<Column, AllocError>
    requires heading { length heading.now ≤ 8 }
    requires scale { scale ≤ MOST_FIELD_SCALE }
    ensures scale { IfOk result (λ column. column.scale ≤ MOST_FIELD_SCALE) }
    ensures heading { IfOk result (λ column. length column.heading ≤ 8) }
{
    Ok(Column {
        heading: Text::of(String::from_str(alloc, heading)?),
        scale,
    })
}

/// Points with the columns `x` and `f`.
fn points(alloc: Global) -> Result<Schema, AllocError>
    ensures schema { IfOk result (λ schema. IsSchema schema) }
    ensures arity { IfOk result (λ schema. schema.arity ≡ 0) }
    ensures columns { IfOk result (λ schema. length schema.columns ≡ 2) }
{
    let columns = vec![in alloc; column(alloc, "x", 0)?, column(alloc, "f", 0)?]?;
    Ok(Schema {
        name: Text::of(String::from_str(alloc, "points")?),
        arity: 0,
        columns: L::of(columns),
    })
}

/// Points with a column of scale 2 and one of scale 18, as entries of blocks have them.
fn scaled(alloc: Global) -> Result<Schema, AllocError>
    ensures schema { IfOk result (λ schema. IsSchema schema) }
    ensures arity { IfOk result (λ schema. schema.arity ≡ 0) }
    ensures columns { IfOk result (λ schema. length schema.columns ≡ 2) }
{
    let columns = vec![in alloc; column(alloc, "x.0", 2)?, column(alloc, "m.1.0", 18)?]?;
    Ok(Schema {
        name: Text::of(String::from_str(alloc, "points")?),
        arity: 0,
        columns: L::of(columns),
    })
}

/// Springs of two endpoints with the column `k`.
fn springs(alloc: Global) -> Result<Schema, AllocError>
    ensures schema { IfOk result (λ schema. IsSchema schema) }
    ensures arity { IfOk result (λ schema. schema.arity ≡ 2) }
    ensures columns { IfOk result (λ schema. length schema.columns ≡ 1) }
{
    let columns = vec![in alloc; column(alloc, "k", 0)?]?;
    Ok(Schema {
        name: Text::of(String::from_str(alloc, "springs")?),
        arity: 2,
        columns: L::of(columns),
    })
}

/// The text of a set of a list, by its number.
fn text_of(alloc: Global, schema: &Schema, list: Vec<SetData>, set: u32) -> Result<Vec<u8>, Fail>
    requires schema { IsSchema schema.now }
    requires few { length list.items ≤ MOST_SETS }
    requires over_earlier { AllLieOverEarlier list.items }
    requires set { set < length list.items }
    requires fits { Fits schema.now (set_at list.items set) }
{
    let sets = Sets::of(list)?;
    let mut text = Vec::with_capacity(alloc, text_len(schema, &sets, set))?;
    write_table(schema, &sets, set, &mut text);
    Ok(text)
}

/// The text of the points that a table states, or its fault.
fn points_text(alloc: Global, schema: &Schema, bytes: &[u8]) -> Result<Vec<u8>, Fail>
    requires schema { IsSchema schema.now }
    requires arity { schema.now.arity ≡ 0 }
    requires columns { length schema.now.columns ≡ 2 }
    requires size { length bytes.now ≤ 1000 }
{
    match read_table(alloc, schema, None, 0, bytes) {
        Ok(points) => text_of(alloc, schema, vec![in alloc; points]?, 0),
        Err(fault) => Ok(format!(in alloc; "{fault}")?.into_bytes()),
    }
}

/// The text of the springs between so many points that a table states, or its fault.
fn springs_text(alloc: Global, schema: &Schema, count: u32, bytes: &[u8]) -> Result<Vec<u8>, Fail>
    requires schema { IsSchema schema.now }
    requires arity { schema.now.arity ≡ 2 }
    requires columns { length schema.now.columns ≡ 1 }
    requires count { count ≤ 2 }
    requires size { length bytes.now ≤ 1000 }
{
    let points = SetData::new(count, None, 0, Vec::new(alloc), L::empty(alloc));
    match read_table(alloc, schema, Some(0), count, bytes) {
        Ok(springs) => text_of(alloc, schema, vec![in alloc; points, springs]?, 1),
        Err(fault) => Ok(format!(in alloc; "{fault}")?.into_bytes()),
    }
}

/// Tables of points, and the texts of their sets or their first faults as they are displayed.
static POINTS: [(&[u8], &str); 47] = [
    (b"x,f\n3,4\n-1,2\n", "set points\nx,f\n3,4\n-1,2\n"),
    // the header alone, and no line end at the end
    (b"x,f\n", "set points\nx,f\n"),
    (b"x,f", "set points\nx,f\n"),
    (b"x,f\n3,4", "set points\nx,f\n3,4\n"),
    // each line end, and lines without a cell
    (
        b"\r\n\n\rx,f\r\n3,4\r\r\n\n-1,2\r5,6",
        "set points\nx,f\n3,4\n-1,2\n5,6\n",
    ),
    // spaces around headings and cells
    (
        b" x ,  f  \n 3,4 \n  -1  ,  2\n",
        "set points\nx,f\n3,4\n-1,2\n",
    ),
    // a byte order mark
    (b"\xEF\xBB\xBFx,f\n3,4\n", "set points\nx,f\n3,4\n"),
    (b"\xEF\xBB\xBF\nx,f\n3,4\n", "set points\nx,f\n3,4\n"),
    (b"\xEF\xBB\xBF\"x\",f\n3,4\n", "set points\nx,f\n3,4\n"),
    // quoted cells, one that is open at the end, and bytes after a quote
    (b"\" x\",\"f \"\n\" 3\",\"4 \"\n", "set points\nx,f\n3,4\n"),
    (b"x,f\n3,\"4", "set points\nx,f\n3,4\n"),
    (b"x,\"f", "set points\nx,f\n"),
    (b"x,f\n3,\"\"4\n", "set points\nx,f\n3,4\n"),
    // other ways to write a number, and the least and the largest
    (b"x,f\n003,-4.000\n0,-0\n", "set points\nx,f\n3,-4\n0,0\n"),
    (
        b"x,f\n9223372036854775807,-0009223372036854775808.0\n",
        "set points\nx,f\n9223372036854775807,-9223372036854775808\n",
    ),
    // no header, and another
    (b"", "no header"),
    (b"\n\r\n\r", "no header"),
    (b"\xEF\xBB\xBF", "no header"),
    (b"\xEF\xBB", "column 0: not the heading"),
    (b"f,x\n3,4\n", "column 0: not the heading"),
    (b"X,f\n3,4\n", "column 0: not the heading"),
    (b"\tx,f\n3,4\n", "column 0: not the heading"),
    (b"x\x00,f\n3,4\n", "column 0: not the heading"),
    (b" \nx,f\n3,4\n", "column 0: not the heading"),
    (
        b"\xEF\xBB\xBF\xEF\xBB\xBFx,f\n3,4\n",
        "column 0: not the heading",
    ),
    (b"\"x,f\n3,4\n", "column 0: not the heading"),
    (b"x\n3\n", "column 1: not the heading"),
    (b"x,f\x0B\n3,4\n", "column 1: not the heading"),
    (b"x,f,\n3,4,\n", "column 2: not the heading"),
    (b"x,f,g\n3,4,5\n", "column 2: not the heading"),
    // too few cells, and too many
    (b"x,f\n3\n", "row 1: not as many cells as headings"),
    (b"x,f\n3,4,\n", "row 1: not as many cells as headings"),
    (b"x,f\n3,4\n \n", "row 2: not as many cells as headings"),
    // cells that are no words
    (b"x,f\n,4\n", "row 1, column 0: empty cell"),
    (b"x,f\n3,  \n", "row 1, column 1: empty cell"),
    (b"x,f\n3,4\t\n", "row 1, column 1: bad byte at 1"),
    (b"x,f\n3,\xFF\n", "row 1, column 1: bad byte at 0"),
    (b"x,f\n\"3\n\",4\n", "row 1, column 0: bad byte at 1"),
    (b"x,f\n3,4\n5, 4-\n", "row 2, column 1: bad byte at 2"),
    (b"x,f\n3,\"4\n5,6\n", "row 1, column 1: bad byte at 1"),
    (b"x,f\n3,\"4\"\"\"\n", "row 1, column 1: bad byte at 1"),
    (b"x,f\n3,4.5\n", "row 1, column 1: too many decimals"),
    (
        b"x,f\n9223372036854775808,4\n",
        "row 1, column 0: too large",
    ),
    // the first of several faults
    (b"x,g\nx\n", "column 1: not the heading"),
    (b"x,f\nx\n", "row 1: not as many cells as headings"),
    (b"x,f\nx,\nz\n", "row 1, column 0: bad byte at 0"),
    (b"x,f\n3,\nx,4\n", "row 1, column 1: empty cell"),
];

/// Tables of points with decimals, and the texts of their sets or their first faults.
static SCALED: [(&[u8], &str); 12] = [
    (
        b"x.0,m.1.0\n1.5,0\n 1.50 ,-9.223372036854775808\n-0.05,1\n",
        "set points\nx.0,m.1.0\n1.50,0.000000000000000000\n1.50,-9.223372036854775808\n-0.05,1.000000000000000000\n",
    ),
    (
        b" x.0 , m.1.0\n1.500,9.2233720368547758070\n-0.00,-.5\n",
        "row 2, column 1: bad byte at 1",
    ),
    (
        b"x.0,m.1.0\n92233720368547758.07,0.000000000000000001\n",
        "set points\nx.0,m.1.0\n92233720368547758.07,0.000000000000000001\n",
    ),
    (
        b"x.0,m.1.0\n1.501,0\n",
        "row 1, column 0: too many decimals",
    ),
    (
        b"x.0,m.1.0\n1,0.0000000000000000001\n",
        "row 1, column 1: too many decimals",
    ),
    (b"x.0,m.1.0\n.5,0\n", "row 1, column 0: bad byte at 0"),
    (b"x.0,m.1.0\n5.,0\n", "row 1, column 0: bad byte at 2"),
    (b"x.0,m.1.0\n1e-5,0\n", "row 1, column 0: bad byte at 1"),
    (
        b"x.0,m.1.0\n92233720368547758.08,0\n",
        "row 1, column 0: too large",
    ),
    (b"x.0,m.1.0\n1,10\n", "row 1, column 1: too large"),
    (b"x.0,m.0.1\n1,2\n", "column 1: not the heading"),
    (b"x.0,m.1.0\n,\n", "row 1, column 0: empty cell"),
];

/// How many points there are, a table of springs between them, and the text or the fault.
static SPRINGS: [(u32, &[u8], &str); 25] = [
    (
        2,
        b"p0,p1,k\n0,1,2\n1,1,-7\n",
        "set springs\np0,p1,k\n0,1,2\n1,1,-7\n",
    ),
    (0, b"p0,p1,k", "set springs\np0,p1,k\n"),
    // the same two points twice, and exchanged
    (
        2,
        b"p0,p1,k\n0,1,2\n0,1,2\n1,0,2",
        "set springs\np0,p1,k\n0,1,2\n0,1,2\n1,0,2\n",
    ),
    // other ways to write an endpoint
    (
        2,
        b" p0,p1 ,k\n 01 ,1.00,5\n-0,\"1\",6\r",
        "set springs\np0,p1,k\n1,1,5\n0,1,6\n",
    ),
    // no header, and another
    (2, b"", "no header"),
    (2, b"k\n2\n", "column 0: not the heading"),
    (2, b"k,p0,p1\n2,0,1\n", "column 0: not the heading"),
    (2, b"p1,p0,k\n0,1,2\n", "column 0: not the heading"),
    (2, b"P0,p1,k\n0,1,2\n", "column 0: not the heading"),
    (2, b"p00,p1,k\n0,1,2\n", "column 0: not the heading"),
    (2, b"p0,p2,k\n0,1,2\n", "column 1: not the heading"),
    (2, b"p0,p1,p2,k\n0,1,0,2\n", "column 2: not the heading"),
    (2, b"p0,p1\n0,1\n", "column 2: not the heading"),
    // rows of another width, and cells that are no endpoints or words
    (2, b"p0,p1,k\n0,1\n", "row 1: not as many cells as headings"),
    (
        2,
        b"p0,p1,k\n0,1,2\n0,2,2\n",
        "row 2, column 1: no such endpoint",
    ),
    (2, b"p0,p1,k\n-1,1,2\n", "row 1, column 0: no such endpoint"),
    (
        2,
        b"p0,p1,k\n0,4294967296,2\n",
        "row 1, column 1: no such endpoint",
    ),
    (0, b"p0,p1,k\n0,0,2\n", "row 1, column 0: no such endpoint"),
    (
        2,
        b"p0,p1,k\n0,0.5,2\n",
        "row 1, column 1: too many decimals",
    ),
    (2, b"p0,p1,k\n,1,2\n", "row 1, column 0: empty cell"),
    (2, b"p0,p1,k\n0,1,p\n", "row 1, column 2: bad byte at 0"),
    // the first of several faults
    (2, b"p0,p1,k\n2,p\n", "row 1: not as many cells as headings"),
    (2, b"p0,p1,k\np,2,2\n", "row 1, column 0: bad byte at 0"),
    (2, b"p0,p1,k\n0,2,p\n", "row 1, column 1: no such endpoint"),
    (
        2,
        b"p0,p1,k\n0,1,p\n2,1,2\n",
        "row 1, column 2: bad byte at 0",
    ),
];

#[test]
fn tables_of_points(rt: HostRuntime) -> Result<(), Fail> {
    let schema = points(rt.alloc())?;
    for (bytes, want) in &POINTS {
        assert!(rt; bytes.len() <= 1000);
        let text = points_text(rt.alloc(), &schema, bytes)?;
        assert!(rt; text.as_slice() == want.as_bytes(), "not {want:?}");
    }
    Ok(())
}

#[test]
fn tables_of_points_with_decimals(rt: HostRuntime) -> Result<(), Fail> {
    let schema = scaled(rt.alloc())?;
    for (bytes, want) in &SCALED {
        assert!(rt; bytes.len() <= 1000);
        let text = points_text(rt.alloc(), &schema, bytes)?;
        assert!(rt; text.as_slice() == want.as_bytes(), "not {want:?}");
    }
    Ok(())
}

#[test]
fn tables_of_springs(rt: HostRuntime) -> Result<(), Fail> {
    let schema = springs(rt.alloc())?;
    for (count, bytes, want) in &SPRINGS {
        assert!(rt; *count <= 2 && bytes.len() <= 1000);
        let text = springs_text(rt.alloc(), &schema, *count, bytes)?;
        assert!(rt; text.as_slice() == want.as_bytes(), "not {want:?}");
    }
    Ok(())
}
