// The statements of a body that jumps: where each leads, and what leads to it.
use super::texts::table_of;
use class_table::ClassTable;
use clean_base::limits::MOST_STMTS;
use clean_base::{MethodId, StmtId};
use jimple_tree::Body;
use statement_graph::{StatementGraph, next_places};
use std::alloc::{AllocError, Global};
use std::test::Fail;

// A label is named by its place. The clauses cover a goto, a throw and a return, one statement twice, and none.
const JUMPING: &[u8] = b"
class J extends java.lang.Object
{
    static void j()
    {
        int x;
        x = 0;
     l1:
        if x == x goto l8;
        lookupswitch(x)
        {
            case 1: goto l5;
            case 2: goto l1;
            case 3: goto l5;
            default: goto l3;
        };
     l3:
        nop;
        goto l1;
     l5:
        throw x;
     l6:
        x := @caughtexception;
        if x == x goto l5;
     l8:
        return;
     l9:
        nop;
        catch E from l3 to l6 with l6;
        catch E from l3 to l5 with l6;
        catch E from l6 to l6 with l1;
        catch E from l8 to l9 with l6;
    }
}
";

// What leads to a statement, and where it leads.
type Row = (&'static [u32], &'static [u32]);

static ROWS: [Row; 10] = [
    (&[], &[1]),
    (&[0, 2, 4], &[2, 8]),
    (&[1], &[1, 3, 5]),
    (&[2], &[4, 6]),
    (&[3], &[1, 6]),
    (&[2, 7], &[6]),
    (&[3, 4, 5, 8], &[7]),
    (&[6], &[5, 8]),
    (&[1, 7], &[6]),
    (&[], &[]),
];

pub fn are_ids(ids: &[StmtId], told: &[u32]) -> bool {
    ids.len() == told.len() && ids.iter().zip(told).all(|(id, n)| id.0 == *n)
}

fn is_joined(graph: &StatementGraph<'_>, number: u32, row: &Row) -> bool {
    number < graph.stmts()
        && are_ids(graph.preds(StmtId(number)), row.0)
        && are_ids(graph.succs(StmtId(number)), row.1)
}

fn leads_to(alloc: Global, body: &Body, place: usize, told: &[u32]) -> Result<bool, AllocError> {
    let count = body.stmts.as_slice().len();
    if count > MOST_STMTS || place >= count {
        return Ok(false);
    }
    let places = next_places(alloc, body, place as u32)?;
    Ok(places.as_slice() == told)
}

// Whether the statement at a place of the table's first method leads there.
fn first_leads_to(
    alloc: Global,
    table: &ClassTable,
    place: usize,
    told: &[u32],
) -> Result<bool, AllocError> {
    if table.methods() == 0 {
        return Ok(false);
    }
    match &table.method(MethodId(0)).body {
        Some(body) => leads_to(alloc, body, place, told),
        None => Ok(false),
    }
}

#[test]
fn statements_of_a_body_that_jumps_are_joined(rt: HostRuntime) -> Result<(), Fail> {
    let Ok(table) = table_of(rt.alloc(), JUMPING) else {
        assert!(rt; false, "no table");
        return Ok(());
    };
    let graph = StatementGraph::new(rt.alloc(), &table)?;
    assert_eq!(rt; graph.stmts(), 10);
    for (place, row) in ROWS.iter().enumerate() {
        assert!(rt; is_joined(&graph, place as u32, row), "{place}");
        assert!(rt;
            first_leads_to(rt.alloc(), &table, place, row.1)?,
            "{place}"
        );
    }
    Ok(())
}
