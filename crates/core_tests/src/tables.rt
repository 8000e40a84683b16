// Tables of a few contexts, filled and read back in order, with more callers than a short list has.
use clean_base::{FieldId, MethodId, StmtId};
use entry_tables::EntryTables;
use ifds_model::{Context, Dir};
use std::alloc::{AllocError, Global};
use std::test::Fail;

type Tables = EntryTables<FieldId>;

const fn context(method: u32) -> Context<FieldId> {
    Context {
        method: MethodId(method),
        dir: Dir::Forward,
        fact: FieldId(7),
    }
}

// The context's number, new or not.
fn number(tables: &mut Tables, context: Context<FieldId>) -> Result<u64, AllocError> {
    tables.reserve_contexts(1, 2)?;
    match tables.known(&context) {
        Some(number) => Ok(number),
        None => Ok(tables.open_context(context)),
    }
}

// Adds a caller and an exit of a known context, and tells whether they were new.
fn add(tables: &mut Tables, context: u64, at: u32) -> Result<(bool, bool), AllocError> {
    if context >= tables.contexts() {
        return Ok((false, false));
    }
    tables.reserve_entries(context, 1, 1)?;
    let caller = tables.add_caller(context, context, StmtId(at));
    let exit = tables.add_exit(context, FieldId(9));
    Ok((caller, exit))
}

// The statement of a caller, and an exit, by their places.
fn entries(tables: &Tables, context: u64, at: u64) -> (Option<StmtId>, Option<FieldId>) {
    let mut seen = (None, None);
    if context < tables.contexts() && at < tables.caller_count(context) {
        seen.0 = Some(tables.caller_at(context, at).call);
    }
    if context < tables.contexts() && at < tables.exit_count(context) {
        seen.1 = Some(tables.exit_at(context, at));
    }
    seen
}

#[test]
fn tables_read_back_in_order(rt: HostRuntime) -> Result<(), Fail> {
    let mut tables = EntryTables::new(rt.alloc());
    for (method, want) in [(5, 0), (3, 1), (5, 0), (9, 2), (3, 1)] {
        assert_eq!(rt; number(&mut tables, context(method))?, want, "of {method}");
    }
    assert_eq!(rt; tables.known(&context(9)), Some(2));
    assert_eq!(rt; tables.known(&context(4)), None);
    for at in 0..20 {
        assert_eq!(rt; add(&mut tables, 1, at)?, (true, at == 0), "first {at}");
        assert_eq!(rt; add(&mut tables, 1, at)?, (false, false), "again {at}");
    }
    for (at, caller, exit) in [
        (0, Some(0), Some(9)),
        (8, Some(8), None),
        (19, Some(19), None),
        (20, None, None),
    ] {
        let want = (caller.map(StmtId), exit.map(FieldId));
        assert_eq!(rt; entries(&tables, 1, at), want, "place {at}");
    }
    Ok(())
}
