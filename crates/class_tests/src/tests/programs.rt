// A program of four classes: a virtual call of two methods, a field that is inherited and one that a reference alone names,
// a catch, a source and a sink.
use super::statements::are_ids;
use super::texts::table_of;
use access_path::{Base, CallView, View};
use app_program::{Entry, assemble};
use clean_base::{FieldId, LocalId, MethodId, StmtId, Stop};
use program_code::Program;
use source_sink::{read_lists, read_sig};
use std::alloc::Global;
use std::test::Fail;

// A label is named by the number of its statement, and the class Remote isn't given. Box's statements are 9 to 12, those
// of Crate 13 and 14.
const CLASSES: &[u8] = b"
class Main extends java.lang.Object
{
    static Letter last;
    static void main()
    {
        Box box;
        Letter read, taken;
        box = new Box;
        read = staticinvoke <Phone: Letter read()>();
     l2:
        virtualinvoke box.<Box: void put(Letter)>(read);
     l3:
        taken = box.<Crate: Letter item>;
        <Remote: Letter slot> = taken;
        staticinvoke <Phone: void send(Letter,int)>(taken, 1);
     l6:
        return;
     l7:
        taken := @caughtexception;
        goto l6;
        catch E from l2 to l3 with l7;
    }
}
class Box extends java.lang.Object
{
    Letter item;
    void put(Letter)
    {
        Box me;
        Letter given;
        me := @this: Box;
        given := @parameter0: Letter;
        me.<Box: Letter item> = given;
        return;
    }
}
class Crate extends Box
{
    void put(Letter)
    {
        Letter given;
        given := @parameter0: Letter;
        throw given;
    }
}
abstract class Bag extends Box { abstract void put(Letter); }
";

const LIST: &[u8] =
    b"<Phone: Letter read()> -> _SOURCE_\n<Phone: void send(Letter,int)> -> _SINK_\n";

// The program of the classes of a text with a list, entered at the method of this signature.
pub fn program_of(alloc: Global, text: &[u8], list: &[u8], entry: &[u8]) -> Result<Program, Stop> {
    let table = table_of(alloc, text)?;
    let lists = read_lists(alloc, list, 1)?;
    match read_sig(alloc, entry) {
        Ok(Some(sig)) => assemble(alloc, table, &lists, &Entry::Method(sig)),
        _ => Err(Stop::OutOfMemory),
    }
}

struct MethodRow {
    first: u32,
    returns: &'static [u32],
    throws: &'static [u32],
    // The methods to which open calls lead from it.
    leads: &'static [u32],
}

static METHODS: [MethodRow; 3] = [
    MethodRow {
        first: 0,
        returns: &[6],
        throws: &[2],
        leads: &[0, 1, 2],
    },
    MethodRow {
        first: 9,
        returns: &[12],
        throws: &[],
        leads: &[1],
    },
    MethodRow {
        first: 13,
        returns: &[],
        throws: &[14],
        leads: &[2],
    },
];

fn leads(program: &Program, m: MethodId, told: &[u32]) -> bool {
    m.0 < program.methods()
        && (0..program.methods()).all(|n| program.closure_has(m, MethodId(n)) == told.contains(&n))
}

fn is_method(program: &Program, m: MethodId, row: &MethodRow) -> bool {
    m.0 < program.methods()
        && program.first(m).0 == row.first
        && are_ids(program.returns(m), row.returns)
        && are_ids(program.throws(m), row.throws)
        && leads(program, m, row.leads)
}

// A statement's method and its place there, what leads to it, and where it leads.
type StmtRow = ((u32, u32), &'static [u32], &'static [u32]);

static STMTS: [StmtRow; 15] = [
    ((0, 0), &[], &[1]),
    ((0, 1), &[0], &[2]),
    ((0, 2), &[1], &[3, 7]),
    ((0, 3), &[2], &[4]),
    ((0, 4), &[3], &[5]),
    ((0, 5), &[4], &[6]),
    ((0, 6), &[5, 8], &[]),
    ((0, 7), &[2], &[8]),
    ((0, 8), &[7], &[6]),
    ((1, 0), &[], &[10]),
    ((1, 1), &[9], &[11]),
    ((1, 2), &[10], &[12]),
    ((1, 3), &[11], &[]),
    ((2, 0), &[], &[14]),
    ((2, 1), &[13], &[]),
];

// The one open call comes to both methods below.
fn has_targets(program: &Program, s: StmtId) -> bool {
    let told: &[MethodId] = if s.0 == 2 {
        &[MethodId(1), MethodId(2)]
    } else {
        &[]
    };
    s.0 < program.stmts() && program.targets_of(s) == told
}

fn is_stmt(program: &Program, s: StmtId, row: &StmtRow) -> bool {
    s.0 < program.stmts()
        && (program.method_of(s).0, program.place_of(s)) == row.0
        && are_ids(program.preds(s), row.1)
        && are_ids(program.succs(s), row.2)
        && has_targets(program, s)
}

// Some statements with their views.
const SEEN: [u32; 10] = [0, 1, 2, 3, 4, 5, 7, 9, 11, 14];

// The calls of the source, of both methods, and of the sink.
fn is_call(s: u32, call: &CallView) -> bool {
    let said = (call.source, call.sink, call.is_open);
    let args = call.args.as_slice();
    match s {
        1 => said == (true, false, false) && call.result == Some(LocalId(1)) && args.is_empty(),
        2 => {
            said == (false, false, true)
                && call.receiver == Some(LocalId(0))
                && args == [Some(LocalId(1))].as_slice()
        }
        5 => said == (false, true, false) && args == [Some(LocalId(2)), None].as_slice(),
        _ => false,
    }
}

fn is_view(s: u32, view: &View) -> bool {
    match view {
        View::Copy {
            to,
            from: Base::Thrown,
        } => (s, to.0) == (7, 2),
        View::Copy {
            to,
            from: Base::This,
        } => (s, to.0) == (9, 0),
        View::Kill { to } => (s, to.0) == (0, 0),
        View::Load { to, base, field } => (s, to.0, base.0, field.0) == (3, 2, 0, 3),
        View::Store { base, field, from } => {
            (s, base.0, field.0) == (11, 0, 3) && *from == Some(LocalId(1))
        }
        View::StaticStore { field, from } => (s, field.0) == (4, 4) && *from == Some(LocalId(2)),
        View::Call(call) => call.stmt.0 == s && is_call(s, call),
        View::Throw { value } => s == 14 && *value == Some(LocalId(0)),
        _ => false,
    }
}

fn is_seen(program: &Program, s: StmtId) -> bool {
    s.0 < program.stmts() && is_view(s.0, program.view(s))
}

// The class and the name of each field but the two that no class declares.
static FIELDS: [(&[u8], &[u8]); 3] = [(b"Main", b"last"), (b"Box", b"item"), (b"Remote", b"slot")];

fn is_field(program: &Program, f: FieldId, class: &[u8], name: &[u8]) -> bool {
    if f.0 >= program.fields() {
        return false;
    }
    match program.field_sig(f) {
        Some(sig) => sig.class.bytes() == class && sig.name.bytes() == name,
        None => false,
    }
}

#[test]
fn a_program_of_four_classes(rt: HostRuntime) -> Result<(), Fail> {
    let Ok(program) = program_of(rt.alloc(), CLASSES, LIST, b"<Main: void main()>") else {
        assert!(rt; false, "no program");
        return Ok(());
    };
    assert_eq!(rt;
        (
            program.root().0,
            program.methods(),
            program.stmts(),
            program.fields()
        ),
        (0, 3, 15, 5)
    );
    for (m, row) in METHODS.iter().enumerate() {
        assert!(rt; is_method(&program, MethodId(m as u32), row), "method {m}");
    }
    for (s, row) in STMTS.iter().enumerate() {
        assert!(rt; is_stmt(&program, StmtId(s as u32), row), "statement {s}");
    }
    for s in &SEEN {
        assert!(rt; is_seen(&program, StmtId(*s)), "statement {s}");
    }
    for (place, (class, name)) in FIELDS.iter().enumerate() {
        assert!(rt;
            is_field(&program, FieldId(place as u32 + 2), class, name),
            "{place}"
        );
    }
    Ok(())
}
