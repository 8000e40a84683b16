// The parts of a program, as those who make one hand them over. The program stands above.
use access_path::View;
use class_table::ClassTable;
use clean_base::{MethodId, Seq, StmtId};
use field_table::FieldTable;
use flat_rows::FlatRows;
use reach_rows::Rows;

/// What a program is made of.
#[derive(Drop)]
pub struct Parts {
    pub table: ClassTable,
    /// Its fields by number.
    pub fields: FieldTable,
    /// The method where the program is entered.
    pub root: MethodId,
    /// For each method its first statement, how many locals it has, its return statements, and its statements that an
    /// exception may leave.
    pub firsts: Seq<StmtId>,
    pub locals: Seq<u32>,
    pub returns: FlatRows<StmtId>,
    pub throws: FlatRows<StmtId>,
    /// For each statement what it is, its method, the statements that may run next, those after which it may run next, and
    /// the methods that it calls.
    pub views: Seq<View>,
    pub owners: Seq<MethodId>,
    pub nexts: FlatRows<StmtId>,
    pub preds: FlatRows<StmtId>,
    pub targets: FlatRows<MethodId>,
    /// What open calls lead to from each method.
    pub closure: Rows,
}
