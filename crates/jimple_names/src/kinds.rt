// What words and signs stand for in the tree.
ghost use Rattle.std.specs.Prelude.{◌≡◌};
ghost use Rattle.jimple_names.specs.Tree.{call_of, cond_of, op_of, is_table};

use jimple_tree::{BinOp, Cond, InvokeKind};
use jimple_words::kind::Kind;

pub fn call_of(kind: Kind) -> InvokeKind
    ensures { result ≡ call_of kind }
{
    match kind {
        Kind::Staticinvoke => InvokeKind::Static,
        Kind::Virtualinvoke => InvokeKind::Virtual,
        Kind::Interfaceinvoke => InvokeKind::Interface,
        _ => InvokeKind::Special,
    }
}

pub fn cond_of(kind: Kind) -> Cond
    ensures { result ≡ cond_of kind }
{
    match kind {
        Kind::EqualsEquals => Cond::Eq,
        Kind::NotEquals => Cond::Ne,
        Kind::Less => Cond::Lt,
        Kind::LessEquals => Cond::Le,
        Kind::Greater => Cond::Gt,
        _ => Cond::Ge,
    }
}

pub fn op_of(kind: Kind) -> BinOp
    ensures { result ≡ op_of kind }
{
    match kind {
        Kind::Plus => BinOp::Add,
        Kind::Minus => BinOp::Sub,
        Kind::Star => BinOp::Mul,
        Kind::Slash => BinOp::Div,
        Kind::Percent => BinOp::Rem,
        Kind::Ampersand => BinOp::And,
        Kind::Bar => BinOp::Or,
        Kind::Caret => BinOp::Xor,
        Kind::ShiftLeft => BinOp::Shl,
        Kind::ShiftRight => BinOp::Shr,
        Kind::ShiftRightUnsigned => BinOp::Ushr,
        Kind::Cmp => BinOp::Cmp,
        Kind::Cmpg => BinOp::Cmpg,
        _ => BinOp::Cmpl,
    }
}

pub fn is_table(kind: Kind) -> bool
    ensures { result ≡ is_table kind }
{
    kind.is(Kind::Tableswitch)
}
