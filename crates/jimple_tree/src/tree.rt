// The tree of a class (docs/FORMATS.md, "Tree and canonical text"). Places in a body are numbers of statements, counted from 0.
ghost use Rattle.std.specs.Prelude.{◌≡◌, ◌↔◌, IsTrue};

use clean_base::{LocalId, Name, Seq};

/// A class or an interface.
#[derive(Debug, Drop, PartialEq, Eq)]
pub struct Class {
    pub modifiers: Seq<Name>,
    pub is_interface: bool,
    pub name: Name,
    pub extends: Seq<Name>,
    pub implements: Seq<Name>,
    pub fields: Seq<Field>,
    pub methods: Seq<Method>,
}

/// A type: a class or a primitive, and how many `[]` stand behind it.
#[derive(Debug, Drop, PartialEq, Eq, Hash)]
pub struct JType {
    pub base: Name,
    pub dims: u64,
}

#[derive(Debug, Drop, PartialEq, Eq)]
pub struct Field {
    pub modifiers: Seq<Name>,
    pub ty: JType,
    pub name: Name,
}

/// A method, which has no body where it is abstract or native.
#[derive(Debug, Drop, PartialEq, Eq)]
pub struct Method {
    pub modifiers: Seq<Name>,
    pub result: JType,
    pub name: Name,
    pub params: Seq<JType>,
    pub throws: Seq<Name>,
    pub body: Option<Body>,
}

#[derive(Debug, Drop, PartialEq, Eq)]
pub struct Body {
    pub locals: Seq<Local>,
    pub stmts: Seq<Stmt>,
    pub catches: Seq<Catch>,
}

#[derive(Debug, Drop, PartialEq, Eq)]
pub struct Local {
    pub ty: JType,
    pub name: Name,
}

/// A catch clause. It covers the statements from `from` up to, and without, `to`.
#[derive(Debug, Drop, PartialEq, Eq)]
pub struct Catch {
    pub class: Name,
    pub from: u32,
    pub to: u32,
    pub with: u32,
}

#[derive(Debug, Drop, PartialEq, Eq)]
pub enum Stmt {
    Identity {
        local: LocalId,
        what: Given,
    },
    Assign {
        place: Place,
        rhs: Rhs,
    },
    Call(Invoke),
    If {
        left: Imm,
        cond: Cond,
        right: Imm,
        target: u32,
    },
    Goto(u32),
    /// A `tableswitch` where `table` is true, else a `lookupswitch`.
    Switch {
        table: bool,
        key: Imm,
        cases: Seq<Case>,
        default: u32,
    },
    Return(Option<Imm>),
    Throw(Imm),
    Nop,
    Enter(Imm),
    Exit(Imm),
}

/// What an identity statement gives.
#[derive(Debug, Drop, PartialEq, Eq)]
pub enum Given {
    This(JType),
    Param(u8, JType),
    Caught,
}

/// A case of a switch. Its value keeps the bytes of its token.
#[derive(Debug, Drop, PartialEq, Eq)]
pub struct Case {
    pub value: Name,
    pub target: u32,
}

/// What an assignment writes.
#[derive(Debug, Drop, PartialEq, Eq)]
pub enum Place {
    Local(LocalId),
    Field { base: LocalId, sig: FieldSig },
    Static(FieldSig),
    Element { base: LocalId, index: Imm },
}

/// What an assignment reads.
#[derive(Debug, Drop, PartialEq, Eq)]
pub enum Rhs {
    Use(Imm),
    Cast(JType, Imm),
    Load {
        base: LocalId,
        sig: FieldSig,
    },
    StaticLoad(FieldSig),
    Element {
        base: LocalId,
        index: Imm,
    },
    New(Name),
    NewArray {
        ty: JType,
        len: Imm,
    },
    /// `bare` counts the empty brackets behind the lengths.
    NewMulti {
        ty: JType,
        lens: Seq<Imm>,
        bare: u32,
    },
    InstanceOf(Imm, JType),
    Length(Imm),
    Neg(Imm),
    Binary {
        op: BinOp,
        left: Imm,
        right: Imm,
    },
    Call(Invoke),
}

/// An operand. A literal keeps the bytes of its token; a class constant is `class`, one space and the string.
#[derive(Debug, Drop, PartialEq, Eq)]
pub enum Imm {
    Local(LocalId),
    Literal(Name),
}

/// A call. It has a base exactly where its kind isn't `Static`.
#[derive(Debug, Drop, PartialEq, Eq)]
pub struct Invoke {
    pub kind: InvokeKind,
    pub base: Option<LocalId>,
    pub sig: Sig,
    pub args: Seq<Imm>,
}

#[derive(Clone, Copy, Debug, PartialEq, Eq)]
pub enum InvokeKind {
    Static,
    Virtual,
    Interface,
    Special,
}

#[derive(Clone, Copy, Debug, PartialEq, Eq)]
pub enum Cond {
    Eq,
    Ne,
    Lt,
    Le,
    Gt,
    Ge,
}

#[derive(Clone, Copy, Debug, PartialEq, Eq)]
pub enum BinOp {
    Add,
    Sub,
    Mul,
    Div,
    Rem,
    And,
    Or,
    Xor,
    Shl,
    Shr,
    Ushr,
    Cmp,
    Cmpg,
    Cmpl,
}

/// A method signature, `<C: T m(P1,P2)>`.
#[derive(Debug, Drop, PartialEq, Eq, Hash)]
pub struct Sig {
    pub class: Name,
    pub result: JType,
    pub name: Name,
    pub params: Seq<JType>,
}

impl Sig {
    /// Whether two signatures are one and the same.
    pub fn same(&self, other: &Sig) -> bool
        ensures { IsTrue result ↔ (self.now ≡ other.now) }
    {
        self == other
    }
}

impl Method {
    /// Whether the signature names this method, where it stands in the class of that name.
    pub fn is_named(&self, class: &Name, sig: &Sig) -> bool
        ensures { IsTrue result
            ↔ (sig.now ≡ record { class = class.now; result = self.now.result; name = self.now.name; params = self.now.params }) }
    {
        if sig.class != *class || sig.name != self.name {
            return false;
        }
        sig.result == self.result && sig.params == self.params
    }
}

/// A field signature, `<C: T f>`.
#[derive(Debug, Drop, PartialEq, Eq, Hash)]
pub struct FieldSig {
    pub class: Name,
    pub ty: JType,
    pub name: Name,
}
