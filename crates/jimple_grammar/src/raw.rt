// The tree of a text before its names are looked up: it holds tokens. Lexemes stand below; the readers of its parts, and
// the pass over names, above.
use crate::lexeme::Lexeme;
use clean_base::Seq;

/// A class or an interface.
#[derive(Drop)]
pub struct RawClass {
    pub modifiers: Seq<Lexeme>,
    pub heading: RawHeading,
    pub members: Seq<RawMember>,
}

/// The name of a class, and its supertypes.
#[derive(Drop)]
pub struct RawHeading {
    pub is_interface: bool,
    pub name: Lexeme,
    pub extends: Seq<Lexeme>,
    pub implements: Seq<Lexeme>,
}

#[derive(Drop)]
pub enum RawMember {
    Field(RawHead),
    Method(RawHead, RawMethod),
}

/// The front of a field or of a method.
#[derive(Drop)]
pub struct RawHead {
    pub modifiers: Seq<Lexeme>,
    pub ty: RawType,
    pub name: Lexeme,
}

/// What stands behind the name of a method.
#[derive(Drop)]
pub struct RawMethod {
    pub params: Seq<RawType>,
    pub throws: Seq<Lexeme>,
    pub body: Option<RawBody>,
}

#[derive(Drop)]
pub struct RawBody {
    pub decls: Seq<RawDecl>,
    pub code: RawCode,
    pub catches: Seq<RawCatch>,
}

/// Locals of one type.
#[derive(Drop)]
pub struct RawDecl {
    pub ty: RawType,
    pub names: Seq<Lexeme>,
}

/// The labels before the first statement, that statement, and what stands behind it.
#[derive(Drop)]
pub struct RawCode {
    pub labels: Seq<Lexeme>,
    pub front: RawStmt,
    pub rest: Seq<RawItem>,
}

#[derive(Drop)]
pub enum RawItem {
    Label(Lexeme),
    Stmt(RawStmt),
}

/// A catch clause: the class, and three labels.
#[derive(Clone, Copy)]
pub struct RawCatch {
    pub class: Lexeme,
    pub from: Lexeme,
    pub to: Lexeme,
    pub with: Lexeme,
}

#[derive(Drop)]
pub enum RawStmt {
    Identity(Lexeme, RawGiven),
    Assign(Lexeme, RawRhs),
    StoreField(Lexeme, RawFieldSig, RawImm),
    StoreElement(Lexeme, RawImm, RawImm),
    StoreStatic(RawFieldSig, RawImm),
    Call(RawCall),
    /// The operands with the condition between them, and the label.
    If(RawImm, Lexeme, RawImm, Lexeme),
    Goto(Lexeme),
    Switch(RawSwitch),
    Return(Option<RawImm>),
    Throw(RawImm),
    Nop,
    Enter(RawImm),
    Exit(RawImm),
}

/// A switch: its word, its key, its cases and its default label.
#[derive(Drop)]
pub struct RawSwitch {
    pub word: Lexeme,
    pub key: RawImm,
    pub cases: Seq<RawCase>,
    pub default: Lexeme,
}

/// A case of a switch: its number and its label.
#[derive(Clone, Copy)]
pub struct RawCase {
    pub value: Lexeme,
    pub target: Lexeme,
}

/// What an identity statement gives.
#[derive(Drop)]
pub enum RawGiven {
    This(RawType),
    /// The word that names the parameter, and its type.
    Param(Lexeme, RawType),
    Caught,
}

/// What an assignment to a local reads.
#[derive(Drop)]
pub enum RawRhs {
    Use(RawImm),
    Cast(RawType, RawImm),
    Load(Lexeme, RawFieldSig),
    LoadStatic(RawFieldSig),
    LoadElement(Lexeme, RawImm),
    New(Lexeme),
    NewArray(RawType, RawImm),
    NewMulti(RawNewMulti),
    InstanceOf(RawImm, RawType),
    Length(RawImm),
    Neg(RawImm),
    /// The operands with the operator between them.
    Binary(RawImm, Lexeme, RawImm),
    Call(RawCall),
}

/// An array of arrays: lengths, and how many empty brackets stand behind them.
#[derive(Drop)]
pub struct RawNewMulti {
    pub ty: RawType,
    pub lengths: Seq<RawImm>,
    pub bare: u64,
}

/// An operand.
#[derive(Clone, Copy)]
pub enum RawImm {
    Local(Lexeme),
    /// A number, a string or `null`.
    Literal(Lexeme),
    /// The string behind `class`.
    Class(Lexeme),
}

/// A call: its word, its base where it isn't static, and as many arguments as the signature has parameters.
#[derive(Drop)]
pub struct RawCall {
    pub callee: RawCallee,
    pub args: Seq<RawImm>,
}

#[derive(Drop)]
pub struct RawCallee {
    pub word: Lexeme,
    pub base: Option<Lexeme>,
    pub sig: RawSig,
}

#[derive(Drop)]
pub struct RawSig {
    pub class: Lexeme,
    pub result: RawType,
    pub name: Lexeme,
    pub params: Seq<RawType>,
}

#[derive(Clone, Copy)]
pub struct RawFieldSig {
    pub class: Lexeme,
    pub ty: RawType,
    pub name: Lexeme,
}

/// A type: a name or a primitive, and how many `[]` stand behind it.
#[derive(Clone, Copy)]
pub struct RawType {
    pub base: Lexeme,
    pub dims: u64,
}
