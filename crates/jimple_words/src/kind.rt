// What a token is to the grammar. The lexer stands below; lexemes, forms and the parser above.
ghost use Rattle.std.specs.Prelude.{◌≡◌, ◌==◌};
ghost use Rattle.jimple_words.specs.Kind.{number, has};
ghost use Rattle.jimple_words.specs.Sets.{names, plain_names, primitives, types, words, modifiers, constants, conditions, operators, sure_types, based_calls, switches, statement_words};

/// The kind of a token (docs/FORMATS.md, "Tokens"). The words stand first, and the keywords last among them.
#[derive(Clone, Copy)]
pub enum Kind {
    /// A word that is no keyword.
    Word,
    /// One of synthetic, constructor, declared_synchronized, bridge and varargs, unquoted.
    Further,
    /// The word `this`, unquoted.
    This,
    /// The word `caughtexception`, unquoted.
    Caughtexception,
    /// The word `parameter` with a number of at most 254 behind it, unquoted.
    Parameter,
    /// The word `parameter` with a higher number, unquoted.
    HighParameter,
    /// One of `methodhandle` and `methodtype`, unquoted.
    Handle,
    Abstract,
    Final,
    Native,
    Public,
    Protected,
    Private,
    Static,
    Synchronized,
    Transient,
    Volatile,
    Strictfp,
    Enum,
    Annotation,
    Class,
    Interface,
    Void,
    Boolean,
    Byte,
    Short,
    Char,
    Int,
    Long,
    Float,
    Double,
    NullType,
    Unknown,
    Extends,
    Implements,
    Breakpoint,
    Case,
    Catch,
    Cmp,
    Cmpg,
    Cmpl,
    Default,
    Entermonitor,
    Exitmonitor,
    From,
    Goto,
    If,
    Instanceof,
    Interfaceinvoke,
    Lengthof,
    Lookupswitch,
    Neg,
    New,
    Newarray,
    Newmultiarray,
    Nop,
    Null,
    Ret,
    Return,
    Specialinvoke,
    Staticinvoke,
    Dynamicinvoke,
    Tableswitch,
    Throw,
    Throws,
    To,
    Virtualinvoke,
    With,
    Number,
    /// A string with its quotes.
    Text,
    OpenBrace,
    CloseBrace,
    OpenParen,
    CloseParen,
    OpenBracket,
    CloseBracket,
    Comma,
    Semicolon,
    Colon,
    ColonEquals,
    Dot,
    At,
    Equals,
    EqualsEquals,
    NotEquals,
    Less,
    LessEquals,
    Greater,
    GreaterEquals,
    ShiftLeft,
    ShiftRight,
    ShiftRightUnsigned,
    Plus,
    Minus,
    Star,
    Slash,
    Percent,
    Ampersand,
    Bar,
    Caret,
}

impl Kind {
    /// The kind's place in the order above, by which kinds are compared.
    pub fn number(self) -> u8
        ensures { result ≡ number self }
    {
        self as u8
    }

    /// The same kind.
    pub fn is(self, other: Kind) -> bool
        ensures { result ≡ (number self == number other) }
    {
        self.number() == other.number()
    }

    /// May stand where a name stands.
    pub fn is_name(self) -> bool
        ensures { result ≡ has names self }
    {
        self.number() <= Kind::Handle.number()
    }

    /// A name that isn't refused where an operand begins.
    pub fn is_plain_name(self) -> bool
        ensures { result ≡ has plain_names self }
    {
        self.number() <= Kind::HighParameter.number()
    }

    pub fn is_primitive(self) -> bool
        ensures { result ≡ has primitives self }
    {
        let place = self.number();
        Kind::Void.number() <= place && place <= Kind::Unknown.number()
    }

    /// May stand where a type stands: a name or a primitive.
    pub fn is_type(self) -> bool
        ensures { result ≡ has types self }
    {
        self.is_name() || self.is_primitive()
    }

    /// A word, be it a keyword or not.
    pub fn is_word(self) -> bool
        ensures { result ≡ has words self }
    {
        self.number() <= Kind::With.number()
    }

    /// A type's base that is no word which may be a modifier.
    pub fn is_sure_type(self) -> bool
        ensures { result ≡ has sure_types self }
    {
        self.is_type() && !self.is(Kind::Further)
    }

    pub fn is_modifier(self) -> bool
        ensures { result ≡ has modifiers self }
    {
        let place = self.number();
        Kind::Abstract.number() <= place && place <= Kind::Annotation.number()
    }

    /// A number, a string or `null`.
    pub fn is_constant(self) -> bool
        ensures { result ≡ has constants self }
    {
        matches!(self, Kind::Number | Kind::Text | Kind::Null)
    }

    pub fn is_condition(self) -> bool
        ensures { result ≡ has conditions self }
    {
        matches!(
            self,
            Kind::EqualsEquals
                | Kind::NotEquals
                | Kind::Less
                | Kind::LessEquals
                | Kind::Greater
                | Kind::GreaterEquals
        )
    }

    pub fn is_operator(self) -> bool
        ensures { result ≡ has operators self }
    {
        let place = self.number();
        Kind::ShiftLeft.number() <= place || matches!(self, Kind::Cmp | Kind::Cmpg | Kind::Cmpl)
    }

    /// The word of a call with a base.
    pub fn is_based_call(self) -> bool
        ensures { result ≡ has based_calls self }
    {
        matches!(
            self,
            Kind::Virtualinvoke | Kind::Interfaceinvoke | Kind::Specialinvoke
        )
    }

    pub fn is_switch(self) -> bool
        ensures { result ≡ has switches self }
    {
        matches!(self, Kind::Lookupswitch | Kind::Tableswitch)
    }

    /// What a statement begins with that doesn't begin with a local.
    pub fn is_statement_word(self) -> bool
        ensures { result ≡ has statement_words self }
    {
        matches!(
            self,
            Kind::Less
                | Kind::Staticinvoke
                | Kind::Virtualinvoke
                | Kind::Interfaceinvoke
                | Kind::Specialinvoke
                | Kind::Dynamicinvoke
                | Kind::If
                | Kind::Goto
                | Kind::Lookupswitch
                | Kind::Tableswitch
                | Kind::Return
                | Kind::Throw
                | Kind::Nop
                | Kind::Entermonitor
                | Kind::Exitmonitor
                | Kind::Ret
                | Kind::Breakpoint
        )
    }
}
