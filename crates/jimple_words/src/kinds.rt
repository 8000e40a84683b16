// The kind of a keyword, of another word and of a sign, by its text. Kinds stand below; the words of parameters above.
ghost use Rattle.std.specs.Prelude.{◌≡◌, [], ◌∷◌, length};
ghost use Rattle.std.specs.Str.{bytes_eq};
ghost use Rattle.jimple_words.specs.Kinds.{
  further,
  further_modifiers,
  is_further_modifier,
  is_keyword,
  is_reserved,
  keywords,
  kind_in,
  of_length,
  signs,
};

use crate::kind::Kind;

fn same(text: &[u8], word: &[u8]) -> bool
    ensures { result ≡ bytes_eq text.now word.now }
{
    text == word
}

/// Whether the word is a modifier where a word follows.
#[tactic(auto, unfolding(crate::specs::Kinds::is_further_modifier))]
pub fn is_further_modifier(text: &[u8]) -> bool
    ensures { result ≡ is_further_modifier text.now }
{
    same(text, b"synthetic")
        || same(text, b"constructor")
        || same(text, b"declared_synchronized")
        || same(text, b"bridge")
        || same(text, b"varargs")
}

/// The kind of a word that is neither a keyword nor the word of a parameter.
#[tactic(auto, unfolding(crate::specs::Kinds::further))]
pub fn other_word(text: &[u8]) -> Kind
    ensures { result ≡ kind_in further text.now }
{
    if same(text, b"this") {
        return Kind::This;
    }
    if same(text, b"caughtexception") {
        return Kind::Caughtexception;
    }
    if same(text, b"methodhandle") {
        return Kind::Handle;
    }
    if same(text, b"methodtype") {
        return Kind::Handle;
    }
    modifier_word(text)
}

fn modifier_word(text: &[u8]) -> Kind
    ensures { result ≡ kind_in further_modifiers text.now }
{
    if is_further_modifier(text) {
        return Kind::Further;
    }
    Kind::Word
}

/// Whether the word is a keyword.
pub fn is_keyword(text: &[u8]) -> bool
    ensures { result ≡ is_keyword text.now }
{
    !keyword_kind(text).is(Kind::Word)
}

/// Whether the word is a keyword or a modifier where a word follows: no segment of a name without quotes.
pub fn is_reserved(text: &[u8]) -> bool
    ensures { result ≡ is_reserved text.now }
{
    is_keyword(text) || is_further_modifier(text)
}

/// The kind of a keyword, by its length and then by its text; `Kind::Word` for another word.
pub fn keyword_kind(text: &[u8]) -> Kind
    ensures { result ≡ kind_in keywords text.now }
{
    match text.len() {
        2 => keyword_of_two(text),
        3 => keyword_of_three(text),
        4 => keyword_of_four(text),
        5 => keyword_of_five(text),
        6 => keyword_of_six(text),
        7 => keyword_of_seven(text),
        8 => keyword_of_eight(text),
        9 => keyword_of_nine(text),
        10 => keyword_of_ten(text),
        11 => keyword_of_eleven(text),
        12 => keyword_of_twelve(text),
        13 => keyword_of_thirteen(text),
        15 => keyword_of_fifteen(text),
        _ => Kind::Word,
    }
}

#[tactic(auto, unfolding(crate::specs::Kinds::keywords))]
fn keyword_of_two(text: &[u8]) -> Kind
    ensures { result ≡ kind_in (of_length 2 keywords) text.now }
{
    if same(text, b"if") {
        return Kind::If;
    }
    if same(text, b"to") {
        return Kind::To;
    }
    Kind::Word
}

#[tactic(auto, unfolding(crate::specs::Kinds::keywords))]
fn keyword_of_three(text: &[u8]) -> Kind
    ensures { result ≡ kind_in (of_length 3 keywords) text.now }
{
    if same(text, b"int") {
        return Kind::Int;
    }
    if same(text, b"cmp") {
        return Kind::Cmp;
    }
    if same(text, b"neg") {
        return Kind::Neg;
    }
    if same(text, b"new") {
        return Kind::New;
    }
    if same(text, b"nop") {
        return Kind::Nop;
    }
    if same(text, b"ret") {
        return Kind::Ret;
    }
    Kind::Word
}

#[tactic(auto, unfolding(crate::specs::Kinds::keywords))]
fn keyword_of_four(text: &[u8]) -> Kind
    ensures { result ≡ kind_in (of_length 4 keywords) text.now }
{
    if same(text, b"enum") {
        return Kind::Enum;
    }
    if same(text, b"void") {
        return Kind::Void;
    }
    if same(text, b"byte") {
        return Kind::Byte;
    }
    if same(text, b"char") {
        return Kind::Char;
    }
    if same(text, b"long") {
        return Kind::Long;
    }
    if same(text, b"case") {
        return Kind::Case;
    }
    if same(text, b"cmpg") {
        return Kind::Cmpg;
    }
    if same(text, b"cmpl") {
        return Kind::Cmpl;
    }
    if same(text, b"from") {
        return Kind::From;
    }
    if same(text, b"goto") {
        return Kind::Goto;
    }
    if same(text, b"null") {
        return Kind::Null;
    }
    if same(text, b"with") {
        return Kind::With;
    }
    Kind::Word
}

#[tactic(auto, unfolding(crate::specs::Kinds::keywords))]
fn keyword_of_five(text: &[u8]) -> Kind
    ensures { result ≡ kind_in (of_length 5 keywords) text.now }
{
    if same(text, b"final") {
        return Kind::Final;
    }
    if same(text, b"class") {
        return Kind::Class;
    }
    if same(text, b"short") {
        return Kind::Short;
    }
    if same(text, b"float") {
        return Kind::Float;
    }
    if same(text, b"catch") {
        return Kind::Catch;
    }
    if same(text, b"throw") {
        return Kind::Throw;
    }
    Kind::Word
}

#[tactic(auto, unfolding(crate::specs::Kinds::keywords))]
fn keyword_of_six(text: &[u8]) -> Kind
    ensures { result ≡ kind_in (of_length 6 keywords) text.now }
{
    if same(text, b"native") {
        return Kind::Native;
    }
    if same(text, b"public") {
        return Kind::Public;
    }
    if same(text, b"static") {
        return Kind::Static;
    }
    if same(text, b"double") {
        return Kind::Double;
    }
    if same(text, b"return") {
        return Kind::Return;
    }
    if same(text, b"throws") {
        return Kind::Throws;
    }
    Kind::Word
}

#[tactic(auto, unfolding(crate::specs::Kinds::keywords))]
fn keyword_of_seven(text: &[u8]) -> Kind
    ensures { result ≡ kind_in (of_length 7 keywords) text.now }
{
    if same(text, b"private") {
        return Kind::Private;
    }
    if same(text, b"boolean") {
        return Kind::Boolean;
    }
    if same(text, b"unknown") {
        return Kind::Unknown;
    }
    if same(text, b"extends") {
        return Kind::Extends;
    }
    if same(text, b"default") {
        return Kind::Default;
    }
    Kind::Word
}

#[tactic(auto, unfolding(crate::specs::Kinds::keywords))]
fn keyword_of_eight(text: &[u8]) -> Kind
    ensures { result ≡ kind_in (of_length 8 keywords) text.now }
{
    if same(text, b"abstract") {
        return Kind::Abstract;
    }
    if same(text, b"volatile") {
        return Kind::Volatile;
    }
    if same(text, b"strictfp") {
        return Kind::Strictfp;
    }
    if same(text, b"lengthof") {
        return Kind::Lengthof;
    }
    if same(text, b"newarray") {
        return Kind::Newarray;
    }
    Kind::Word
}

#[tactic(auto, unfolding(crate::specs::Kinds::keywords))]
fn keyword_of_nine(text: &[u8]) -> Kind
    ensures { result ≡ kind_in (of_length 9 keywords) text.now }
{
    if same(text, b"protected") {
        return Kind::Protected;
    }
    if same(text, b"transient") {
        return Kind::Transient;
    }
    if same(text, b"interface") {
        return Kind::Interface;
    }
    if same(text, b"null_type") {
        return Kind::NullType;
    }
    Kind::Word
}

#[tactic(auto, unfolding(crate::specs::Kinds::keywords))]
fn keyword_of_ten(text: &[u8]) -> Kind
    ensures { result ≡ kind_in (of_length 10 keywords) text.now }
{
    if same(text, b"annotation") {
        return Kind::Annotation;
    }
    if same(text, b"implements") {
        return Kind::Implements;
    }
    if same(text, b"breakpoint") {
        return Kind::Breakpoint;
    }
    if same(text, b"instanceof") {
        return Kind::Instanceof;
    }
    Kind::Word
}

#[tactic(auto, unfolding(crate::specs::Kinds::keywords))]
fn keyword_of_eleven(text: &[u8]) -> Kind
    ensures { result ≡ kind_in (of_length 11 keywords) text.now }
{
    if same(text, b"exitmonitor") {
        return Kind::Exitmonitor;
    }
    if same(text, b"tableswitch") {
        return Kind::Tableswitch;
    }
    Kind::Word
}

#[tactic(auto, unfolding(crate::specs::Kinds::keywords))]
fn keyword_of_twelve(text: &[u8]) -> Kind
    ensures { result ≡ kind_in (of_length 12 keywords) text.now }
{
    if same(text, b"synchronized") {
        return Kind::Synchronized;
    }
    if same(text, b"entermonitor") {
        return Kind::Entermonitor;
    }
    if same(text, b"lookupswitch") {
        return Kind::Lookupswitch;
    }
    if same(text, b"staticinvoke") {
        return Kind::Staticinvoke;
    }
    Kind::Word
}

#[tactic(auto, unfolding(crate::specs::Kinds::keywords))]
fn keyword_of_thirteen(text: &[u8]) -> Kind
    ensures { result ≡ kind_in (of_length 13 keywords) text.now }
{
    if same(text, b"newmultiarray") {
        return Kind::Newmultiarray;
    }
    if same(text, b"specialinvoke") {
        return Kind::Specialinvoke;
    }
    if same(text, b"dynamicinvoke") {
        return Kind::Dynamicinvoke;
    }
    if same(text, b"virtualinvoke") {
        return Kind::Virtualinvoke;
    }
    Kind::Word
}

#[tactic(auto, unfolding(crate::specs::Kinds::keywords))]
fn keyword_of_fifteen(text: &[u8]) -> Kind
    ensures { result ≡ kind_in (of_length 15 keywords) text.now }
{
    if same(text, b"interfaceinvoke") {
        return Kind::Interfaceinvoke;
    }
    Kind::Word
}

/// The kind of a sign.
pub fn sign_kind(text: &[u8]) -> Kind
    ensures { result ≡ kind_in signs text.now }
{
    match text.len() {
        1 => sign_of_one(text),
        2 => sign_of_two(text),
        3 => sign_of_three(text),
        _ => Kind::Word,
    }
}

fn sign_of_one(text: &[u8]) -> Kind
    requires { length text.now ≡ 1 }
    ensures { result ≡ kind_in (of_length 1 signs) text.now }
{
    sign_of_byte(text[0])
}

#[tactic(auto, unfolding(crate::specs::Kinds::signs))]
fn sign_of_byte(byte: u8) -> Kind
    ensures { result ≡ kind_in (of_length 1 signs) (byte ∷ []) }
{
    match byte {
        b'{' => Kind::OpenBrace,
        b'}' => Kind::CloseBrace,
        b'(' => Kind::OpenParen,
        b')' => Kind::CloseParen,
        b'[' => Kind::OpenBracket,
        b']' => Kind::CloseBracket,
        b',' => Kind::Comma,
        b';' => Kind::Semicolon,
        b':' => Kind::Colon,
        b'.' => Kind::Dot,
        b'@' => Kind::At,
        b'=' => Kind::Equals,
        b'<' => Kind::Less,
        b'>' => Kind::Greater,
        b'+' => Kind::Plus,
        b'-' => Kind::Minus,
        b'*' => Kind::Star,
        b'/' => Kind::Slash,
        b'%' => Kind::Percent,
        b'&' => Kind::Ampersand,
        b'|' => Kind::Bar,
        b'^' => Kind::Caret,
        _ => Kind::Word,
    }
}

#[tactic(auto, unfolding(crate::specs::Kinds::signs))]
fn sign_of_two(text: &[u8]) -> Kind
    ensures { result ≡ kind_in (of_length 2 signs) text.now }
{
    if same(text, b":=") {
        return Kind::ColonEquals;
    }
    if same(text, b"==") {
        return Kind::EqualsEquals;
    }
    if same(text, b"!=") {
        return Kind::NotEquals;
    }
    if same(text, b"<=") {
        return Kind::LessEquals;
    }
    if same(text, b">=") {
        return Kind::GreaterEquals;
    }
    if same(text, b"<<") {
        return Kind::ShiftLeft;
    }
    if same(text, b">>") {
        return Kind::ShiftRight;
    }
    Kind::Word
}

#[tactic(auto, unfolding(crate::specs::Kinds::signs))]
fn sign_of_three(text: &[u8]) -> Kind
    ensures { result ≡ kind_in (of_length 3 signs) text.now }
{
    if same(text, b">>>") {
        return Kind::ShiftRightUnsigned;
    }
    Kind::Word
}
