// Reads a signature from the front of a text, form by form. `signature`, `words` and `entry` stand above.
ghost use Rattle.std.specs.Prelude.{◌≡◌, ◌≤◌, ◌+◌, ◌*◌, length, drop, [], ◌↔◌, IsTrue, Some, None, IfOk, nat_eq, if◌then◌else◌};
ghost use Rattle.std.specs.List.{prefix_len, starts_with};
ghost use Rattle.source_sink.specs.Signature.{is_white_space, is_sign, is_name_byte};
ghost use Rattle.source_sink.specs.Reading.{Gives, GivesMore, sees, read_byte, name_len, read_name, is_space, read_spaces, without_spaces, pairs, without_pairs, read_type, read_later_type, read_later, read_params, read_sig};

use clean_base::{Name, Seq};
use jimple_tree::{JType, Sig};
use std::alloc::{AllocError, AllocFailed, Global};

/// Why nothing was read: something else stands there, or memory ran out.
#[derive(Clone, Copy, Debug)]
pub enum Miss {
    Other,
    Memory,
}

impl From<AllocError> for Miss {
    ghost use Rattle.std.specs.Prelude.{◌≡◌};
    ghost use Rattle.source_sink.specs.declared.cursor.Miss.TheVariants.{Memory};

    ghost from_gives = { λ _ e. e ≡ Memory };

    fn from(_e: AllocError) -> Miss {
        Miss::Memory
    }
}

impl<T: Drop> From<AllocFailed<T>> for Miss {
    ghost use Rattle.std.specs.Prelude.{◌≡◌};
    ghost use Rattle.source_sink.specs.declared.cursor.Miss.TheVariants.{Memory};

    ghost from_gives = { λ _ e. e ≡ Memory };

    fn from(_e: AllocFailed<T>) -> Miss {
        Miss::Memory
    }
}

pub fn is_white_space(c: u8) -> bool
    ensures { result ≡ is_white_space c }
{
    c == b'\t' || c == b'\n' || c == b'\r' || c == b' '
}

fn is_sign(c: u8) -> bool
    ensures { result ≡ is_sign c }
{
    c == b'('
        || c == b')'
        || c == b','
        || c == b':'
        || c == b'<'
        || c == b'>'
        || c == b'['
        || c == b']'
}

fn is_name_byte(c: u8) -> bool
    ensures { result ≡ is_name_byte c }
{
    !(is_white_space(c) || is_sign(c))
}

// How many bytes of names stand in front.
fn plain_len(text: &[u8]) -> usize
    ensures value { result ≡ prefix_len is_name_byte text.now }
    ensures within { result ≤ length text.now }
{
    text.iter().take_while(|c| is_name_byte(**c)).count()
}

// How many spaces stand in front.
fn spaces_len(text: &[u8]) -> usize
    ensures value { result ≡ prefix_len is_space text.now }
    ensures within { result ≤ length text.now }
{
    text.iter().take_while(|c| **c == b' ').count()
}

// How long the name in front is.
fn name_len(text: &[u8]) -> usize
    ensures value { result ≡ name_len text.now }
    ensures within { result ≤ length text.now }
{
    if text.starts_with(b"<init>") {
        6
    } else if text.starts_with(b"<clinit>") {
        8
    } else {
        plain_len(text)
    }
}

fn name_of(alloc: Global, bytes: &[u8]) -> Result<Name, AllocError>
    ensures { IfOk result (λ n. n ≡ bytes.now) }
{
    Ok(Name::from_vec(Vec::from_slice(alloc, bytes)?))
}

/// What is left of a text.
#[derive(Drop)]
pub struct Cursor<'a> {
    left: &'a [u8],
}

impl<'a> Cursor<'a> {
    pub fn new(left: &'a [u8]) -> Cursor<'a>
        ensures { result.left.now ≡ left.now }
    {
        Cursor { left }
    }

    /// What no call has taken.
    pub fn left(&self) -> &'a [u8]
        ensures { result.now ≡ self.now.left.now }
    {
        self.left
    }

    pub fn is_at_end(&self) -> bool
        ensures at_end { IsTrue result ↔ self.now.left.now ≡ [] }
    {
        self.left.is_empty()
    }

    fn sees(&self, byte: u8) -> bool
        ensures { result ≡ sees byte self.now.left.now }
    {
        match self.left {
            [first, ..] => *first == byte,
            [] => false,
        }
    }

    fn take_byte(&mut self, byte: u8) -> Result<(), Miss>
        ensures { Gives result self.new.left.now (read_byte byte self.old.left.now) }
    {
        match self.left {
            [first, left @ ..] if *first == byte => {
                self.left = left;
                Ok(())
            }
            _ => Err(Miss::Other),
        }
    }

    fn skip(&mut self, n: usize)
        requires { n ≤ length self.old.left.now }
        ensures { self.new.left.now ≡ drop n self.old.left.now }
    {
        self.left = self.left.split_at(n).1;
    }

    fn take_spaces(&mut self) -> Result<(), Miss>
        ensures { Gives result self.new.left.now (read_spaces self.old.left.now) }
    {
        let n = spaces_len(self.left);
        if n == 0 {
            return Err(Miss::Other);
        }
        self.skip(n);
        Ok(())
    }

    fn skip_spaces(&mut self)
        ensures { self.new.left.now ≡ without_spaces self.old.left.now }
    {
        let n = spaces_len(self.left);
        self.skip(n);
    }

    fn take_name(&mut self, alloc: Global) -> Result<Name, Miss>
        ensures { Gives result self.new.left.now (read_name self.old.left.now) }
    {
        let len = name_len(self.left);
        if len == 0 {
            return Err(Miss::Other);
        }
        let name = name_of(alloc, self.left.split_at(len).0)?;
        self.skip(len);
        Ok(name)
    }

    fn take_pairs(&mut self) -> u64
        ensures count { result ≡ pairs self.old.left.now }
        ensures left { self.new.left.now ≡ without_pairs self.old.left.now }
    {
        let mut dims = 0u64;
        'pairs: while let [b'[', b']', left @ ..] = self.left {
            self.left = left;
            dims += 1;
        }
        dims
    }

    fn take_type(&mut self, alloc: Global) -> Result<JType, Miss>
        ensures { Gives result self.new.left.now (read_type self.old.left.now) }
    {
        let base = self.take_name(alloc)?;
        let dims = self.take_pairs();
        Ok(JType { base, dims })
    }

    fn take_later_type(&mut self, alloc: Global) -> Result<JType, Miss>
        ensures { Gives result self.new.left.now (read_later_type self.old.left.now) }
    {
        self.take_byte(b',')?;
        self.skip_spaces();
        self.take_type(alloc)
    }

    fn take_later(&mut self, alloc: Global, types: &mut Vec<JType>) -> Result<(), Miss>
        ensures { GivesMore result types.old.items types.new.items self.new.left.now (read_later (length self.old.left.now) self.old.left.now) }
    {
        'later: while self.sees(b',') {
            types.push(self.take_later_type(alloc)?)?;
        }
        Ok(())
    }

    fn take_params(&mut self, alloc: Global) -> Result<Seq<JType>, Miss>
        ensures { Gives result self.new.left.now (read_params self.old.left.now) }
    {
        let mut types = Vec::new(alloc);
        if self.sees(b')') {
            return Ok(Seq::from_vec(types));
        }
        types.push(self.take_type(alloc)?)?;
        self.take_later(alloc, &mut types)?;
        Ok(Seq::from_vec(types))
    }

    /// Takes a signature.
    #[tactic(auto, unfolding(crate::specs::Reading::read_sig))]
    pub fn take_sig(&mut self, alloc: Global) -> Result<Sig, Miss>
        ensures { Gives result self.new.left.now (read_sig self.old.left.now) }
    {
        self.take_byte(b'<')?;
        let class = self.take_name(alloc)?;
        self.take_byte(b':')?;
        self.take_spaces()?;
        let result = self.take_type(alloc)?;
        self.take_spaces()?;
        let name = self.take_name(alloc)?;
        self.take_byte(b'(')?;
        let params = self.take_params(alloc)?;
        self.take_byte(b')')?;
        self.take_byte(b'>')?;
        Ok(Sig {
            class,
            result,
            name,
            params,
        })
    }
}
