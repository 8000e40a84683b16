// The reader of classes, which joins the faults of bytes, of the grammar and of names in their order.
ghost use Rattle.std.specs.Prelude.{◌≡◌, ◌<◌, ◌≤◌, ◌^◌, ◌++◌, ℕ, suc, List, All, IfOk, IfErr, Err, length};
ghost use Rattle.jimple_tree.specs.WellFormed.{IsWellFormed};
ghost use Rattle.jimple_grammar.specs.declared.lexeme.Lexeme.{Lexeme};
ghost use Rattle.jimple_grammar.specs.declared.raw.RawClass.{RawClass};
ghost use Rattle.jimple_grammar.specs.Forms.{file as file_form};
ghost use Rattle.jimple_grammar.specs.Lexemes.{lexemes};
ghost use Rattle.jimple_grammar.specs.Stops.{Told, IsSettled};
ghost use Rattle.jimple_tree.specs.declared.tree.Class.{Class};
ghost use Rattle.jimple_text.specs.Reads.{Reads, place, form_of, form_in_front, last_place};
ghost use Rattle.jimple_text.specs.Settled.{IsRead, Refused, AreGiven, AreRefused, Stopped, TokensRefused, as_input, as_stop};
ghost use Rattle.jimple_grammar.specs.Gives.{reason_number};

use clean_base::{Form, InputFault, Stop};
use jimple_grammar::{ParseStop, Reason, kind_of, read_tokens};
use jimple_lex::{Token, lex};
use jimple_names::{NameFault, NameStop, name_classes};
use jimple_tree::Class;
use jimple_words::kind::Kind;
use std::alloc::Global;

/// Where the first of the last so many tokens stands, or the end of the text.
fn place(bytes: &[u8], tokens: &[Token], left: usize) -> u64
    ensures { (front rest : List Lexeme) → lexemes bytes.now tokens.now ≡ front ++ rest → left ≡ length rest → result ≡ place bytes.now rest }
{
    match tokens.get(tokens.len().saturating_sub(left)) {
        Some(token) => token.from,
        None => bytes.len() as u64,
    }
}

/// Where the token before the last so many stands.
fn place_before(tokens: &[Token], left: usize) -> u64
    ensures { (bytes : List ℕ) (front rest : List Lexeme) → lexemes bytes tokens.now ≡ front ++ rest → left ≡ length rest → result ≡ last_place front }
{
    match tokens.len().saturating_sub(left).checked_sub(1) {
        Some(number) => match tokens.get(number) {
            Some(token) => token.from,
            None => 0,
        },
        None => 0,
    }
}

fn form_of(kind: Kind) -> Form
    ensures { result ≡ form_of kind }
{
    match kind {
        Kind::Dynamicinvoke => Form::Dynamic,
        Kind::Ret => Form::Ret,
        _ => Form::Breakpoint,
    }
}

/// The form of the word that is the first of the last so many tokens.
fn form(bytes: &[u8], tokens: &[Token], left: usize) -> Form
    requires { All (λ t. (t.from < t.to) × (t.to ≤ length bytes.now)) tokens.now × (length bytes.now < 2 ^ 32) }
    ensures { (front rest : List Lexeme) → lexemes bytes.now tokens.now ≡ front ++ rest → left ≡ length rest → result ≡ form_in_front rest }
{
    match tokens.get(tokens.len().saturating_sub(left)) {
        Some(token) => {
            let text = &bytes[token.from as usize..token.to as usize];
            form_of(kind_of(token.kind, text))
        }
        None => Form::Breakpoint,
    }
}

/// The fault of the file of that number, of whose tokens so many are left where one is refused.
fn refusal(bytes: &[u8], tokens: &[Token], file: u32, reason: Reason, left: usize) -> InputFault
    requires { All (λ t. (t.from < t.to) × (t.to ≤ length bytes.now)) tokens.now × (length bytes.now < 2 ^ 32)
        × IsSettled file_form (lexemes bytes.now tokens.now) × Stopped bytes.now tokens.now (suc (reason_number reason)) left }
    ensures { AreRefused file bytes.now tokens.now result }
{
    match reason {
        Reason::Unsupported => InputFault::Unsupported {
            file,
            at: place(bytes, tokens, left),
            form: form(bytes, tokens, left),
        },
        Reason::TooMany => InputFault::TooMany {
            file,
            at: place(bytes, tokens, left),
        },
        Reason::WordBefore => InputFault::Unsupported {
            file,
            at: place_before(tokens, left),
            form: Form::MethodConst,
        },
    }
}

/// The fault of the file of that number, whose tokens stop to begin a file.
fn grammar_fault(bytes: &[u8], tokens: &[Token], file: u32, stop: ParseStop) -> Stop
    requires { All (λ t. (t.from < t.to) × (t.to ≤ length bytes.now)) tokens.now × (length bytes.now < 2 ^ 32)
        × IsSettled file_form (lexemes bytes.now tokens.now) × Told {A = List RawClass} file_form (lexemes bytes.now tokens.now) (Err stop) }
    ensures { TokensRefused file bytes.now tokens.now result }
{
    match stop {
        ParseStop::OutOfMemory => Stop::OutOfMemory,
        ParseStop::Syntax(left) => {
            let at = place(bytes, tokens, left);
            Stop::Fault(InputFault::Syntax { file, at })
        }
        ParseStop::Refused(reason, left) => {
            Stop::Fault(refusal(bytes, tokens, file, reason, left))
        }
    }
}

fn name_fault(file: u32, fault: NameFault) -> InputFault
    ensures { result ≡ as_input file fault }
{
    match fault {
        NameFault::DoubleName(at) => InputFault::DoubleName {
            file,
            at: at as u64,
        },
        NameFault::UnknownLocal(at) => InputFault::UnknownLocal {
            file,
            at: at as u64,
        },
        NameFault::UnknownLabel(at) => InputFault::UnknownLabel {
            file,
            at: at as u64,
        },
    }
}

fn name_stop(file: u32, stop: NameStop) -> Stop
    ensures { result ≡ as_stop file stop }
{
    match stop {
        NameStop::OutOfMemory => Stop::OutOfMemory,
        NameStop::Fault(fault) => Stop::Fault(name_fault(file, fault)),
    }
}

/// The classes of these tokens of the text.
fn build(alloc: Global, bytes: &[u8], tokens: &[Token], file: u32) -> Result<Vec<Class>, Stop>
    requires { All (λ t. (t.from < t.to) × (t.to ≤ length bytes.now)) tokens.now × (length bytes.now < 2 ^ 32) × (length tokens.now < 2 ^ 32) }
    ensures ok { IfOk result (λ cs. AreGiven file bytes.now tokens.now cs.items) }
    ensures well_formed { IfOk result (λ cs. All IsWellFormed cs.items) }
    ensures err { IfErr result (TokensRefused file bytes.now tokens.now) }
{
    let tree = match read_tokens(alloc, bytes, tokens) {
        Ok(tree) => tree,
        Err(stop) => return Err(grammar_fault(bytes, tokens, file, stop)),
    };
    match name_classes(alloc, bytes, tree.as_slice()) {
        Ok(classes) => Ok(classes),
        Err(stop) => Err(name_stop(file, stop)),
    }
}

/// Reads the classes of a text, whole. `file` is the file's place in the order of reading, as faults name it.
///
/// An error is want of memory, or the first fault of the text: of its bytes (`BadByte`, `OpenText`), else of its tokens
/// (`Syntax`, `Unsupported`, `TooMany`), else of its names (`DoubleName`, `UnknownLocal`, `UnknownLabel`).
pub fn read_classes(alloc: Global, bytes: &[u8], file: u32) -> Result<Vec<Class>, Stop>
    requires { length bytes.now < 2 ^ 32 }
    ensures ok { IfOk result (λ cs. IsRead file bytes.now cs.items) }
    ensures well_formed { IfOk result (λ cs. All IsWellFormed cs.items) }
    ensures formed { (classes : List Class) → Reads bytes.now classes → All IsWellFormed classes }
    ensures err { IfErr result (Refused file bytes.now) }
{
    let tokens = lex(alloc, bytes, file)?;
    build(alloc, bytes, tokens.as_slice(), file)
}
