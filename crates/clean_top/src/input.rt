// What is read of a program: its classes, its list and where it is entered. Texts stand below; the work of commands above.
ghost use Rattle.std.specs.Prelude.{◌≡◌, ◌<◌, ◌≤◌, ◌^◌, All, IfOk, Ok, Err, length};
ghost use Rattle.jimple_tree.specs.WellFormed.{IsWellFormed};
ghost use Rattle.dummy_main.specs.Listing.{most_components};
ghost use Rattle.app_program.specs.Entry.{components_of};
ghost use Rattle.clean_stage.specs.Stage.{Comes};
ghost use Rattle.clean_top.specs.Meaning.{classes_in, classes_of, components_in, entry_in, input_in, lines_of, tabled, with_main};
ghost use Rattle.clean_top.specs.Words.{list_place};
ghost use Rattle.clean_top.specs.Reading.{text_at};
ghost use Rattle.clean_top.specs.declared.read.Text.{Text};

use crate::read::{Text, Texts, text_at};
use crate::task::Start;
use app_program::Entry;
use class_table::ClassTable;
use clean_base::Seq;
use clean_stage::Halt;
use dummy_main::{Component, make, read_components};
use jimple_text::read_classes;
use jimple_tree::Class;
use source_sink::{Lists, read_lists};
use std::alloc::{AllocError, Global};

/// The classes of a program, its list of sources and sinks, and where it is entered.
#[derive(Drop)]
pub struct Input {
    pub table: ClassTable,
    pub lists: Lists,
    pub entry: Entry,
}

// The classes of a class file.
fn read_text(alloc: Global, text: &Text) -> Result<Seq<Class>, Halt>
    requires { length text.now.bytes < 2 ^ 32 }
    ensures comes { Comes (classes_of text.now) result }
    ensures well_formed { IfOk result (All IsWellFormed) }
{
    let classes = read_classes(alloc, text.bytes.as_slice(), text.file)?;
    Ok(Seq::from_vec(classes))
}

/// The classes of all class files, in order.
pub fn read_every_class(alloc: Global, texts: &[Text]) -> Result<Seq<Class>, Halt>
    requires { All (λ (t : Text). length t.bytes < 2 ^ 32) texts.now }
    ensures comes { Comes (classes_in texts.now) result }
    ensures well_formed { IfOk result (All IsWellFormed) }
{
    let mut classes = Vec::new(alloc);
    for text in texts {
        let mut own = read_text(alloc, text)?.into_vec();
        let Ok(()) = classes.append(&mut own) else {
            return Err(Halt::OutOfMemory);
        };
    }
    Ok(Seq::from_vec(classes))
}

/// The components of a list.
pub fn read_component_list(alloc: Global, text: &Text) -> Result<Seq<Component>, Halt>
    ensures comes { Comes (components_in text.now) result }
    ensures few { IfOk result (λ components. length components ≤ most_components) }
{
    let components = read_components(alloc, text.bytes.as_slice(), text.file)?;
    Ok(Seq::from_vec(components))
}

// Where the program is entered.
fn read_entry(alloc: Global, start: &Start, lists: &[Text]) -> Result<Entry, Halt>
    requires lists { list_place start.now < length lists.now }
    ensures comes { Comes (entry_in start.now lists.now) result }
    ensures few { IfOk result (λ entry. length (components_of entry) ≤ most_components) }
{
    match start {
        Start::Method(sig) => Ok(Entry::Method(sig.copy(alloc)?)),
        Start::Components => Ok(Entry::Components(read_component_list(alloc, text_at(lists, 0))?)),
    }
}

// The classes, with the one that is generated for the entry's components behind them.
fn with_main(alloc: Global, classes: Seq<Class>, entry: &Entry) -> Result<Seq<Class>, AllocError>
    requires well_formed { All IsWellFormed classes }
    requires few { length (components_of entry.now) ≤ most_components }
    ensures with { IfOk result (λ all. all ≡ with_main entry.now classes) }
    ensures well_formed { IfOk result (All IsWellFormed) }
{
    match entry {
        Entry::Method(_) => Ok(classes),
        Entry::Components(components) => {
            let mut all = classes.into_vec();
            all.push(make(alloc, components.as_slice())?)?;
            Ok(Seq::from_vec(all))
        }
    }
}

// The lines of the list of sources and sinks.
fn read_list(alloc: Global, start: &Start, lists: &[Text]) -> Result<Lists, Halt>
    requires { list_place start.now < length lists.now }
    ensures { Comes (lines_of (text_at lists.now (list_place start.now))) result }
{
    let list = text_at(lists, list_place(start));
    Ok(read_lists(alloc, list.bytes.as_slice(), list.file)?)
}

// The place of the list of sources and sinks among the lists.
fn list_place(start: &Start) -> usize
    ensures { result ≡ list_place start.now }
{
    match start {
        Start::Method(_) => 0,
        Start::Components => 1,
    }
}

/// The table of the classes.
pub fn table_of(alloc: Global, classes: Seq<Class>) -> Result<ClassTable, Halt>
    requires { All IsWellFormed classes }
    ensures { Comes (tabled classes) result }
{
    Ok(ClassTable::build(alloc, classes.into_vec())?)
}

/// The classes and the lines of a program, and where it is entered.
pub fn read_input(alloc: Global, start: &Start, texts: &Texts) -> Result<Input, Halt>
    requires short { All (λ (t : Text). length t.bytes < 2 ^ 32) texts.now.classes }
    requires lists { list_place start.now < length texts.now.lists }
    ensures { Comes (input_in start.now texts.now) result }
{
    let classes = read_every_class(alloc, texts.classes.as_slice())?;
    let entry = read_entry(alloc, start, texts.lists.as_slice())?;
    let lists = read_list(alloc, start, texts.lists.as_slice())?;
    let table = table_of(alloc, with_main(alloc, classes, &entry)?)?;
    Ok(Input {
        table,
        lists,
        entry,
    })
}
