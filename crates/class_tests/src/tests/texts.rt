// Tables of the classes of a text, and their parts by name.
use class_table::ClassTable;
use clean_base::{ClassId, MethodId, Name, Stop};
use jimple_text::read_classes;
use source_sink::read_sig;
use std::alloc::{AllocError, Global};

pub fn name(alloc: Global, text: &[u8]) -> Result<Name, AllocError> {
    Ok(Name::from_vec(Vec::from_slice(alloc, text)?))
}

pub fn table_of(alloc: Global, text: &[u8]) -> Result<ClassTable, Stop> {
    if text.len() >= 4_294_967_296 {
        return Err(Stop::OutOfMemory);
    }
    let classes = read_classes(alloc, text, 0)?;
    ClassTable::build(alloc, classes)
}

pub fn class_of(
    alloc: Global,
    table: &ClassTable,
    text: &[u8],
) -> Result<Option<ClassId>, AllocError> {
    let name = name(alloc, text)?;
    Ok(table.find(&name))
}

/// The method that is declared under the signature of this text.
pub fn method_of(
    alloc: Global,
    table: &ClassTable,
    text: &[u8],
) -> Result<Option<MethodId>, AllocError> {
    match read_sig(alloc, text)? {
        Some(sig) => Ok(table.find_method(&sig)),
        None => Ok(None),
    }
}
