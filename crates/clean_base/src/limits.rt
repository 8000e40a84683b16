// The limits of the program (docs/COMMANDS.md, "Limits"). `specs/Limits.antt` has the same numbers for definitions.

/// The most bytes of class text in all, and of each other file.
pub const CLASS_ROOM: u64 = 268_435_456;

pub const LIST_ROOM: u64 = 16_777_216;

/// The most names of classes that a program gives and names.
pub const MOST_CLASSES: usize = 65_535;

/// The most methods with a body.
pub const MOST_METHODS: usize = 32_768;

/// The most statements of all bodies.
pub const MOST_STMTS: usize = 4_194_304;

/// The most fields, the two own ones included.
pub const MOST_FIELDS: usize = 1_048_576;

/// The most locals of a body, and parameters of a method.
pub const MOST_LOCALS: usize = 65_535;

pub const MOST_PARAMS: usize = 255;
