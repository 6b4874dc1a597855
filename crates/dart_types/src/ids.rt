//! Libraries, classes and type variables by number, and the classes of `dart:core` that rules name, by
//! their places in its text.

/// A library, by a number that is its own. `dart:core` has 0.
#[derive(Clone, Copy, Debug, PartialEq, Eq, PartialOrd, Ord)]
pub struct LibId(pub u64);

/// A class or a mixin, by its place among those of its library, from 0.
#[derive(Clone, Copy, Debug, PartialEq, Eq, PartialOrd, Ord)]
pub struct ClassId {
    /// The library that declares it.
    pub lib: LibId,
    /// Its place among the classes that the library declares, in the order of the text.
    pub index: u32,
}

/// A type parameter of a class or of a function, by its place among those of its library, from 0.
#[derive(Clone, Copy, Debug, PartialEq, Eq, PartialOrd, Ord)]
pub struct VarId {
    /// The library that declares it.
    pub lib: LibId,
    /// Its place among the type parameters that the library declares, in the order of the text.
    pub index: u32,
}

/// The library `dart:core`.
pub const CORE: LibId = LibId(0);

/// The number that no library has. Well-formed rows have no type variable with it, so that what bears
/// it stands in no type of a program.
pub const NO_LIBRARY: LibId = LibId(18_446_744_073_709_551_615);

/// The class `Object`, which is the first of `dart:core`.
pub const OBJECT: ClassId = ClassId {
    lib: CORE,
    index: 0,
};

/// The class `Function`, which is the fourth of `dart:core`.
pub const FUNCTION: ClassId = ClassId {
    lib: CORE,
    index: 3,
};

/// The class `Null`.
pub const NULL: ClassId = ClassId {
    lib: CORE,
    index: 1,
};

/// The class `bool`.
pub const BOOL: ClassId = ClassId {
    lib: CORE,
    index: 2,
};

/// The class `StackTrace`.
pub const STACK_TRACE: ClassId = ClassId {
    lib: CORE,
    index: 4,
};

/// The class `int`.
pub const INT: ClassId = ClassId {
    lib: CORE,
    index: 5,
};

/// The class `String`.
pub const STRING: ClassId = ClassId {
    lib: CORE,
    index: 6,
};

/// The class `Iterator`.
pub const ITERATOR: ClassId = ClassId {
    lib: CORE,
    index: 7,
};

/// The class `Iterable`.
pub const ITERABLE: ClassId = ClassId {
    lib: CORE,
    index: 8,
};

/// The class `List`.
pub const LIST: ClassId = ClassId {
    lib: CORE,
    index: 13,
};

/// The class `Map`.
pub const MAP: ClassId = ClassId {
    lib: CORE,
    index: 15,
};

/// The class `Error`.
pub const ERROR: ClassId = ClassId {
    lib: CORE,
    index: 16,
};

/// The class `TypeError`.
pub const TYPE_ERROR: ClassId = ClassId {
    lib: CORE,
    index: 17,
};

/// The class `StackOverflowError`.
pub const STACK_OVERFLOW_ERROR: ClassId = ClassId {
    lib: CORE,
    index: 18,
};

/// The class `ArgumentError`.
pub const ARGUMENT_ERROR: ClassId = ClassId {
    lib: CORE,
    index: 19,
};

/// The class `RangeError`.
pub const RANGE_ERROR: ClassId = ClassId {
    lib: CORE,
    index: 20,
};

/// The class `StateError`.
pub const STATE_ERROR: ClassId = ClassId {
    lib: CORE,
    index: 21,
};

/// The class `Exception`.
pub const EXCEPTION: ClassId = ClassId {
    lib: CORE,
    index: 22,
};

/// The class `IntegerDivisionByZeroException`.
pub const INTEGER_DIVISION_BY_ZERO_EXCEPTION: ClassId = ClassId {
    lib: CORE,
    index: 24,
};
