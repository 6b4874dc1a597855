//! The classes of `dart:core`, and the rows that they make.

ghost use Rattle.std.specs.Prelude.{◌≡◌, IfOk};
ghost use Rattle.dart_types.specs.Ty.{interface, variable, no_more, more};
ghost use Rattle.dart_types.specs.declared.ids.TheConstants.{ITERABLE};
ghost use Rattle.core_rows.specs.CoreTable.{core_var, core_table};
ghost use Rattle.core_rows.specs.CoreDeclared.{plain_class, generic_class, map_class, division_class, first_classes, collection_classes, error_classes, declared_classes};

use crate::core_vars::{core_var, var_rows};
use class_depths::{DeclaredClass, Unextended, extend_declared};
use dart_types::{
    ARGUMENT_ERROR, BOOL, ClassId, DartType, ERROR, EXCEPTION, FUNCTION, INT,
    INTEGER_DIVISION_BY_ZERO_EXCEPTION, ITERABLE, ITERATOR, LIST, MAP, NULL, OBJECT, RANGE_ERROR,
    Rows, STACK_OVERFLOW_ERROR, STACK_TRACE, STATE_ERROR, STRING, TYPE_ERROR, TypeList, TypeNode,
    VarList,
};
use std::alloc::{AllocError, Global};

/// A class without type parameters, whose one direct supertype is a class without arguments.
fn plain_class(alloc: Global, class: ClassId, above: ClassId) -> Result<DeclaredClass, AllocError>
    ensures { IfOk result (λ declared. declared ≡ plain_class class above) }
{
    let mut supers = TypeList::new(alloc);
    supers.push(DartType::class(alloc, above)?)?;
    Ok(DeclaredClass {
        id: class,
        params: VarList::new(alloc),
        supers,
    })
}

/// A class with one type parameter and one direct supertype.
fn generic_class(
    alloc: Global,
    class: ClassId,
    param: u32,
    above: DartType,
) -> Result<DeclaredClass, AllocError>
    ensures { IfOk result (λ declared. declared ≡ generic_class class param above) }
{
    let mut params = VarList::new(alloc);
    params.push(core_var(param))?;
    let mut supers = TypeList::new(alloc);
    supers.push(above)?;
    Ok(DeclaredClass {
        id: class,
        params,
        supers,
    })
}

/// The iterables of a type parameter.
fn iterable_of(alloc: Global, param: u32) -> Result<DartType, AllocError>
    ensures { IfOk result (λ t. t ≡ interface ITERABLE (more (variable (core_var param)) no_more)) }
{
    let mut args = TypeList::new(alloc);
    let node = TypeNode::Var(core_var(param));
    args.push(DartType { node })?;
    DartType::interface(alloc, ITERABLE, args)
}

/// `Map`.
fn map_class(alloc: Global) -> Result<DeclaredClass, AllocError>
    ensures { IfOk result (λ declared. declared ≡ map_class) }
{
    let mut params = VarList::new(alloc);
    params.push(core_var(12))?;
    params.push(core_var(13))?;
    let mut supers = TypeList::new(alloc);
    supers.push(DartType::class(alloc, OBJECT)?)?;
    Ok(DeclaredClass {
        id: MAP,
        params,
        supers,
    })
}

/// `IntegerDivisionByZeroException`.
fn division_class(alloc: Global) -> Result<DeclaredClass, AllocError>
    ensures { IfOk result (λ declared. declared ≡ division_class) }
{
    let mut supers = TypeList::new(alloc);
    supers.push(DartType::class(alloc, OBJECT)?)?;
    supers.push(DartType::class(alloc, EXCEPTION)?)?;
    Ok(DeclaredClass {
        id: INTEGER_DIVISION_BY_ZERO_EXCEPTION,
        params: VarList::new(alloc),
        supers,
    })
}

/// `Object` and the classes before `Iterator`.
fn first_classes(alloc: Global) -> Result<Vec<DeclaredClass>, AllocError>
    ensures { IfOk result (λ classes. classes.items ≡ first_classes) }
{
    let mut classes = Vec::new(alloc);
    classes.push(DeclaredClass {
        id: OBJECT,
        params: VarList::new(alloc),
        supers: TypeList::new(alloc),
    })?;
    classes.push(plain_class(alloc, NULL, OBJECT)?)?;
    classes.push(plain_class(alloc, BOOL, OBJECT)?)?;
    classes.push(plain_class(alloc, FUNCTION, OBJECT)?)?;
    classes.push(plain_class(alloc, STACK_TRACE, OBJECT)?)?;
    classes.push(plain_class(alloc, INT, OBJECT)?)?;
    classes.push(plain_class(alloc, STRING, OBJECT)?)?;
    Ok(classes)
}

/// The classes from `Iterator` to `Map`.
fn collection_classes(alloc: Global) -> Result<Vec<DeclaredClass>, AllocError>
    ensures { IfOk result (λ classes. classes.items ≡ collection_classes) }
{
    let mut classes = Vec::new(alloc);
    let object = DartType::class(alloc, OBJECT)?;
    classes.push(generic_class(alloc, ITERATOR, 0, object)?)?;
    let object = DartType::class(alloc, OBJECT)?;
    classes.push(generic_class(alloc, ITERABLE, 1, object)?)?;
    let above = iterable_of(alloc, 10)?;
    classes.push(generic_class(alloc, LIST, 10, above)?)?;
    classes.push(map_class(alloc)?)?;
    Ok(classes)
}

/// The errors and exceptions.
fn error_classes(alloc: Global) -> Result<Vec<DeclaredClass>, AllocError>
    ensures { IfOk result (λ classes. classes.items ≡ error_classes) }
{
    let mut classes = Vec::new(alloc);
    classes.push(plain_class(alloc, ERROR, OBJECT)?)?;
    classes.push(plain_class(alloc, TYPE_ERROR, ERROR)?)?;
    classes.push(plain_class(alloc, STACK_OVERFLOW_ERROR, ERROR)?)?;
    classes.push(plain_class(alloc, ARGUMENT_ERROR, ERROR)?)?;
    classes.push(plain_class(alloc, RANGE_ERROR, ARGUMENT_ERROR)?)?;
    classes.push(plain_class(alloc, STATE_ERROR, ERROR)?)?;
    classes.push(plain_class(alloc, EXCEPTION, OBJECT)?)?;
    classes.push(division_class(alloc)?)?;
    Ok(classes)
}

/// All these classes.
fn declared_classes(alloc: Global) -> Result<Vec<DeclaredClass>, AllocError>
    ensures { IfOk result (λ classes. classes.items ≡ declared_classes) }
{
    let mut classes = first_classes(alloc)?;
    let mut collections = collection_classes(alloc)?;
    let mut errors = error_classes(alloc)?;
    classes.append(&mut collections)?;
    classes.append(&mut errors)?;
    Ok(classes)
}

/// The rows of the classes of `dart:core` that rules name.
pub fn core_rows(alloc: Global) -> Result<Rows, AllocError>
    ensures { IfOk result (λ rows. rows.table ≡ core_table) }
{
    let none = Rows::none(alloc);
    let classes = declared_classes(alloc)?;
    let vars = var_rows(alloc)?;
    match extend_declared(alloc, &none, &classes, vars) {
        Ok(extended) => Ok(extended.rows),
        Err(Unextended::Cycle { .. }) => unreachable!(),
        Err(Unextended::Unformed) => unreachable!(),
        Err(Unextended::Memory) => Err(AllocError),
    }
}
