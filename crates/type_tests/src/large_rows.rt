//! Rows of many classes and type variables.
//!
//! | Rows | Classes and variables |
//! |---|---|
//! | `rows sample 0` | those with letters |
//! | `rows other 7` | these, and a class of the library 7, which is a G of num |
//! | `rows both 5` | these again, of the libraries 7 and 5, as a union of rows with both and rows with the first |
//! | `rows diamonds N` | those with letters, and N diamonds above one another in the tower: 3 is a 1 and a 2, both are a 0, and so on |
//! | `rows chain N` | those with letters, and a chain of N variables behind the first, whose bound is num; each is the bound of the next |
//! | `rows marks N` | the same, each with `?` |
//! | `rows pairs N` | those with letters, and behind the variables X and Y, whose bounds are int and double, N pairs of variables: the bound of each is a Map of two times the one two places before it |
//! | `rows doubling N` | N classes of the tower, each of which is the one before it of a pair of its parameter, and one behind them that is the last of its own parameter |
//!
//! No call takes the time of all ways up, and none goes too deep.

ghost use Rattle.std.specs.Prelude.{IfOk};
ghost use Rattle.dart_types.specs.Unions.{IsView};

use crate::cells::index;
use crate::letters::{Lettered, TOWER, VARS, var};
use crate::sample_rows::{class_row, rows_of, sample_classes, sample_params, sample_rows, var_row};
use dart_types::{
    CORE, ClassId, ClassRow, DartType, ExtendedRows, LibId, Rows, TypeList, TypeNode, VarId,
    VarRow, view_law,
};
use std::alloc::Global;
use std::rc::Rc;
use std::test::Fail;

// A class of the tower, of these types.
fn applied(alloc: Global, class: u32, args: TypeList) -> Result<DartType, Fail> {
    let class = ClassId {
        lib: TOWER,
        index: class,
    };
    Ok(DartType::interface(alloc, class, args)?)
}

// A class of the tower, of one type.
fn applied_to(alloc: Global, class: u32, arg: DartType) -> Result<DartType, Fail> {
    let mut args = TypeList::new(alloc);
    args.push(arg)?;
    applied(alloc, class, args)
}

// The parameter of a class of the tower.
fn param(class: u32) -> DartType {
    let var = VarId {
        lib: TOWER,
        index: class.saturating_mul(2),
    };
    DartType {
        node: TypeNode::Var(var),
    }
}

// A class of the tower, which has one type parameter.
fn tower_class(index: u32, supers: &str, depth: u64) -> Lettered<'_> {
    Lettered {
        letter: "",
        class: ClassId { lib: TOWER, index },
        params: 1,
        depth,
        supers,
    }
}

// A class of the tower with these supertypes.
fn generic(alloc: Global, class: u32, supers: TypeList, depth: u64) -> Result<ClassRow, Fail> {
    let mut row = class_row(alloc, tower_class(class, "", depth))?;
    row.supers = supers;
    Ok(row)
}

// A class whose supertypes are others of its own parameter.
fn passing(alloc: Global, class: u32, above: &[u32], depth: u64) -> Result<ClassRow, Fail> {
    let mut supers = TypeList::new(alloc);
    for over in above {
        supers.push(applied_to(alloc, *over, param(class))?)?;
    }
    generic(alloc, class, supers, depth)
}

// The rows of the parameters of so many classes of the tower, and of those with letters.
fn params(alloc: Global, count: u32) -> Result<Vec<VarRow>, Fail> {
    let mut vars = sample_params(alloc)?;
    for class in 0..count {
        vars.push(var_row(alloc, TOWER, class.saturating_mul(2), "o?")?)?;
    }
    Ok(vars)
}

// The classes with letters, and the class 0 of the tower.
fn roots(alloc: Global) -> Result<Vec<ClassRow>, Fail> {
    let mut classes = sample_classes(alloc)?;
    classes.push(class_row(alloc, tower_class(0, "o", 1))?)?;
    Ok(classes)
}

// Rows of so many diamonds, one above another: 3 is a 1 and a 2, both are a 0, and so on.
fn diamonds(alloc: Global, count: u32) -> Result<ExtendedRows, Fail> {
    let mut classes = roots(alloc)?;
    let mut top: u32 = 0;
    let mut depth: u64 = 1;
    for _ in 0..count {
        let left = top.saturating_add(1);
        let right = top.saturating_add(2);
        let bottom = top.saturating_add(3);
        classes.push(passing(alloc, left, &[top], depth.saturating_add(1))?)?;
        classes.push(passing(alloc, right, &[top], depth.saturating_add(1))?)?;
        classes.push(passing(alloc, bottom, &[left, right], depth.saturating_add(2))?)?;
        top = bottom;
        depth = depth.saturating_add(2);
    }
    let vars = params(alloc, top.saturating_add(1))?;
    rows_of(alloc, classes, vars)
}

// A variable of a chain.
fn link(index: u32) -> DartType {
    DartType {
        node: TypeNode::Var(var(index)),
    }
}

// The classes with letters and a chain of variables behind the first, whose bound is `num`; each, with
// `?` or without, is the bound of the next.
fn chain(alloc: Global, count: u32, with_marks: bool) -> Result<ExtendedRows, Fail> {
    let mut vars = sample_params(alloc)?;
    vars.push(var_row(alloc, VARS, 0, "n")?)?;
    for before in 0..count {
        let index: u32 = before;
        let bare = link(index);
        let bound = if with_marks {
            let bare = Rc::new(alloc, bare)?;
            DartType {
                node: TypeNode::Nullable(bare),
            }
        } else {
            bare
        };
        vars.push(VarRow {
            var: var(index.saturating_add(1)),
            bound,
        })?;
    }
    rows_of(alloc, sample_classes(alloc)?, vars)
}

// A variable whose bound is a Map of two times another one.
fn pair_of(alloc: Global, of: u32, index: u32) -> Result<VarRow, Fail> {
    let mut pair = TypeList::new(alloc);
    pair.push(link(of))?;
    pair.push(link(of))?;
    let class_map = ClassId {
        lib: CORE,
        index: 9,
    };
    Ok(VarRow {
        var: var(index),
        bound: DartType::interface(alloc, class_map, pair)?,
    })
}

// The classes with letters, two variables whose bounds are `int` and `double`, and so many pairs of
// variables behind them, each of which has a Map of two times the one before it on its side as its bound.
fn pairs(alloc: Global, count: u32) -> Result<ExtendedRows, Fail> {
    let mut vars = sample_params(alloc)?;
    vars.push(var_row(alloc, VARS, 0, "i")?)?;
    vars.push(var_row(alloc, VARS, 1, "d")?)?;
    let mut before: u32 = 0;
    for _ in 0..count {
        let next = before.saturating_add(1);
        vars.push(pair_of(alloc, before, before.saturating_add(2))?)?;
        vars.push(pair_of(alloc, next, next.saturating_add(2))?)?;
        before = before.saturating_add(2);
    }
    rows_of(alloc, sample_classes(alloc)?, vars)
}

// A class that is the one before it of `Map<T, T>`, of its own parameter T.
fn doubled(alloc: Global, class: u32, above: u32, depth: u64) -> Result<ClassRow, Fail> {
    let mut pair = TypeList::new(alloc);
    pair.push(param(class))?;
    pair.push(param(class))?;
    let class_map = ClassId {
        lib: CORE,
        index: 9,
    };
    let map = DartType::interface(alloc, class_map, pair)?;
    let mut supers = TypeList::new(alloc);
    supers.push(applied_to(alloc, above, map)?)?;
    generic(alloc, class, supers, depth)
}

// Classes each of which doubles what the one before it is of, and one behind them that is the last of its
// own parameter. The one that is so many behind another has it as superinterface with two types in it, and
// with twice as many for each further one.
fn doubling(alloc: Global, count: u32) -> Result<ExtendedRows, Fail> {
    let mut classes = roots(alloc)?;
    let mut depth: u64 = 1;
    for above in 0..count {
        let class: u32 = above;
        depth = depth.saturating_add(1);
        classes.push(doubled(alloc, class.saturating_add(1), class, depth)?)?;
    }
    let last = count.saturating_add(1);
    classes.push(passing(alloc, last, &[count], depth.saturating_add(1))?)?;
    let vars = params(alloc, last.saturating_add(1))?;
    rows_of(alloc, classes, vars)
}

// A class of another library, which is a `G` of `num` by a class of the sample rows.
pub(crate) fn other_class(alloc: Global, lib: LibId) -> Result<Vec<ClassRow>, Fail> {
    let mut classes = Vec::new(alloc);
    let class = Lettered {
        letter: "",
        class: ClassId { lib, index: 0 },
        params: 0,
        depth: 3,
        supers: "nH",
    };
    classes.push(class_row(alloc, class)?)?;
    Ok(classes)
}

// These rows with a class of another library.
fn with_other(alloc: Global, below: &Rows, lib: LibId) -> Result<Rows, Fail>
    ensures { IfOk result (λ rows. IsView below.now.table rows.table) }
{
    let classes = other_class(alloc, lib)?;
    let vars: Vec<VarRow> = Vec::new(alloc);
    if !below.takes(&classes, &vars) {
        return Err("rows that aren't well formed".into());
    }
    let extended = Rows::extend(alloc, below, classes, vars)?;
    Ok(extended.rows)
}

// The rows with a class of the library 7.
fn one_more(alloc: Global) -> Result<ExtendedRows, Fail> {
    let below = sample_rows(alloc)?;
    let rows = with_other(alloc, &below.rows, LibId(7))?;
    let too_large = Vec::new(alloc);
    Ok(ExtendedRows { rows, too_large })
}

// The union of rows with a class of the library 7, and of the same with one of another library more.
fn both(alloc: Global, lib: LibId) -> Result<ExtendedRows, Fail> {
    let left = one_more(alloc)?.rows;
    let right = with_other(alloc, &left, lib)?;
    view_law(&left, &right);
    let rows = left.union(alloc, &right)?;
    let too_large = Vec::new(alloc);
    Ok(ExtendedRows { rows, too_large })
}

/// The rows of a line.
pub(crate) fn rows_in(alloc: Global, text: &str) -> Result<ExtendedRows, Fail> {
    let Some((word, number)) = text.split_once(' ') else {
        return Err("rows have a number".into());
    };
    let count = index(number)?;
    match word {
        "sample" => sample_rows(alloc),
        "other" => one_more(alloc),
        "both" => both(alloc, LibId(u64::from(count))),
        "diamonds" => diamonds(alloc, count),
        "chain" => chain(alloc, count, false),
        "marks" => chain(alloc, count, true),
        "pairs" => pairs(alloc, count),
        "doubling" => doubling(alloc, count),
        _ => Err("no such rows".into()),
    }
}
