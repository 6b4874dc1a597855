//! Types in a short notation.
//!
//! A text is read from left to right, and each letter works on the types that stand before it. The
//! letters of classes and type variables are those of `letters.rt`.
//!
//! | Letter | What it is |
//! |---|---|
//! | of a class | the class, of as many types as it has parameters |
//! | of a type variable | the variable |
//! | `N` `E` `V` `!` | `Null`, `Never`, `void`, the invalid type |
//! | `*` | the mark of an open parameter |
//! | `?` | the type before, with `?` |
//! | `&` | `X & U` of the variable X and the type U before |
//! | `(` | begins a function type |
//! | `r` `p` | the type before is that of a required positional parameter, of an optional one |
//! | `a` `b` `A` `B` | that of a named parameter, of a required named one |
//! | `)` | the type before is the result, and the function type ends |
//! | `{N}` | a type of N types: a List of N - 1 times `void` |
//! | `<N>` | the type variable with the number N |
//! | `[N]` | the class N of the tower, of the type before |
//! | `[N^M]` | the same, M times over |

use crate::letters::{TOWER, class_of, var, var_of};
use dart_types::{
    ClassId, DartType, FunctionType, LibId, NamedType, NamedTypes, TypeList, TypeNode, VarId,
};
use plain_text::PlainText;
use std::alloc::Global;
use std::rc::Rc;
use std::test::Fail;
use type_infer::OPEN_PARAMETER;

// The class of types of many types, which is List.
const LARGE: ClassId = ClassId {
    lib: LibId(0),
    index: 8,
};

// A function type whose parameters are read.
#[derive(Drop)]
struct Signature {
    required: TypeList,
    optional: TypeList,
    named: NamedTypes,
}

// What was read: types, and function types that haven't ended.
#[derive(Drop)]
struct Reader {
    types: Vec<DartType>,
    open: Vec<Signature>,
    // The number that is read, and the one before `^`.
    number: Option<u32>,
    before: Option<u32>,
}

/// The types of a text.
pub(crate) fn types_in(alloc: Global, text: &str) -> Result<Vec<DartType>, Fail> {
    let mut reader = Reader {
        types: Vec::new(alloc),
        open: Vec::new(alloc),
        number: None,
        before: None,
    };
    for letter in text.as_bytes() {
        match reader.number {
            Some(number) => reader.digit(alloc, *letter, number)?,
            None => reader.step(alloc, *letter)?,
        }
    }
    Ok(reader.types)
}

/// The list of these types.
pub(crate) fn list_in(alloc: Global, text: &str) -> Result<TypeList, Fail> {
    let mut list = TypeList::new(alloc);
    for t in types_in(alloc, text)? {
        list.push(t)?;
    }
    Ok(list)
}

/// The one type of a text.
pub(crate) fn type_in(alloc: Global, text: &str) -> Result<DartType, Fail> {
    let mut types = types_in(alloc, text)?;
    last(&mut types)
}

/// The type variables of a text.
pub(crate) fn vars_in(alloc: Global, text: &str) -> Result<Vec<VarId>, Fail> {
    let mut vars = Vec::new(alloc);
    for letter in text.as_bytes() {
        match var_of(*letter) {
            Some(var) => vars.push(var)?,
            None => return Err("no letter of a type variable".into()),
        }
    }
    Ok(vars)
}

// The last type, taken away.
fn last(types: &mut Vec<DartType>) -> Result<DartType, Fail> {
    match types.pop() {
        Some(t) => Ok(t),
        None => Err("no type stands before".into()),
    }
}

// The last function type that hasn't ended, taken away.
fn last_open(open: &mut Vec<Signature>) -> Result<Signature, Fail> {
    match open.pop() {
        Some(signature) => Ok(signature),
        None => Err("no function type has begun".into()),
    }
}

// The type of a letter that stands for a type without parts.
fn leaf(letter: u8) -> Option<TypeNode> {
    match letter {
        b'N' => Some(TypeNode::Null),
        b'E' => Some(TypeNode::Never),
        b'V' => Some(TypeNode::Void),
        b'!' => Some(TypeNode::Invalid),
        b'*' => Some(TypeNode::Var(OPEN_PARAMETER)),
        _ => match var_of(letter) {
            Some(var) => Some(TypeNode::Var(var)),
            None => None,
        },
    }
}

impl Reader {
    fn step(&mut self, alloc: Global, letter: u8) -> Result<(), Fail> {
        if let Some(node) = leaf(letter) {
            return self.put(node);
        }
        if let Some((class, count)) = class_of(letter)? {
            return self.apply(alloc, class, count);
        }
        match letter {
            b' ' => Ok(()),
            b'{' | b'<' | b'[' => {
                self.number = Some(0);
                Ok(())
            }
            b'&' => self.promote(alloc),
            b'?' => self.mark(alloc),
            b'(' => self.begin(alloc),
            b')' => self.end(alloc),
            b'r' => self.positional(true),
            b'p' => self.positional(false),
            b'a' => self.named(alloc, "a", false),
            b'b' => self.named(alloc, "b", false),
            b'A' => self.named(alloc, "a", true),
            b'B' => self.named(alloc, "b", true),
            _ => Err("no letter of types".into()),
        }
    }

    // Takes a letter of a number, or the one that ends it.
    fn digit(&mut self, alloc: Global, letter: u8, number: u32) -> Result<(), Fail> {
        if letter.is_ascii_digit() {
            let digit = u32::from(letter).saturating_sub(48);
            self.number = Some(number.saturating_mul(10).saturating_add(digit));
            return Ok(());
        }
        if letter == b'^' {
            self.before = Some(number);
            self.number = Some(0);
            return Ok(());
        }
        self.number = None;
        match letter {
            b'}' => self.large(alloc, number),
            b'>' => self.put(TypeNode::Var(var(number))),
            b']' => match self.before.take() {
                None => self.nest(alloc, number, 1),
                Some(class) => self.nest(alloc, class, number),
            },
            _ => Err("a number doesn't end".into()),
        }
    }

    // A type of so many types.
    fn large(&mut self, alloc: Global, nodes: u32) -> Result<(), Fail> {
        let mut args = TypeList::new(alloc);
        for _ in 1..nodes {
            args.push(DartType {
                node: TypeNode::Void,
            })?;
        }
        self.types.push(DartType::interface(alloc, LARGE, args)?)?;
        Ok(())
    }

    // The class of the tower, so many times around the type before.
    fn nest(&mut self, alloc: Global, index: u32, times: u32) -> Result<(), Fail> {
        let class = ClassId { lib: TOWER, index };
        for _ in 0..times {
            let mut args = TypeList::new(alloc);
            args.push(last(&mut self.types)?)?;
            self.types.push(DartType::interface(alloc, class, args)?)?;
        }
        Ok(())
    }

    fn put(&mut self, node: TypeNode) -> Result<(), Fail> {
        self.types.push(DartType { node })?;
        Ok(())
    }

    // The class, of as many types as stand before.
    fn apply(&mut self, alloc: Global, class: ClassId, count: u32) -> Result<(), Fail> {
        let mut args = TypeList::new(alloc);
        if count == 1 {
            args.push(last(&mut self.types)?)?;
        }
        if count == 2 {
            let second = last(&mut self.types)?;
            let first = last(&mut self.types)?;
            args.push(first)?;
            args.push(second)?;
        }
        self.types.push(DartType::interface(alloc, class, args)?)?;
        Ok(())
    }

    fn promote(&mut self, alloc: Global) -> Result<(), Fail> {
        let to = last(&mut self.types)?;
        match last(&mut self.types)?.node {
            TypeNode::Var(var) => {
                self.types.push(DartType::promoted(alloc, var, to)?)?;
                Ok(())
            }
            _ => Err("no variable stands before".into()),
        }
    }

    fn mark(&mut self, alloc: Global) -> Result<(), Fail> {
        let bare = last(&mut self.types)?;
        let bare = Rc::new(alloc, bare)?;
        self.put(TypeNode::Nullable(bare))
    }

    fn begin(&mut self, alloc: Global) -> Result<(), Fail> {
        self.open.push(Signature {
            required: TypeList::new(alloc),
            optional: TypeList::new(alloc),
            named: NamedTypes::new(alloc),
        })?;
        Ok(())
    }

    fn end(&mut self, alloc: Global) -> Result<(), Fail> {
        let result = last(&mut self.types)?;
        let signature = last_open(&mut self.open)?;
        let function = FunctionType {
            required: signature.required,
            optional: signature.optional,
            named: signature.named,
            result,
        };
        self.types.push(DartType::function(alloc, function)?)?;
        Ok(())
    }

    fn positional(&mut self, required: bool) -> Result<(), Fail> {
        let ty = last(&mut self.types)?;
        let mut signature = last_open(&mut self.open)?;
        if required {
            signature.required.push(ty)?;
        } else {
            signature.optional.push(ty)?;
        }
        self.open.push(signature)?;
        Ok(())
    }

    fn named(&mut self, alloc: Global, name: &str, required: bool) -> Result<(), Fail> {
        let ty = last(&mut self.types)?;
        let mut signature = last_open(&mut self.open)?;
        let name = PlainText::new(alloc, name)?;
        if !signature.named.takes(&name) {
            return Err("names don't rise".into());
        }
        signature.named.push(NamedType { name, required, ty })?;
        self.open.push(signature)?;
        Ok(())
    }
}
